//! On what terms the programs of resources are asked about, and what stands behind their number.

ghost use Rattle.std.specs.Prelude.{◌≡◌, IfOk};
ghost use Rattle.command_line.specs.declared.table.Role.TheVariants as role;
ghost use Rattle.known_inputs.specs.Inputs.{bytes_of};
ghost use Rattle.reports.specs.Terms.{terms_of, given_line, assumed_count, assumed_line, notes_of, asked_on, wanted_in};

use crate::modelling::Modelled;
use command_line::Role;
use compiled_models::count_assumed;
use compiled_text::CompiledCatalog;
use fs_lang::Path;
use given_links::read_path;
use known_inputs::{Inputs, Known};
use question_terms::Terms;
use rh_base::{NoMemory, Seq, Text};
use std::alloc::Global;
use wanted_entry::Wanted;

/// On what terms programs are asked about, and the lines behind their number.
#[derive(Debug, Drop)]
pub struct Asked {
    pub terms: Terms,
    pub notes: Text,
}

fn copies(alloc: Global, paths: &[Path]) -> Result<Seq<Path>, NoMemory>
    ensures { IfOk result (λ copies. copies ≡ paths.now) }
{
    let mut made = Seq::new(alloc);
    for path in paths {
        made.push(path.copy(alloc)?)?;
    }
    Ok(made)
}

/// From the trees in which the given folders stand, within the limits and the conflicts that are given.
fn terms_of(
    alloc: Global,
    inputs: &Inputs,
    known: &Known,
    conflicts: Option<u64>,
) -> Result<Terms, NoMemory>
    ensures { IfOk result (λ terms. terms ≡ terms_of inputs.now known.now conflicts) }
{
    let given = copies(alloc, known.given.folders.as_slice())?;
    Ok(Terms {
        given,
        limits: inputs.limits,
        conflicts,
    })
}

/// How many of the resources at these places are assumed.
fn assumed_count(
    alloc: Global,
    known: &Known,
    source: &Option<CompiledCatalog>,
    plain: &[u32],
) -> Result<usize, NoMemory>
    ensures { IfOk result (λ count. count ≡ assumed_count known.now source.now plain.now) }
{
    match source {
        None => Ok(0),
        Some(compiled) => count_assumed(alloc, compiled, plain, &known.assumed),
    }
}

/// The line on how many of the resources at these places are assumed, where a text of assumptions is named.
fn assumed_line(
    alloc: Global,
    inputs: &Inputs,
    known: &Known,
    source: &Option<CompiledCatalog>,
    plain: &[u32],
) -> Result<Text, NoMemory>
    ensures { IfOk result (λ line. line ≡ assumed_line (bytes_of role.Assume inputs.now) (assumed_count known.now source.now plain.now)) }
{
    match inputs.bytes(Role::Assume) {
        Some(_) => {
            let count = assumed_count(alloc, known, source, plain)?;
            Ok(Text::from_string(format!(in alloc; "assumed {count}\n")?))
        }
        None => Ok(Text::new(alloc)),
    }
}

/// The line on how many folders are given, where a text of what every host has is named.
fn given_line(alloc: Global, inputs: &Inputs, known: &Known) -> Result<Text, NoMemory>
    ensures { IfOk result (λ line. line ≡ given_line (bytes_of role.Given inputs.now) known.now.given.folders) }
{
    match inputs.bytes(Role::Given) {
        Some(_) => {
            let count = known.given.folders.len();
            Ok(Text::from_string(format!(in alloc; "given {count}\n")?))
        }
        None => Ok(Text::new(alloc)),
    }
}

/// The lines behind the number of the resources at these places.
fn notes_of(
    alloc: Global,
    inputs: &Inputs,
    known: &Known,
    source: &Option<CompiledCatalog>,
    plain: &[u32],
) -> Result<Text, NoMemory>
    ensures { IfOk result (λ notes. notes ≡ notes_of inputs.now known.now source.now plain.now) }
{
    let mut notes = assumed_line(alloc, inputs, known, source, plain)?;
    let given = given_line(alloc, inputs, known)?;
    notes.push(given.as_str())?;
    Ok(notes)
}

/// On what terms the programs of resources are asked about, and the lines behind their number.
pub fn asked_on(
    alloc: Global,
    inputs: &Inputs,
    known: &Known,
    conflicts: Option<u64>,
    made: &Modelled,
) -> Result<Asked, NoMemory>
    ensures { IfOk result (λ asked. asked ≡ asked_on inputs.now known.now conflicts made.now.source made.now.graph.plain) }
{
    let terms = terms_of(alloc, inputs, known, conflicts)?;
    let plain = made.graph.plain.as_slice();
    let notes = notes_of(alloc, inputs, known, &made.source, plain)?;
    Ok(Asked { terms, notes })
}

/// The entry that is wanted, its path read through the given links.
pub fn wanted_in(alloc: Global, inputs: &Inputs, known: &Known) -> Result<Wanted, NoMemory>
    ensures { IfOk result (λ wanted. wanted ≡ wanted_in inputs.now known.now) }
{
    let Wanted { path, content } = inputs.wanted(alloc)?;
    let path = read_path(alloc, known.given.links.as_slice(), &path)?;
    Ok(Wanted { path, content })
}
