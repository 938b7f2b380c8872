//! Which resources are assumed.

ghost use Rattle.std.specs.Prelude.{◌≡◌, map, option_map, IfOk};
ghost use Rattle.compiled_models.specs.Assumed.{gives_program, is_assumed_at, count_assumed};
ghost use Rattle.compiled_models.specs.Hosts.{ArePlaced};

use crate::premises::{Premises, assumed_at};
use assumed_text::{Assumed, Assumptions};
use compiled_text::CompiledCatalog;
use rh_base::{NoMemory, Seq};
use std::alloc::Global;

/// Whether a program comes from what is assumed, if something is.
fn gives_program(assumed: Option<&Assumed>) -> bool
    ensures { result ≡ gives_program (option_map (λ x. x.now) assumed.entry) }
{
    match assumed {
        Some(Assumed::Nothing) | Some(Assumed::Does(_)) => true,
        Some(Assumed::Refused) | None => false,
    }
}

/// Whether the program of the resource at a place comes from an assumption.
fn is_assumed_at(alloc: Global, premises: &Premises<'_>, place: usize) -> Result<bool, NoMemory>
    requires { ArePlaced premises.now }
    ensures { IfOk result (λ b. b ≡ is_assumed_at premises.now.resources.now premises.now.assumptions.now place) }
{
    match premises.resources.get(place) {
        Some(r) => Ok(gives_program(assumed_at(alloc, premises, place, r)?)),
        None => Ok(false),
    }
}

/// For each of these places whether the resource there is assumed: its program comes from an assumption.
pub fn assumed_at_places(
    alloc: Global,
    texts: &CompiledCatalog,
    plain: &[u32],
    assumptions: &Assumptions,
) -> Result<Seq<bool>, NoMemory>
    ensures { IfOk result (λ marks. marks ≡ map (is_assumed_at texts.now.resources assumptions.now) plain.now) }
{
    let premises = Premises::of(alloc, texts.resources(), assumptions)?;
    let mut marks = Seq::new(alloc);
    for place in plain {
        marks.push(is_assumed_at(alloc, &premises, *place as usize)?)?;
    }
    Ok(marks)
}

/// How many of the resources at these places are assumed.
pub fn count_assumed(
    alloc: Global,
    texts: &CompiledCatalog,
    plain: &[u32],
    assumptions: &Assumptions,
) -> Result<usize, NoMemory>
    ensures { IfOk result (λ n. n ≡ count_assumed texts.now.resources assumptions.now plain.now) }
{
    let premises = Premises::of(alloc, texts.resources(), assumptions)?;
    let mut count = 0;
    for place in plain {
        if is_assumed_at(alloc, &premises, *place as usize)? {
            count += 1;
        }
    }
    Ok(count)
}
