//! Which programs change nothing that another one looks at, pair by pair: independence as a table. Each pair of programs is
//! compared once, by marks at the numbers of the one, and after that it is looked up.

ghost use Rattle.std.specs.Prelude.{◌≡◌, ◌<◌, map, length, IfOk, OnOk};
ghost use Rattle.std.specs.List.{AllByRecursion};
ghost use Rattle.fs_lang.specs.Meaning.{program_of};
ghost use Rattle.commute_prune.specs.Numbers.{IsNumbering, Extends};
ghost use Rattle.commute_prune.specs.Numbered.{is_clear as is_clear_of, IsBelow, StandsFor, AreOf};
ghost use Rattle.commute_prune.specs.Matrix.{IsMatrix};

use crate::marks::marked;
use crate::numbered::{Numbered, is_clear, number_sets};
use effect_sets::footprint_of;
use fs_lang::{Path, Program};
use rh_base::{NoMemory, Seq};
use std::alloc::Global;
use std::collections::BTreeMap;

fn number_one(
    alloc: Global,
    numbers: &mut BTreeMap<Path, usize>,
    program: &Program,
) -> Result<Numbered, NoMemory>
    requires { IsNumbering numbers.old }
    ensures numbering { OnOk result (IsNumbering numbers.new) }
    ensures extends { OnOk result (Extends numbers.old numbers.new) }
    ensures stands { IfOk result (StandsFor numbers.new (program_of program.now)) }
{
    let sets = footprint_of(alloc, program)?;
    number_sets(alloc, numbers, &sets)
}

/// The footprint of each program by number.
pub(crate) fn number_programs(
    alloc: Global,
    numbers: &mut BTreeMap<Path, usize>,
    programs: &[Program],
) -> Result<Vec<Numbered>, NoMemory>
    requires { IsNumbering numbers.old }
    ensures numbering { OnOk result (IsNumbering numbers.new) }
    ensures long { IfOk result (λ all. length all.items ≡ length programs.now) }
    ensures stand { IfOk result (λ all. AreOf numbers.new (map program_of programs.now) all.items) }
{
    let mut all = Vec::new(alloc);
    for program in programs {
        let sets = number_one(alloc, numbers, program)?;
        all.push(sets)?;
    }
    Ok(all)
}

/// Whether what this one changes is clear of each of these.
fn clear_row(
    alloc: Global,
    count: usize,
    f: &Numbered,
    all: &[Numbered],
) -> Result<Seq<bool>, NoMemory>
    requires { IsBelow count f.now }
    ensures { IfOk result (λ row. row ≡ map (is_clear_of f.now) all.now) }
{
    let writes = marked(alloc, count, &f.writes)?;
    let folders = marked(alloc, count, &f.folders)?;
    let parents = marked(alloc, count, &f.parents)?;
    let mut row = Seq::new(alloc);
    for g in all {
        row.push(is_clear(&writes, &folders, &parents, g))?;
    }
    Ok(row)
}

/// For each two whether what the first changes is clear of what the second looks at.
pub(crate) fn clear_rows(
    alloc: Global,
    count: usize,
    all: &[Numbered],
) -> Result<Seq<Seq<bool>>, NoMemory>
    requires { AllByRecursion (IsBelow count) all.now }
    ensures { IfOk result (λ rows. rows ≡ map (λ f. map (is_clear_of f) all.now) all.now) }
{
    let mut rows = Seq::new(alloc);
    for f in all {
        let row = clear_row(alloc, count, f, all)?;
        rows.push(row)?;
    }
    Ok(rows)
}

/// For each pair of programs whether what the first changes is clear of what the second looks at. The paths of all are
/// numbered once, and each pair is compared once.
pub(crate) fn clear_pairs(alloc: Global, programs: &[Program]) -> Result<Seq<Seq<bool>>, NoMemory>
    ensures { IfOk result (IsMatrix (map program_of programs.now)) }
{
    let mut numbers = BTreeMap::new(alloc);
    let all = number_programs(alloc, &mut numbers, programs)?;
    clear_rows(alloc, numbers.len(), &all)
}
