//! The domain of programs.

ghost use Rattle.std.specs.Prelude.{◌≡◌, ◌↔◌, ◌||◌, ◌++◌, ℕ, map, IsTrue, IfOk, OnOk};
ghost use Rattle.fs_semantics.specs.FileTree.{Path as Segments, is_among};
ghost use Rattle.fs_lang.specs.Meaning.{program_of, programs_in};
ghost use Rattle.fs_interpreter.specs.Places.{CoversSteps};
ghost use Rattle.finite_domain.specs.Domains.{IsNamed, IsDomain};
ghost use Rattle.finite_domain.specs.Matters.{all_matters, all_fronts, has_segment};
ghost use Rattle.finite_domain.specs.Layouts.{numbered, other_segment, stem, IsFirstFailure, domain_of, IsLayout};
ghost use Rattle.path_domain.specs.Gathered.{members, gathered_of, gather, nothing};
ghost use Rattle.path_domain.specs.Laid.{Starts, layout_of};

use crate::found::{Found, nothing};
use crate::fresh::{add_all, children};
use crate::fronts::with_fronts;
use crate::listed::Domain;
use crate::places::{lay, places_of};
use crate::segments::{fresh_segment, segments_of};
use crate::stems::{add_numbered, start_of, stem};
use crate::walk::walk_all;
use finite_domain::domains;
use fs_interpreter::Table;
use fs_lang::{Path, Program};
use rh_base::{NoMemory, Text};
use std::alloc::Global;
use std::collections::BTreeSet;

/// What the programs mention.
fn found_in(alloc: Global, programs: &[Program]) -> Result<Found, NoMemory>
    ensures { IfOk result (λ found. gathered_of found ≡ gather (all_matters (map program_of programs.now)) nothing) }
{
    let mut found = nothing(alloc)?;
    walk_all(alloc, programs, &mut found)?;
    Ok(found)
}

/// The paths of the programs and those above them, the root aside.
pub fn named(alloc: Global, programs: &[Program]) -> Result<BTreeSet<Path>, NoMemory>
    ensures { IfOk result (λ set. (q : Segments) → IsTrue (is_among q set.keys) ↔ IsNamed (map program_of programs.now) q) }
{
    let found = found_in(alloc, programs)?;
    let set = with_fronts(alloc, &found.paths)?;
    Ok(set)
}

/// The segment of the fresh children.
fn name_for(alloc: Global, paths: &BTreeSet<Path>) -> Result<Text, NoMemory>
    ensures { IfOk result (λ name. (n : ℕ) × (name ≡ other_segment n)
        × IsFirstFailure (λ k. IsTrue (has_segment (other_segment k) paths.now.keys)) n) }
{
    let segments = segments_of(alloc, paths)?;
    fresh_segment(alloc, &segments)
}

/// The paths with those above them, and the fresh children.
fn all_paths(
    alloc: Global,
    paths: &BTreeSet<Path>,
    fresh: &BTreeSet<Path>,
) -> Result<BTreeSet<Path>, NoMemory>
    ensures { IfOk result (λ all. (q : Segments) → members all q ≡ (members fresh.now q || is_among q (all_fronts paths.now.keys))) }
{
    let mut all = with_fronts(alloc, paths)?;
    add_all(alloc, fresh, &mut all)?;
    Ok(all)
}

/// Adds one text for each path of the table, all with a beginning that no content has.
fn add_fresh_texts(alloc: Global, table: &mut Table) -> Result<(), NoMemory>
    ensures paths { OnOk result (table.new.paths ≡ table.old.paths) }
    ensures contents { OnOk result ((n : ℕ) × Starts n table.old.contents
        × (table.new.contents ≡ table.old.contents ++ numbered (stem n) 0 table.old.paths)) }
{
    let n = start_of(table);
    let start = stem(alloc, n)?;
    add_numbered(alloc, &start, table)
}

/// The finite domain of these programs: their paths and those above them, fresh children, and contents.
pub fn domain(alloc: Global, programs: &[Program]) -> Result<Domain, NoMemory>
    ensures layout { IfOk result (λ d. IsLayout (map program_of programs.now) (layout_of d)) }
    ensures covers { IfOk result (λ d. CoversSteps d.table (programs_in programs.now)) }
    ensures domain { IfOk result (λ d. IsDomain (map program_of programs.now) (domain_of (layout_of d))) }
{
    domains();
    let found = found_in(alloc, programs)?;
    let Found {
        paths,
        watched,
        mut table,
    } = found;
    let name = name_for(alloc, &paths)?;
    let fresh = children(alloc, &watched, &name)?;
    let all = all_paths(alloc, &paths, &fresh)?;
    lay(alloc, &all, &mut table)?;
    let places = places_of(alloc, &table, &fresh)?;
    add_fresh_texts(alloc, &mut table)?;
    Ok(Domain {
        table,
        fresh: places,
    })
}
