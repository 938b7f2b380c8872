//! How many paths a domain has.

ghost use Rattle.std.specs.Prelude.{List, map, IfOk};
ghost use Rattle.fs_semantics.specs.Programs.{Program as E};
ghost use Rattle.fs_lang.specs.Meaning.{program_of};
ghost use Rattle.finite_domain.specs.Layouts.{IsLayout};
ghost use Rattle.path_domain.specs.Laid.{layout_of};
ghost use Rattle.size_limits.specs.Paths.{HasPaths};

use fs_lang::Program;
use path_domain::{Domain, domain};
use rh_base::NoMemory;
use std::alloc::Global;

/// How many paths a domain has.
pub fn paths_of(domain: &Domain) -> u64
    ensures { (es : List E) → IsLayout es (layout_of domain.now) → HasPaths es result }
{
    domain.table.path_count()
}

/// How many paths the domain of these programs has.
pub fn path_count(alloc: Global, programs: &[Program]) -> Result<u64, NoMemory>
    ensures { IfOk result (HasPaths (map program_of programs.now)) }
{
    let d = domain(alloc, programs)?;
    Ok(paths_of(&d))
}
