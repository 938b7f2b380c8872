//! The questions about the first extension, which stands for all allowed orders once a graph is known to be deterministic.

ghost use Rattle.std.specs.Prelude.{◌≡◌, ◌↔◌, map, length, IfOk};
ghost use Rattle.cnf.specs.Formulas.{IsSatisfiable};
ghost use Rattle.fs_lang.specs.Meaning.{program_of, programs_in};
ghost use Rattle.fs_interpreter.specs.Places.{CoversSteps};
ghost use Rattle.order_encode.specs.Asked.{CanShow};
ghost use Rattle.order_encode.specs.Witnesses.{HasSecondChange, ShowsChange, HasEnd, ShowsEnd};
ghost use Rattle.order_encode.specs.declared.witness.Witness.{Witness};

use crate::again::{goal_of_change, goal_of_end};
use crate::asking::tree_inputs;
use crate::asks::{Asks, Goal};
use crate::plan::Schedule;
use crate::question::{Question, pose};
use fs_interpreter::states;
use fs_lang::Program;
use order_places::allowed_orders;
use orders::Order;
use path_domain::Domain;
use rh_base::NoMemory;
use std::alloc::Global;

/// Whether the first extension ends, from a tree over the domain, in a tree that a second run doesn't leave as it is.
pub fn ask_twice(
    alloc: Global,
    programs: &[Program],
    order: &Order,
    domain: &Domain,
) -> Result<Question, NoMemory>
    requires nodes { length programs.now ≡ order.now.count }
    requires covers { CoversSteps domain.now.table (programs_in programs.now) }
    ensures exact { IfOk result (λ q. IsSatisfiable q.formula ↔ HasSecondChange (map program_of programs.now) order.now domain.now) }
    ensures models { IfOk result (λ q. (w : Witness) → CanShow q w → ShowsChange (map program_of programs.now) order.now domain.now w) }
{
    states();
    allowed_orders();
    let first = order.first_extension()?;
    let (mut sym, cells, well) = tree_inputs(alloc, domain)?;
    let schedule = Schedule {
        domain,
        programs,
        order: first.as_slice(),
    };
    let wire = goal_of_change(alloc, &mut sym, &schedule, &cells, well)?;
    let goal = Goal {
        wire,
        firsts: Vec::new(alloc),
    };
    pose(
        alloc,
        sym,
        cells,
        Asks::Twice { order: first },
        goal,
        domain,
    )
}

/// Whether the first extension ends in a tree from some tree over the domain.
pub fn ask_some(
    alloc: Global,
    programs: &[Program],
    order: &Order,
    domain: &Domain,
) -> Result<Question, NoMemory>
    requires nodes { length programs.now ≡ order.now.count }
    requires covers { CoversSteps domain.now.table (programs_in programs.now) }
    ensures exact { IfOk result (λ q. IsSatisfiable q.formula ↔ HasEnd (map program_of programs.now) order.now domain.now) }
    ensures models { IfOk result (λ q. (w : Witness) → CanShow q w → ShowsEnd (map program_of programs.now) order.now domain.now w) }
{
    states();
    allowed_orders();
    let first = order.first_extension()?;
    let (mut sym, cells, well) = tree_inputs(alloc, domain)?;
    let schedule = Schedule {
        domain,
        programs,
        order: first.as_slice(),
    };
    let wire = goal_of_end(alloc, &mut sym, &schedule, &cells, well)?;
    let goal = Goal {
        wire,
        firsts: Vec::new(alloc),
    };
    pose(alloc, sym, cells, Asks::Ends { order: first }, goal, domain)
}
