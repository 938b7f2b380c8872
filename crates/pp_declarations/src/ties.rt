//! Ties between the sides of a chain.

ghost use Rattle.std.specs.Prelude.{◌≡◌, IfOk, OnOk};
ghost use Rattle.catalog_semantics.specs.States.{tied};
ghost use Rattle.catalog_semantics.specs.Effects.{tie_of, ties_of};

use catalog_semantics::{Side, Tie};
use pp_declaration_state::{State, copy_refs};
use pp_syntax::Arrow;
use rh_base::NoMemory;
use std::alloc::Global;

/// An equal side.
fn copy_side(alloc: Global, side: &Side) -> Result<Side, NoMemory>
    ensures { IfOk result (λ copy. copy ≡ side.now) }
{
    match side {
        Side::Named(refs) => Ok(Side::Named(copy_refs(alloc, refs.as_slice())?)),
        Side::Matched(place) => Ok(Side::Matched(*place)),
    }
}

/// What an arrow between two sides relates: the left side comes first, or the right one.
fn tie_of(alloc: Global, at: u32, left: &Side, arrow: Arrow, right: &Side) -> Result<Tie, NoMemory>
    ensures { IfOk result (λ tie. tie ≡ tie_of at left.now arrow right.now) }
{
    let left = copy_side(alloc, left)?;
    let right = copy_side(alloc, right)?;
    match arrow {
        Arrow::Before | Arrow::Notify => Ok(Tie {
            from: left,
            to: right,
            at,
        }),
        Arrow::After | Arrow::Follow => Ok(Tie {
            from: right,
            to: left,
            at,
        }),
    }
}

/// Adds a tie for each arrow between two neighbours.
#[tactic(auto, using(crate::proofs::TieLaws::none_left, crate::proofs::TieLaws::next_tie))]
pub fn tie_all(
    alloc: Global,
    at: u32,
    sides: &[Side],
    arrows: &[Arrow],
    state: &mut State,
) -> Result<(), NoMemory>
    ensures { OnOk result (state.new ≡ tied (ties_of at sides.now arrows.now) state.old) }
{
    let mut rest = sides;
    for arrow in arrows {
        let Some((left, more)) = rest.split_first() else {
            return Ok(());
        };
        let Some((right, _)) = more.split_first() else {
            return Ok(());
        };
        state.tie(tie_of(alloc, at, left, *arrow, right)?)?;
        rest = more;
    }
    Ok(())
}
