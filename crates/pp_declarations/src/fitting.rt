//! Whether there is room for the body of one more class, with its deepest block.
//!
//! The bodies of classes that run within one another go down the stack, and so do the blocks that are open in them; 64 bodies
//! with 63 blocks in each took more than a usual stack has. So what may still be open is one word, `Room`, in the definitions
//! and in the code: bodies, and bodies and blocks together. A class is declared only where its body fits with its deepest
//! block, counted on its tree, so that no block ever has to be refused. What stands at the top, in a node's block or in the
//! body of a defined resource is within no body; its own blocks count, and are few, since brackets nest at most 64 deep.

ghost use Rattle.std.specs.Prelude.{◌≡◌};
ghost use Rattle.catalog_semantics.specs.Rooms.{depth, block_depth, has_room_for};
ghost use Rattle.pp_declarations.specs.Depth.{fits, arms_depth, options_depth};

use catalog_semantics::Room;
use pp_syntax::{Arm, CaseArm, Stmt};

/// Whether one more body may run, and be open with its deepest block.
#[tactic(auto, using(crate::proofs::FittingLaws::no_bodies_left, crate::proofs::FittingLaws::none_left, crate::proofs::FittingLaws::some_left))]
pub fn has_room_for(room: Room, body: &[Stmt]) -> bool
    ensures { result ≡ has_room_for room body.now }
{
    if room.bodies == 0 {
        return false;
    }
    if room.levels == 0 {
        return false;
    }
    block_fits(body, room.levels - 1)
}

/// Whether at most so many blocks stand within one another in some statements.
#[cycle(fitting)]
#[tactic(auto, using(crate::proofs::FittingLaws::next_fits, crate::proofs::FittingLaws::next_deep))]
fn block_fits(body: &[Stmt], limit: u32) -> bool
    ensures { result ≡ fits limit (block_depth body.now) }
{
    for s in body {
        if !statement_fits(s, limit) {
            return false;
        }
    }
    true
}

/// So in the blocks of the arms of a condition.
#[cycle(fitting)]
#[tactic(auto, using(crate::proofs::FittingLaws::arm_fits, crate::proofs::FittingLaws::arm_deep))]
fn arms_fit(arms: &[Arm], limit: u32) -> bool
    ensures { result ≡ fits limit (arms_depth arms.now) }
{
    for a in arms {
        if !block_fits(a.body.as_slice(), limit) {
            return false;
        }
    }
    true
}

/// So in the blocks of the arms of a `case`.
#[cycle(fitting)]
#[tactic(auto, using(crate::proofs::FittingLaws::option_fits, crate::proofs::FittingLaws::option_deep))]
fn options_fit(arms: &[CaseArm], limit: u32) -> bool
    ensures { result ≡ fits limit (options_depth arms.now) }
{
    for a in arms {
        if !block_fits(a.body.as_slice(), limit) {
            return false;
        }
    }
    true
}

/// So in a statement.
#[cycle(fitting)]
#[tactic(auto, using(crate::proofs::FittingLaws::chain_fits, crate::proofs::FittingLaws::assign_fits, crate::proofs::FittingLaws::call_fits, crate::proofs::FittingLaws::if_none, crate::proofs::FittingLaws::if_some, crate::proofs::FittingLaws::unless_none, crate::proofs::FittingLaws::unless_some, crate::proofs::FittingLaws::case_none, crate::proofs::FittingLaws::case_some))]
fn statement_fits(s: &Stmt, limit: u32) -> bool
    ensures { result ≡ fits limit (depth s.now) }
{
    match s {
        Stmt::Chain {
            at: _,
            sides: _,
            arrows: _,
        } => true,
        Stmt::Assign {
            at: _,
            name: _,
            value: _,
        } => true,
        Stmt::Call {
            at: _,
            func: _,
            args: _,
        } => true,
        Stmt::If { at: _, arms, other } => {
            if limit == 0 {
                return false;
            }
            let first = arms_fit(arms.as_slice(), limit - 1);
            let last = block_fits(other.as_slice(), limit - 1);
            first && last
        }
        Stmt::Unless {
            at: _,
            test: _,
            body,
            other,
        } => {
            if limit == 0 {
                return false;
            }
            let first = block_fits(body.as_slice(), limit - 1);
            let last = block_fits(other.as_slice(), limit - 1);
            first && last
        }
        Stmt::Case {
            at: _,
            value: _,
            arms,
        } => {
            if limit == 0 {
                return false;
            }
            options_fit(arms.as_slice(), limit - 1)
        }
    }
}
