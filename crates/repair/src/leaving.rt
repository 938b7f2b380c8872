//! Leaving out the arrows that aren't needed: a deletion filter (Chinneck and Dravnieks 1991), from the last but one on.
//!
//! The last arrow that was added isn't tried again, since the graph without it was judged when it was added; so one missing
//! arrow takes two questions, and each further one two more. A budget that is spent meanwhile ends the repair, with the arrows
//! that were asked about: whether the one that was tried is needed isn't known then.

ghost use Rattle.std.specs.Prelude.{◌≡◌, ◌≤◌, ◌++◌, ◌∷◌, IfOk, OnOk};
ghost use Rattle.fs_semantics.specs.Orders.{IsDeterministic};
ghost use Rattle.orders.specs.Relation.{comes};
ghost use Rattle.plans.specs.Plans.{meant_by};
ghost use Rattle.commute_prune.specs.Pairs.{pairs_of};
ghost use Rattle.repair.specs.Arrows.{ComesWith};
ghost use Rattle.repair.specs.Steps.{WereMissing};
ghost use Rattle.repair.specs.Answers.{IsRepaired};

use crate::missing::{Look, look_at};
use crate::repaired::Repaired;
use crate::with::with_arrows;
use plans::Plan;
use rh_base::{NoMemory, Seq};
use std::alloc::Global;

fn push_all(list: &mut Seq<(u32, u32)>, more: &[(u32, u32)]) -> Result<(), NoMemory>
    ensures { OnOk result (list.new ≡ list.old ++ more.now) }
{
    for arrow in more {
        list.push(*arrow)?;
    }
    Ok(())
}

/// Both lists, one behind the other.
fn joined(
    alloc: Global,
    front: &[(u32, u32)],
    back: &[(u32, u32)],
) -> Result<Seq<(u32, u32)>, NoMemory>
    ensures { IfOk result (λ list. list ≡ front.now ++ back.now) }
{
    let mut list = Seq::new(alloc);
    push_all(&mut list, front)?;
    push_all(&mut list, back)?;
    Ok(list)
}

/// Tries to leave out each arrow in turn, the last one first, of which it is known that it is needed. An arrow without which the
/// graph is deterministic is left out for good.
pub(crate) fn leave_out(
    alloc: Global,
    plan: &Plan<'_>,
    pairs: &[(u32, u32)],
    arrows: &[(u32, u32)],
    budget: u64,
) -> Result<Repaired, NoMemory>
    requires pairs { pairs.now ≡ pairs_of (comes plan.now.order.now) plan.now.order.now.count plan.now.order.now.count }
    requires budget { 1 ≤ budget }
    requires missing { WereMissing (meant_by plan.now) plan.now.order.now arrows.now }
    requires deterministic { IsDeterministic (meant_by plan.now) (ComesWith plan.now.order.now arrows.now) }
    ensures { IfOk result (IsRepaired (meant_by plan.now) plan.now.order.now budget) }
{
    plan.order.count();
    let Some((last, earlier)) = arrows.split_last() else {
        return Ok(Repaired::Done {
            added: Seq::new(alloc),
        });
    };
    let mut needed = joined(alloc, &[*last], &[])?;
    let mut rest = earlier;
    while let Some((arrow, others)) = rest.split_last() {
        let without = joined(alloc, others, needed.as_slice())?;
        let made = with_arrows(alloc, plan.order, pairs, without.as_slice())?;
        let with = Plan {
            programs: plan.programs,
            order: &made,
        };
        match look_at(alloc, &with, budget)? {
            Look::Sure => {}
            Look::Missing(_) => needed = joined(alloc, &[*arrow], needed.as_slice())?,
            Look::Spent(cnf, log) => {
                return Ok(Repaired::Spent {
                    added: without,
                    cnf,
                    log,
                });
            }
        }
        rest = others;
    }
    Ok(Repaired::Done { added: needed })
}
