//! An answer about the graph with the guard, as one about the graph.

ghost use Rattle.std.specs.Prelude.{IfOk};
ghost use Rattle.given_entry.specs.Answers.{EndInOneOrder, HasOrders, AreEndsOf, IsEnsuredWithout};

use ensured_entry::Ensured;
use given_verdict::{answer_without, run_of, settled_without};
use orders::Order;
use rh_base::NoMemory;
use std::alloc::Global;
use verdict::Ends;

/// Whether the graph succeeds, with its first extension.
fn ends_of(alloc: Global, order: &Order, end: Ends) -> Result<Ends, NoMemory>
    requires { EndInOneOrder end }
    ensures { IfOk result (AreEndsOf order.now end) }
{
    match end {
        Ends::From(witness) => Ok(Ends::From(run_of(alloc, order, &witness)?)),
        Ends::Never(verified) => Ok(Ends::Never(verified)),
    }
}

/// The answer without the guard.
pub(crate) fn ensured_without(
    alloc: Global,
    order: &Order,
    answered: Ensured,
) -> Result<Ensured, NoMemory>
    requires { HasOrders answered }
    ensures { IfOk result (IsEnsuredWithout order.now answered) }
{
    match answered {
        Ensured::First(first) => Ok(Ensured::First(answer_without(alloc, first)?)),
        Ensured::Holds {
            settled,
            proof,
            ends,
        } => {
            let ends = ends_of(alloc, order, ends)?;
            Ok(Ensured::Holds {
                settled: settled_without(settled),
                proof,
                ends,
            })
        }
        Ensured::Fails { settled, witness } => {
            let witness = run_of(alloc, order, &witness)?;
            Ok(Ensured::Fails {
                settled: settled_without(settled),
                witness,
            })
        }
        Ensured::Spent {
            settled,
            asked,
            cnf,
            log,
        } => Ok(Ensured::Spent {
            settled: settled_without(settled),
            asked,
            cnf,
            log,
        }),
    }
}
