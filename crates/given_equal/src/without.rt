//! An answer about two graphs with their guards, as one about the graphs.

ghost use Rattle.std.specs.Prelude.{IfOk};
ghost use Rattle.given_equal.specs.Answers.{HasOrders, IsComparedWithout};

use equal_graphs::Compared;
use given_verdict::{answer_without, settled_without};
use rh_base::NoMemory;
use std::alloc::Global;

/// The answer without the guards.
pub(crate) fn compared_without(alloc: Global, answered: Compared) -> Result<Compared, NoMemory>
    requires { HasOrders answered }
    ensures { IfOk result (IsComparedWithout answered) }
{
    match answered {
        Compared::Left(first) => Ok(Compared::Left(answer_without(alloc, first)?)),
        Compared::Right { left, right } => {
            let first = answer_without(alloc, right)?;
            Ok(Compared::Right {
                left: settled_without(left),
                right: first,
            })
        }
        Compared::Equal { left, right, proof } => Ok(Compared::Equal {
            left: settled_without(left),
            right: settled_without(right),
            proof,
        }),
        Compared::Differ { left, right, tree } => Ok(Compared::Differ {
            left: settled_without(left),
            right: settled_without(right),
            tree,
        }),
        Compared::Spent {
            left,
            right,
            cnf,
            log,
        } => Ok(Compared::Spent {
            left: settled_without(left),
            right: settled_without(right),
            cnf,
            log,
        }),
    }
}
