//! What a report is about: a plan whose programs have names.

ghost use Rattle.std.specs.Prelude.{◌≡◌, length};

use plans::Plan;
use rh_base::Text;

/// A plan whose programs are told by the names of their resources. The notes stand behind the number of resources.
#[derive(Clone, Copy, Drop)]
pub struct NamedPlan<'a> {
    pub plan: &'a Plan<'a>,
    pub names: &'a [Text],
    pub notes: &'a [u8],
    /// Each program has a name.
    pub ghost named: { length names.now ≡ plan.now.order.now.count },
}
