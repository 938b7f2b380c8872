//! What is asked about: programs, each of which is a node of an order. That they belong together is said once, here, and not by
//! each function that is lent them.

ghost use Rattle.std.specs.Prelude.{◌≡◌, length};

use fs_lang::Program;
use orders::Order;

/// Programs, and which of them come before which.
#[derive(Clone, Copy, Drop)]
pub struct Plan<'a> {
    pub programs: &'a [Program],
    pub order: &'a Order,
    /// Each program is a node of the order.
    pub ghost count: { length programs.now ≡ order.now.count },
}
