//! The terms on which graphs are asked about.

use host_limits::Limits;
use question_terms::Terms;
use rh_base::Seq;
use std::alloc::Global;

/// Every file tree, the usual limits, and so many conflicts; `u64::MAX` stands for no budget.
pub fn everywhere(alloc: Global, conflicts: u64) -> Terms {
    Terms {
        given: Seq::new(alloc),
        limits: Limits::Usual,
        conflicts: Some(conflicts),
    }
}
