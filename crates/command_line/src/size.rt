//! How large a workload is.

ghost use Rattle.std.specs.Prelude.{◌≡◌, ◌≤◌};
ghost use Rattle.command_line.specs.declared.size.TheConstants.{MOST_WORKLOAD};

use std::marker::Model;

/// How large a workload is: a number from 1 to 54.
#[derive(Debug, Drop)]
pub struct Size {
    size: u32,
}

impl Model for Size {
    ghost use Rattle.std.specs.Prelude.{ℕ, ◌≤◌};
    ghost use Rattle.command_line.specs.declared.size.TheConstants.{MOST_WORKLOAD};

    ghost Value = { ℕ };

    ghost view = { λ s. s.size };

    ghost invariant = { λ s. (1 ≤ s.size) × (s.size ≤ MOST_WORKLOAD) };
}

/// The greatest size of a workload.
pub const MOST_WORKLOAD: u64 = 54;

impl Size {
    pub(crate) fn new(size: u64) -> Size
        requires least { 1 ≤ size }
        requires most { size ≤ MOST_WORKLOAD }
        ensures { result ≡ size }
    {
        Size { size: size as u32 }
    }

    /// The number.
    pub fn get(&self) -> u32
        ensures size { result ≡ self.now }
        ensures least { 1 ≤ result }
        ensures most { result ≤ MOST_WORKLOAD }
    {
        self.size
    }
}
