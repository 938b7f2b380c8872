//! Shelves and sinks in memory.

ghost use Rattle.std.specs.Prelude.{◌≡◌};
ghost use Rattle.rh_base.specs.Kept.{is_failing};

mod shelves;
mod sinks;

pub use shelves::{MemoryShelf, SureShelf};
pub use sinks::{MemorySink, SureSink};

/// Whether the call with this number is to fail.
fn is_failing(failing: &[u64], call: u64) -> bool
    ensures { result ≡ is_failing failing.now call }
{
    failing.contains(&call)
}
