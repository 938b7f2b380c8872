//! Texts, lists, refusals, and what the program reads from and writes to.
#![tactic(auto)]

mod boxed;
mod fault;
pub mod limits;
mod memory;
mod misread;
mod outside;
mod seq;
mod shelf;
mod sink;
mod text;

pub use boxed::Boxed;
pub use fault::{Fault, Refusal};
pub use memory::{MemoryShelf, MemorySink, SureShelf, SureSink};
pub use misread::Misread;
pub use outside::{FileShelf, StdSink};
pub use seq::Seq;
pub use shelf::{Fetched, Shelf, ShelfFault};
pub use sink::{Sink, SinkFault};
pub use text::{NoMemory, Text};
