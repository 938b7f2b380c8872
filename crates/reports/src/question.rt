//! What may be asked about the programs of a manifest's resources.

use verdict_report::Form;

/// What is told of the programs of a manifest's resources.
#[derive(Clone, Copy, Debug, PartialEq, Eq)]
pub enum Question {
    /// The programs themselves.
    Programs,
    /// Their verdict, in this form. Each question has so many conflicts, if a number is given.
    Verdict(Form, Option<u64>),
    /// Their outcome on a file tree.
    Replay,
    /// Whether each run that ends leaves the entry that is wanted. Each question has so many conflicts, if a number is given.
    Ensures(Option<u64>),
    /// Their verdict, explained. Each question has so many conflicts, if a number is given.
    Explain(Option<u64>),
    /// The arrows that they lack. Each question has so many conflicts, if a number is given.
    Repair(Option<u64>),
}
