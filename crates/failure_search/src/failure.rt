//! What is found.

use fs_lang::{Program, Test};

/// Why a construct gives Error. `Needs` is of an `err` in the second branch of a choice, whose test would have had to hold,
/// `NeedsNot` of one in the first branch, and `Always` of one that stands in no branch.
#[derive(Clone, Copy)]
pub enum Reason<'a> {
    Exists,
    NoFolder,
    NoFile,
    NothingThere,
    NotEmpty,
    TheRoot,
    Needs(&'a Test),
    NeedsNot(&'a Test),
    Always,
}

/// A construct that gave Error, and why.
#[derive(Clone, Copy)]
pub struct Failure<'a> {
    pub construct: &'a Program,
    pub reason: Reason<'a>,
}

/// The number of the program at which an order ends in Error, with its failure.
#[derive(Clone, Copy)]
pub struct Failed<'a> {
    pub resource: u32,
    pub failure: Failure<'a>,
}
