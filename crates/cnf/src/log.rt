//! Logs: proofs by resolution, as solvers by clause learning write them, close to TraceCheck's format. A step has a clause and how it
//! is derived: an earlier clause to begin with, and a chain of links, each of which resolves with one clause more. A link names its
//! pivot besides, so a checker neither searches nor propagates, as it would for RUP or DRAT; and no clause is deleted. Clauses are
//! numbered from 1, the formula's first; the number of a step is told by its place.

use crate::clause::Clause;
use crate::lit::Lit;
use rh_base::Seq;

/// One resolution: the number of the clause that is named, and the pivot, which the resolvent of the links before has.
#[derive(Clone, Copy, Debug)]
pub struct Link {
    pub number: u64,
    pub pivot: Lit,
}

/// A clause, and the chain of resolutions that gives it.
#[derive(Debug, Drop)]
pub struct Step {
    pub clause: Clause,
    pub start: u64,
    pub chain: Seq<Link>,
}

/// The steps of a proof. They are numbered behind the clauses of the formula.
#[derive(Debug, Drop)]
pub struct Log {
    pub steps: Seq<Step>,
}
