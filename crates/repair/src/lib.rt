//! Arrows that make a graph of programs deterministic, none of which can be left out.
//!
//! Counterexamples guide it, as in inductive synthesis (Solar-Lezama and others 2006): each one gives an arrow, until there is
//! none any more. Then arrows are taken away again. What is left is irredundant; that it is the smallest isn't said.
//!
//! Where a graph isn't deterministic, two allowed runs differ by one exchange of free neighbours and end differently from some
//! tree; so at least one of them ends in a tree. The arrow that this one follows is added, and the graph is judged again. Each
//! arrow is between two resources that were free till then, so this comes to an end; and the run is allowed with all arrows so
//! far and follows the new one, so they lead in no circle.
//!
//! When the last arrow was added, one of the two runs ended in a tree and is allowed with all arrows, and the other, which
//! didn't end in the same tree, is allowed without them. Fewer arrows allow more runs, so the first is allowed still when some
//! are left out.
//!
//! Each arrow is left out for good without which the graph is deterministic. The last one that was added isn't tried, since
//! without it the graph was judged before. One that stays was needed beside at least the arrows that are there in the end.
//! Fewer arrows allow more runs, and a graph that isn't deterministic doesn't become so by more runs: it is needed still.
#![tactic(auto)]

mod adding;
mod laws;
mod leaving;
mod missing;
mod repaired;
mod repairing;
mod with;

pub use laws::arrows;
pub use repaired::Repaired;
pub use repairing::repair;
