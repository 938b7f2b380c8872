//! The values of expressions, and the operations on them.
#![tactic(auto)]

mod compare;
mod fault;
mod hashes;
mod keyed;
mod laws;
mod numbers;
mod operations;
mod places;
mod shared;
mod showing;
mod sizes;
mod texts;
mod types;
mod value;

pub use compare::{equal, has_opaque, less, same, within};
pub use fault::{Misfit, ValueFault};
pub use keyed::Keyed;
pub use laws::{
    distinct_pairs_are_kept, equality_is_symmetric, members_are_proper, members_stay_within,
    pairs_stay_proper, parts_stand_within, right_values_win, sums_are_proper, text_shows_itself,
    wholes_are_proper,
};
pub use numbers::{multiply, negate, subtract};
pub use operations::{add, member};
pub use shared::Shared;
pub use showing::{show, shown_ref};
pub use sizes::{exceeds_limits, size};
pub use texts::same_text;
pub use types::fits;
pub use value::{Pairs, Ref, Value, copy_pairs};
