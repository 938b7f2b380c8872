//! Expressions and what they are evaluated in: facts and scopes.
#![tactic(auto)]

mod answers;
mod blame;
mod classes;
mod evaluation;
mod facts;
mod finding;
mod laws;
mod lent;
mod names;
mod operations;
mod references;
mod scope;
mod scopes;
mod start;
mod texts;

pub use answers::{limited, no_result, refusal, too_large};
pub use blame::Blame;
pub use evaluation::{eval, eval_all, is_among};
pub use facts::{facts_from_json, pairs_of_json};
pub use laws::{
    bodies_extend, bound_names_are_found, bound_names_stay, classes_stay, current_scopes_stay,
    equal_look_ups_give_one_evaluation, extensions_join, facts_are_found, inheriting_ends,
    other_names_stay, parents_stand_before, values_stay_proper, values_stay_within,
};
pub use operations::truth_at;
pub use references::{plain_name, ref_of};
pub use scopes::{BindFault, Scopes};
