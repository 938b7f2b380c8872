//! Class data: the parameters of classes from levels, each of which applies where some facts have some values.
#![tactic(auto)]

mod data;
mod laws;
mod looking;
mod reading;

pub use data::Data;
pub use laws::{
    facts_decide_what_applies, first_level_counts, found_values_are_proper, others_are_silent,
    text_has_one_data, unmet_facts_keep_a_level_out,
};
pub use reading::data_from_json;
