//! The attributes of resources: which states they tell, and which of them are refused.
#![tactic(auto)]

mod accepted;
mod fitting;
mod kinds;
mod states;
mod values;

pub use accepted::is_one_of;
pub use fitting::attributes_fit;
pub use kinds::kind_of;
pub use states::states_of;
pub use values::{begins, is_digit, text_at, truth_of};
