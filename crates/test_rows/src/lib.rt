//! What the tables of several test crates share: how a refusal is shown, and texts of any size.
#![tactic(auto)]

mod answers;
mod texts;

pub use answers::{
    joined, number_text, numbered, refused, same, same_at, same_number, same_of, text,
};
pub use texts::{PIGEONS, Pieces, boxes, doubled, nested, titles};
