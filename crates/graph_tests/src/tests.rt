//! The tables, by what they are of.

mod automatic;
mod circles;
mod drafts;
mod missing;
mod relations;
mod sizes;
