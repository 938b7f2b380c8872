//! The tables, by what they are of.

mod answers;
mod attributes;
mod found;
mod fragments;
mod hosts;
mod refusals;
mod resources;
mod told;
