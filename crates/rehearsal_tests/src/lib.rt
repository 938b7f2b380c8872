//! Tests of the whole program: words and files in, what is written and the status out.
#![tactic(auto)]

#[cfg(test)]
mod tests;
