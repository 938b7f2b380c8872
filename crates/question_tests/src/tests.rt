//! The tables, by what they are of.

mod asked;
mod ensured;
mod equal;
mod formulas;
mod given;
mod judging;
mod pairs;
mod programs;
mod repairs;
mod tries;
mod verdicts;
mod workloads;
