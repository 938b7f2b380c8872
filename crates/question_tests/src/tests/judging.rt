//! Answers to the question of order.

use super::programs::{all_again, one_in_turn, ordered, plan_of, unordered};
use determinism::{First, Sure, judge_order};
use fs_lang::Program;
use orders::Order;
use rh_base::{Boxed, Fault, NoMemory};
use std::alloc::Global;
use std::test::Fail;
use test_programs::programs;
use test_rows::{joined, numbered, same};

/// A refusal, as `70 weight`.
pub fn refused(alloc: Global, fault: &Fault) -> Result<String, NoMemory> {
    match fault {
        Fault::Refused(refusal) => {
            let name = refusal.name.as_str();
            Ok(format!(in alloc; "{} {name}", refusal.number)?)
        }
        Fault::Memory(_) => joined(alloc, &["memory"]),
    }
}

/// An answer ahead of how many pairs were pruned.
fn front_of(first: &First) -> &'static str {
    match first {
        First::Sure {
            sure: Sure::Pruned,
            ..
        } => "sure, ",
        First::Sure {
            sure: Sure::Proved(_),
            ..
        } => "proved, ",
        First::Differs { .. } => "differs, ",
        First::Spent { .. } => "spent, ",
    }
}

fn pruned_of(first: &First) -> u32 {
    match first {
        First::Sure { pruned, .. } => *pruned,
        First::Differs { pruned, .. } => *pruned,
        First::Spent { pruned, .. } => *pruned,
    }
}

/// What is answered of programs in this order.
fn told_by(alloc: Global, programs: &[Program], order: &Order) -> Result<String, Fail> {
    let plan = plan_of(programs, order)?;
    let answer = Boxed::new(alloc, judge_order(alloc, &plan, u64::MAX)?)?;
    let first = answer.get();
    Ok(numbered(alloc, front_of(first), pruned_of(first) as u64, " pruned")?)
}

/// What is answered of programs without an order between them.
pub fn told(alloc: Global, programs: &[Program]) -> Result<String, Fail> {
    let order = unordered(alloc, programs)?;
    told_by(alloc, programs, &order)
}

fn told_in(alloc: Global, programs: &[Program], edges: &[(u32, u32)]) -> Result<String, Fail> {
    let order = ordered(alloc, programs, edges)?;
    told_by(alloc, programs, &order)
}

/// What is answered of programs in words, in the order that edges make.
pub fn told_of(alloc: Global, words: &str, edges: &[(u32, u32)]) -> Result<String, Fail> {
    let all = programs(alloc, words)?;
    told_in(alloc, all.as_slice(), edges)
}

fn is_told(alloc: Global, row: &str, programs: &[Program], want: &str) -> Result<(), Fail> {
    let answer = told(alloc, programs)?;
    same(alloc, row, answer.as_str(), want)
}

#[test]
fn paths_of_the_domain(rt: HostRuntime) -> Result<(), Fail> {
    let all = one_in_turn(rt.alloc(), 4_096)?;
    is_told(rt.alloc(), "4096 folders", all.as_slice(), "sure, 1 pruned")
}

#[test]
fn weights_of_programs(rt: HostRuntime) -> Result<(), Fail> {
    let all = all_again(rt.alloc(), 100, 35)?;
    is_told(
        rt.alloc(),
        "100 programs",
        all.as_slice(),
        "sure, 100 pruned",
    )
}
