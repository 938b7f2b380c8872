//! How large formulas are.

use super::programs::{push_folder, unordered};
use fs_lang::{PathFault, Program};
use order_encode::ask_order;
use orders::Order;
use path_domain::domain;
use rh_base::Seq;
use std::alloc::Global;
use std::test::Fail;
use test_rows::{numbered, same};

/// How many variables the question of order of these programs has.
fn variables_of(alloc: Global, programs: &[Program], order: &Order) -> Result<u64, Fail> {
    if order.count() as usize != programs.len() {
        return Err(Fail::from("as many nodes as programs"));
    }
    let d = domain(alloc, programs)?;
    let question = ask_order(alloc, programs, order, &d)?;
    Ok(question.cnf().vars())
}

/// How many it has without an order between the programs.
fn variables_without(alloc: Global, programs: &[Program]) -> Result<u64, Fail> {
    let order = unordered(alloc, programs)?;
    variables_of(alloc, programs, &order)
}

/// The programs that make the folders of the numbers below this one.
fn all_folders(alloc: Global, count: u32) -> Result<Seq<Program>, PathFault> {
    let mut all = Seq::new(alloc);
    for i in 0..count {
        push_folder(alloc, i, &mut all)?;
    }
    Ok(all)
}

fn size_of(count: u64) -> &'static str {
    if count >= 10_000_000 {
        "too many"
    } else if count <= 1_000 {
        "too few"
    } else {
        "some"
    }
}

fn are_some(alloc: Global, count: u64) -> Result<(), Fail> {
    let row = numbered(alloc, "", count, " variables")?;
    same(alloc, row.as_str(), size_of(count), "some")
}

#[test]
fn sixteen_programs(rt: HostRuntime) -> Result<(), Fail> {
    let all = all_folders(rt.alloc(), 16)?;
    are_some(rt.alloc(), variables_without(rt.alloc(), all.as_slice())?)
}
