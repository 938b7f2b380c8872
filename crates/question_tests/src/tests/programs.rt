//! Programs that make folders, and orders of programs.

ghost use Rattle.std.specs.Prelude.{◌≡◌, IfOk, length};

use fs_lang::{PathFault, Program};
use orders::Order;
use plans::Plan;
use rh_base::Seq;
use std::alloc::Global;
use std::test::Fail;
use test_programs::program;
use test_rows::numbered;

/// Makes the folder of this number, as /d1.
fn folder(alloc: Global, i: u32) -> Result<Program, PathFault> {
    let words = numbered(alloc, "mkdir /d", i as u64, "")?;
    program(alloc, words.as_str())
}

/// Appends the program that makes the folder of this number.
pub fn push_folder(alloc: Global, i: u32, into: &mut Seq<Program>) -> Result<(), PathFault> {
    into.push(folder(alloc, i)?)?;
    Ok(())
}

/// Makes the folders of so many numbers, one after another.
fn in_turn(alloc: Global, count: u32) -> Result<Program, PathFault> {
    let mut steps = Seq::new(alloc);
    for i in 0..count {
        push_folder(alloc, i + 1, &mut steps)?;
    }
    Ok(Program::Steps(steps))
}

/// One program, which makes the folders of so many numbers.
pub fn one_in_turn(alloc: Global, count: u32) -> Result<Seq<Program>, PathFault> {
    let mut all = Seq::new(alloc);
    all.push(in_turn(alloc, count)?)?;
    Ok(all)
}

/// Makes the folder of a number so many times.
fn again(alloc: Global, i: u32, times: u32) -> Result<Program, PathFault> {
    let mut steps = Seq::new(alloc);
    for _turn in 0..times {
        push_folder(alloc, i, &mut steps)?;
    }
    Ok(Program::Steps(steps))
}

fn push_again(alloc: Global, i: u32, times: u32, into: &mut Seq<Program>) -> Result<(), PathFault> {
    into.push(again(alloc, i, times)?)?;
    Ok(())
}

/// So many programs, each of which makes a folder of its own so many times.
pub fn all_again(alloc: Global, n: u32, times: u32) -> Result<Seq<Program>, PathFault> {
    let mut all = Seq::new(alloc);
    for i in 0..n {
        push_again(alloc, i, times, &mut all)?;
    }
    Ok(all)
}

/// No order between these programs.
pub fn unordered(alloc: Global, programs: &[Program]) -> Result<Order, Fail>
    ensures { IfOk result (λ order. order.count ≡ length programs.now) }
{
    let n = u32::try_from(programs.len())?;
    Ok(Order::from_edges(alloc, n, &[])?)
}

/// The order of these programs that edges make.
pub fn ordered(alloc: Global, programs: &[Program], edges: &[(u32, u32)]) -> Result<Order, Fail> {
    let n = u32::try_from(programs.len())?;
    if !edges.iter().all(|e| e.0 < n && e.1 < n) {
        return Err(Fail::from("edges between the programs"));
    }
    Ok(Order::from_edges(alloc, n, edges)?)
}

/// These programs in this order, if it has as many nodes.
pub fn plan_of<'a>(programs: &'a [Program], order: &'a Order) -> Result<Plan<'a>, Fail> {
    if order.count() as usize != programs.len() {
        return Err(Fail::from("as many nodes as programs"));
    }
    Ok(Plan { programs, order })
}
