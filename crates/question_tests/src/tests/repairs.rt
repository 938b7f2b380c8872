//! Arrows that are missing between programs, each row with those that are answered.

use super::asked::everywhere;
use super::judging::refused;
use super::programs::{all_again, ordered, plan_of, unordered};
use fs_lang::Program;
use given_repair::repair_from;
use orders::Order;
use repair::{Repaired, arrows};
use rh_base::{Boxed, Fault, NoMemory};
use std::alloc::Global;
use std::test::Fail;
use test_programs::programs;
use test_rows::same;

fn arrow_text(alloc: Global, from: u32, to: u32) -> Result<String, NoMemory> {
    Ok(format!(in alloc; " {from}>{to}")?)
}

fn push_arrow(alloc: Global, arrow: &(u32, u32), into: &mut String) -> Result<(), NoMemory> {
    let text = arrow_text(alloc, arrow.0, arrow.1)?;
    into.push_str(text.as_str())?;
    Ok(())
}

/// A word, and arrows behind it, each behind a blank, as `0>1`.
fn listed(alloc: Global, word: &str, arrows: &[(u32, u32)]) -> Result<String, NoMemory> {
    let mut text = String::from_str(alloc, word)?;
    for arrow in arrows {
        push_arrow(alloc, arrow, &mut text)?;
    }
    Ok(text)
}

/// The same, in the order of their numbers.
fn listed_after(alloc: Global, word: &str, added: &[(u32, u32)]) -> Result<String, NoMemory> {
    let mut sorted = Vec::from_slice(alloc, added)?;
    sorted.sort()?;
    listed(alloc, word, &sorted)
}

fn shown(alloc: Global, repaired: &Result<Repaired, Fault>) -> Result<String, NoMemory> {
    match repaired {
        Ok(Repaired::Done { added }) => listed_after(alloc, "done", added.as_slice()),
        Ok(Repaired::Spent { added, .. }) => listed_after(alloc, "spent", added.as_slice()),
        Err(fault) => refused(alloc, fault),
    }
}

/// What is answered of programs in this order.
fn told_by(alloc: Global, programs: &[Program], order: &Order) -> Result<String, Fail> {
    arrows();
    let plan = plan_of(programs, order)?;
    let terms = everywhere(alloc, u64::MAX);
    let answer = Boxed::new(alloc, repair_from(alloc, &plan, &terms))?;
    Ok(shown(alloc, answer.get())?)
}

/// The same of programs without an order between them.
fn told(alloc: Global, programs: &[Program]) -> Result<String, Fail> {
    let order = unordered(alloc, programs)?;
    told_by(alloc, programs, &order)
}

/// The same, in words.
fn told_of(alloc: Global, words: &str) -> Result<String, Fail> {
    let all = programs(alloc, words)?;
    told(alloc, all.as_slice())
}

fn is_told(alloc: Global, words: &str, want: &str) -> Result<(), Fail> {
    let answer = told_of(alloc, words)?;
    same(alloc, words, answer.as_str(), want)
}

/// Each row: programs, and the arrows that are answered.
fn are_told(alloc: Global, rows: &[(&str, &str)]) -> Result<(), Fail> {
    for (words, want) in rows {
        is_told(alloc, *words, *want)?;
    }
    Ok(())
}

#[test]
fn missing_arrows(rt: HostRuntime) -> Result<(), Fail> {
    are_told(
        rt.alloc(),
        &[
            // no program, and one
            ("", "done"),
            ("put /a x", "done"),
            // a graph that is deterministic
            ("put /a x | put /b y", "done"),
            // one that fails from every tree, whatever the order
            ("err | put /etc/a x | dir /etc", "done"),
            ("mkdir /a | mkdir /a", "done"),
            // a package and its configuration, declared in either order
            (
                "dir /etc; if none? /etc/a: creat /etc/a pkg, id | put /etc/a x",
                "done 0>1",
            ),
            (
                "put /etc/a x | dir /etc; if none? /etc/a: creat /etc/a pkg, id",
                "done 1>0",
            ),
            // and a service that needs a file of the package
            (
                "if file? /etc/a: id, err | dir /etc; if none? /etc/a: creat /etc/a pkg, id",
                "done 1>0",
            ),
            // two packages and their files
            ("dir /a | put /a/x 1 | put /b/x 2 | dir /b", "done 0>1 3>2"),
            // a folder in a folder, and a file in that
            ("put /a/b/c x | dir /a/b | dir /a", "done 1>0 2>1"),
        ],
    )
}

/// One arrow is answered, in either direction.
fn is_either(alloc: Global, words: &str) -> Result<(), Fail> {
    let answer = told_of(alloc, words)?;
    if answer.as_str() == "done 1>0" {
        return Ok(());
    }
    same(alloc, words, answer.as_str(), "done 0>1")
}

#[test]
fn either_arrow(rt: HostRuntime) -> Result<(), Fail> {
    is_either(rt.alloc(), "put /a x | put /a y")
}

fn told_in(alloc: Global, programs: &[Program], edges: &[(u32, u32)]) -> Result<String, Fail> {
    let order = ordered(alloc, programs, edges)?;
    told_by(alloc, programs, &order)
}

/// What is answered of a folder and two files in it, in the order that edges make.
fn told_of_three(alloc: Global, edges: &[(u32, u32)]) -> Result<String, Fail> {
    let all = programs(alloc, "dir /etc | put /etc/a x | put /etc/b y")?;
    told_in(alloc, all.as_slice(), edges)
}

/// Each row: how the three are ordered, edges between them, and the arrows that are answered.
fn are_told_of_three(alloc: Global, rows: &[(&str, &[(u32, u32)], &str)]) -> Result<(), Fail> {
    for (row, edges, want) in rows {
        let answer = told_of_three(alloc, *edges)?;
        same(alloc, *row, answer.as_str(), *want)?;
    }
    Ok(())
}

#[test]
fn arrows_that_are_there(rt: HostRuntime) -> Result<(), Fail> {
    are_told_of_three(
        rt.alloc(),
        &[
            ("the folder ahead of a file", &[(0, 1)], "done 0>2"),
            ("a file ahead of the other", &[(1, 2)], "done 0>1"),
            ("the folder ahead of both", &[(0, 1), (0, 2)], "done"),
        ],
    )
}

fn is_repaired(alloc: Global, row: &str, programs: &[Program], want: &str) -> Result<(), Fail> {
    let answer = told(alloc, programs)?;
    same(alloc, row, answer.as_str(), want)
}

#[test]
fn too_heavy(rt: HostRuntime) -> Result<(), Fail> {
    let all = all_again(rt.alloc(), 3, 38_889)?;
    is_repaired(rt.alloc(), "3 programs", all.as_slice(), "70 weight")
}
