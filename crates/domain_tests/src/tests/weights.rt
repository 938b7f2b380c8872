//! The weight of programs.

use fs_lang::{Path, Program};
use rh_base::Seq;
use size_limits::weight;
use std::alloc::Global;
use std::test::Fail;
use test_programs::programs;
use test_rows::same_number;

/// Each row: programs, and their weight.
fn are_weighed(alloc: Global, rows: &[(&str, u64)]) -> Result<(), Fail> {
    for (words, want) in rows {
        is_weighed(alloc, *words, *want)?;
    }
    Ok(())
}

fn is_weighed(alloc: Global, words: &str, want: u64) -> Result<(), Fail> {
    let all = programs(alloc, words)?;
    same_number(alloc, words, weight(alloc, all.as_slice())?, want)
}

#[test]
fn weights_of_changes(rt: HostRuntime) -> Result<(), Fail> {
    are_weighed(
        rt.alloc(),
        &[
            ("", 0u64),
            ("id", 0),
            ("err", 0),
            ("mkdir /a", 2),
            ("creat /a x", 2),
            ("link /a x", 2),
            ("cp /a /b", 2),
            ("rm /a", 2),
            ("mkdir /a; mkdir /b", 4),
            ("mkdir /a | mkdir /b", 8),
        ],
    )
}

#[test]
fn weights_of_choices_and_removals(rt: HostRuntime) -> Result<(), Fail> {
    are_weighed(
        rt.alloc(),
        &[
            ("if true: id, err", 0),
            ("if false: id, err", 0),
            ("if file? /a: id, err", 2),
            ("if not none? /a: id, err", 2),
            ("if dir? /a and link? /b: id, err", 4),
            ("if file? /a: mkdir /b, mkdir /c", 6),
            ("if emptydir? /a: id, err", 2),
            ("rm /a | mkdir /a/b", 12),
            ("rm /a; mkdir /a/b; mkdir /a/b/c", 8),
            ("rm /a; mkdir /a/b; mkdir /a/c; mkdir /ab", 12),
            ("if emptydir? /: id, err | mkdir /a/b", 12),
            ("if emptydir? /a: rm /a, id | mkdir /a/b | mkdir /a/c", 48),
        ],
    )
}

fn push_step(alloc: Global, steps: &mut Seq<Program>, path: &str) -> Result<(), Fail> {
    Ok(steps.push(Program::Mkdir(Path::read(alloc, path)?))?)
}

/// A folder that is made so many times.
fn made(alloc: Global, path: &str, times: u32) -> Result<Program, Fail> {
    let mut steps = Seq::new(alloc);
    for _turn in 0..times {
        push_step(alloc, &mut steps, path)?;
    }
    Ok(Program::Steps(steps))
}

fn push_made(alloc: Global, all: &mut Seq<Program>, i: u32, times: u32) -> Result<(), Fail> {
    let path = format!(in alloc; "/a{i}")?;
    Ok(all.push(made(alloc, path.as_str(), times)?)?)
}

/// So many programs, each of which makes a folder of its own so many times.
fn all_made(alloc: Global, n: u32, times: u32) -> Result<Seq<Program>, Fail> {
    let mut all = Seq::new(alloc);
    for i in 0..n {
        push_made(alloc, &mut all, i, times)?;
    }
    Ok(all)
}

/// So many programs, each of which makes its folder so many times, have this weight.
fn is_weighed_when_made(alloc: Global, n: u32, times: u32, want: u64) -> Result<(), Fail> {
    let all = all_made(alloc, n, times)?;
    same_number(alloc, "weight", weight(alloc, all.as_slice())?, want)
}

#[test]
fn the_weight_of_many_programs(rt: HostRuntime) -> Result<(), Fail> {
    is_weighed_when_made(rt.alloc(), 100, 35, 700_000)
}

#[test]
fn the_weight_of_large_programs(rt: HostRuntime) -> Result<(), Fail> {
    is_weighed_when_made(rt.alloc(), 3, 38_889, 700_002)
}
