//! Which programs are kept, and which go first and last.

use super::words::{push_number, push_word};
use commute_prune::{Pruned, prune};
use fs_lang::Program;
use orders::Order;
use rh_base::{NoMemory, Seq, Text};
use std::alloc::Global;
use std::test::Fail;
use test_programs::{program, programs};
use test_rows::{same, same_number};

fn push_numbers(
    alloc: Global,
    shown: &mut Text,
    name: &str,
    numbers: &[u32],
) -> Result<(), NoMemory> {
    push_word(shown, name)?;
    for n in numbers {
        push_number(alloc, shown, *n as u64)?;
    }
    Ok(())
}

fn push_pruned(alloc: Global, shown: &mut Text, p: &Pruned) -> Result<(), NoMemory> {
    push_numbers(alloc, shown, "kept", p.kept.as_slice())?;
    push_numbers(alloc, shown, "first", p.first.as_slice())?;
    push_numbers(alloc, shown, "last", p.last.as_slice())
}

fn shown(alloc: Global, p: &Pruned) -> Result<Text, NoMemory> {
    let mut shown = Text::new(alloc);
    push_pruned(alloc, &mut shown, p)?;
    Ok(shown)
}

/// The order of so many programs that these edges make.
fn order_of(alloc: Global, n: u32, edges: &[(u32, u32)]) -> Result<Order, Fail> {
    if !edges.iter().all(|e| e.0 < n && e.1 < n) {
        return Err("an edge of no program".into());
    }
    Ok(Order::from_edges(alloc, n, edges)?)
}

fn pruned(alloc: Global, programs: &[Program], order: &Order) -> Result<Pruned, Fail> {
    if programs.len() != order.count() as usize {
        return Err("an order of more or fewer programs".into());
    }
    Ok(prune(alloc, programs, order)?)
}

/// What is kept of programs in an order, and what goes first and last.
fn told_in(alloc: Global, programs: &[Program], order: &Order) -> Result<Text, Fail> {
    let p = pruned(alloc, programs, order)?;
    Ok(shown(alloc, &p)?)
}

/// The same in the order that these edges make.
fn told(alloc: Global, programs: &[Program], n: u32, edges: &[(u32, u32)]) -> Result<Text, Fail> {
    let order = order_of(alloc, n, edges)?;
    told_in(alloc, programs, &order)
}

/// How many programs there are, edges between them, their words, and what is kept.
type Row = (u32, &'static [(u32, u32)], &'static str, &'static str);

fn is_pruned(alloc: Global, row: &Row) -> Result<(), Fail> {
    let (n, edges, words, want) = *row;
    let all = programs(alloc, words)?;
    let found = told(alloc, all.as_slice(), n, edges)?;
    same(alloc, words, found.as_str(), want)
}

/// Each row: as above.
fn are_pruned(alloc: Global, rows: &[Row]) -> Result<(), Fail> {
    for row in rows {
        is_pruned(alloc, row)?;
    }
    Ok(())
}

#[test]
fn programs_without_edges(rt: HostRuntime) -> Result<(), Fail> {
    are_pruned(
        rt.alloc(),
        &[
            (0, &[], "", "kept first last"),
            (1, &[], "rm /a", "kept first last 0"),
            (
                2,
                &[],
                "dir /a; creat /a/x x | dir /a; creat /a/y y",
                "kept first last 1 0",
            ),
            // Two that clash, alone and beside a third.
            (2, &[], "creat /a x | creat /a y", "kept 0 1 first last"),
            (
                3,
                &[],
                "creat /a x | mkdir /b | creat /a y",
                "kept 0 2 first last 1",
            ),
            // A package and a file that it has.
            (
                2,
                &[],
                "dir /etc; put /etc/n.conf p; creat /n x | put /etc/n.conf q",
                "kept 0 1 first last",
            ),
            // Two packages in one folder.
            (
                2,
                &[],
                "dir /u; dir /u/s; dir /u/s/d; put /u/s/d/x p | dir /u; dir /u/s; dir /u/s/d; put /u/s/d/y p",
                "kept first last 1 0",
            ),
        ],
    )
}

#[test]
fn programs_with_edges(rt: HostRuntime) -> Result<(), Fail> {
    are_pruned(
        rt.alloc(),
        &[
            (
                2,
                &[(0, 1)],
                "creat /a x | creat /a y",
                "kept first last 0 1",
            ),
            // Against the order in which they stand.
            (2, &[(1, 0)], "dir /a | creat /a/b x", "kept first last 1 0"),
            (
                3,
                &[(0, 1), (1, 2)],
                "dir /a | put /a/b x | if file? /a/b: id, err",
                "kept first last 0 1 2",
            ),
            // A source that is removed afterwards.
            (
                2,
                &[(0, 1)],
                "cp /src /dst | drop /src",
                "kept first last 0 1",
            ),
            // A file, and one below it.
            (
                2,
                &[(0, 1)],
                "if file? /a: id, creat /a | if file? /a/b: id, creat /a/b",
                "kept first last 0 1",
            ),
            // A link, and a file below it.
            (
                2,
                &[(0, 1)],
                "if file? /a or link? /a: rm /a, id; link /a /b | put /a/c x",
                "kept first last 0 1",
            ),
        ],
    )
}

#[test]
fn programs_that_are_kept(rt: HostRuntime) -> Result<(), Fail> {
    are_pruned(
        rt.alloc(),
        &[
            // The first one goes to the front, since two clash behind it.
            (
                3,
                &[(0, 1), (0, 2)],
                "mkdir /a | creat /a/b x | creat /a/b y",
                "kept 1 2 first 0 last",
            ),
            // It stays where a clashing one isn't behind it.
            (
                3,
                &[(0, 1)],
                "mkdir /a | creat /a/b x | creat /a/b y",
                "kept 0 1 2 first last",
            ),
            // What stands before the next is kept until that has gone.
            (
                4,
                &[(0, 1), (0, 2), (3, 0)],
                "mkdir /a | creat /a/b x | creat /a/b y | mkdir /c",
                "kept 1 2 first 3 0 last",
            ),
        ],
    )
}

/// Adds a file with content.
fn push_file(alloc: Global, all: &mut Seq<Program>, i: u32) -> Result<(), Fail> {
    let words = format!(in alloc; "put /f{i} x")?;
    Ok(all.push(program(alloc, words.as_str())?)?)
}

/// So many files with content.
fn files(alloc: Global, n: u32) -> Result<Seq<Program>, Fail> {
    let mut all = Seq::new(alloc);
    for i in 1..=n {
        push_file(alloc, &mut all, i)?;
    }
    Ok(all)
}

/// How many of these programs are kept without edges.
fn kept(alloc: Global, programs: &[Program], n: u32) -> Result<usize, Fail> {
    let order = order_of(alloc, n, &[])?;
    Ok(pruned(alloc, programs, &order)?.kept.len())
}

#[test]
fn many_files(rt: HostRuntime) -> Result<(), Fail> {
    let all = files(rt.alloc(), 256)?;
    let kept = kept(rt.alloc(), all.as_slice(), 256)?;
    same_number(rt.alloc(), "kept", kept as u64, 0)
}
