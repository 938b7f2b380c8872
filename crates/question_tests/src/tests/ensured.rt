//! Entries that graphs ensure, each row with what is answered.

use super::asked::everywhere;
use super::judging::refused;
use super::programs::{one_in_turn, ordered, unordered};
use determinism::First;
use ensured_entry::{Ensured, Late};
use fs_lang::{Path, PathFault, Program};
use given_entry::judge_entry_from;
use order_encode::Witness;
use orders::Order;
use plans::Plan;
use rh_base::{Boxed, Fault, NoMemory};
use std::alloc::Global;
use std::test::Fail;
use test_programs::programs;
use test_rows::{joined, same_at, same_of, text};
use verdict::Ends;
use wanted_entry::Wanted;

fn wanted_file(alloc: Global, path: &str, content: &str) -> Result<Wanted, PathFault> {
    let path = Path::read(alloc, path)?;
    Ok(Wanted {
        path,
        content: Some(text(alloc, content)?),
    })
}

/// A path alone, or a path, a blank and a content.
fn wanted(alloc: Global, words: &str) -> Result<Wanted, PathFault> {
    match words.split_once(' ') {
        Some((path, content)) => wanted_file(alloc, path, content),
        None => Ok(Wanted {
            path: Path::read(alloc, words)?,
            content: None,
        }),
    }
}

fn unsure(first: &First) -> &'static str {
    match first {
        First::Sure { .. } => "sure",
        First::Differs { .. } => "not deterministic",
        First::Spent { .. } => "spent deterministic",
    }
}

fn held(ends: &Ends) -> &'static str {
    match ends {
        Ends::From(_) => "ensured, succeeds",
        Ends::Never(_) => "ensured, fails",
    }
}

fn missed(witness: &Witness) -> &'static str {
    match witness {
        Witness::Ends { .. } => "not ensured",
        Witness::Orders { .. } | Witness::Twice { .. } => "another witness",
    }
}

fn spent(asked: &Late) -> &'static str {
    match asked {
        Late::Ensures => "spent ensures",
        Late::Succeeds => "spent succeeds",
    }
}

fn answered(ensured: &Ensured) -> &'static str {
    match ensured {
        Ensured::First(first) => unsure(first),
        Ensured::Holds { ends, .. } => held(ends),
        Ensured::Fails { witness, .. } => missed(witness),
        Ensured::Spent { asked, .. } => spent(asked),
    }
}

fn shown(alloc: Global, judged: &Result<Ensured, Fault>) -> Result<String, NoMemory> {
    match judged {
        Ok(ensured) => joined(alloc, &[answered(ensured)]),
        Err(fault) => refused(alloc, fault),
    }
}

/// What is answered of these programs and this entry.
fn told_by(
    alloc: Global,
    programs: &[Program],
    order: &Order,
    wanted: &Wanted,
    budget: u64,
) -> Result<String, Fail> {
    if order.count() as usize != programs.len() || budget == 0 {
        return Err(Fail::from("as many nodes as programs, and a budget"));
    }
    let plan = Plan { programs, order };
    let terms = everywhere(alloc, budget);
    let answer = Boxed::new(alloc, judge_entry_from(alloc, &plan, wanted, &terms))?;
    Ok(shown(alloc, answer.get())?)
}

/// The same, of an entry in words.
fn told(
    alloc: Global,
    programs: &[Program],
    order: &Order,
    entry: &str,
    budget: u64,
) -> Result<String, Fail> {
    let wanted = wanted(alloc, entry)?;
    told_by(alloc, programs, order, &wanted, budget)
}

fn told_in(
    alloc: Global,
    programs: &[Program],
    edges: &[(u32, u32)],
    entry: &str,
    budget: u64,
) -> Result<String, Fail> {
    let order = ordered(alloc, programs, edges)?;
    told(alloc, programs, &order, entry, budget)
}

/// The same, with programs in words, in the order that edges make.
fn told_of(
    alloc: Global,
    words: &str,
    edges: &[(u32, u32)],
    entry: &str,
    budget: u64,
) -> Result<String, Fail> {
    let all = programs(alloc, words)?;
    told_in(alloc, all.as_slice(), edges, entry, budget)
}

fn is_told(
    alloc: Global,
    words: &str,
    edges: &[(u32, u32)],
    entry: &str,
    budget: u64,
    want: &str,
) -> Result<(), Fail> {
    let answer = told_of(alloc, words, edges, entry, budget)?;
    same_of(alloc, &[words, ", ", entry], answer.as_str(), want)
}

/// Each row: programs in words, an entry, and what is answered of them.
fn are_told(alloc: Global, edges: &[(u32, u32)], rows: &[(&str, &str, &str)]) -> Result<(), Fail> {
    for (words, entry, want) in rows {
        is_told(alloc, *words, edges, *entry, u64::MAX, *want)?;
    }
    Ok(())
}

/// Makes sure of /etc/motd with the content hi.
const MOTD: &str = "put /etc/motd hi";

#[test]
fn entries_of_one_program(rt: HostRuntime) -> Result<(), Fail> {
    are_told(
        rt.alloc(),
        &[],
        &[
            (MOTD, "/etc/motd hi", "ensured, succeeds"),
            (MOTD, "/etc/motd ho", "not ensured"),
            (MOTD, "/etc/motd ", "not ensured"),
            (MOTD, "/etc/motd", "ensured, succeeds"),
            // where the file ends, the folder stands; but a folder has no content
            (MOTD, "/etc", "ensured, succeeds"),
            (MOTD, "/etc ", "not ensured"),
            // no program touches it
            (MOTD, "/srv", "not ensured"),
            (MOTD, "/etc/motd/below", "not ensured"),
            // it may hold another content, though from the empty tree it doesn't
            ("if file? /a: id, creat /a ", "/a ", "not ensured"),
            ("if file? /a: id, creat /a ", "/a", "ensured, succeeds"),
            ("id", "/a", "not ensured"),
            ("link /a /b", "/a /b", "not ensured"),
            ("err", "/x", "ensured, fails"),
        ],
    )
}

#[test]
fn entries_of_graphs_without_arrows(rt: HostRuntime) -> Result<(), Fail> {
    // not deterministic, so nothing is said of the entry
    is_told(
        rt.alloc(),
        "dir /etc | put /etc/a x",
        &[],
        "/etc/a",
        u64::MAX,
        "not deterministic",
    )
}

/// Of two programs, the first comes before the second.
#[test]
fn entries_of_graphs(rt: HostRuntime) -> Result<(), Fail> {
    are_told(
        rt.alloc(),
        &[(0, 1)],
        &[
            ("dir /etc | put /etc/a x", "/etc/a x", "ensured, succeeds"),
            ("put /a x | drop /a", "/a", "not ensured"),
            ("drop /a | put /a x", "/a x", "ensured, succeeds"),
            ("mkdir /a | mkdir /a", "/b", "ensured, fails"),
        ],
    )
}

/// Where /a is a file, /x goes and comes back. The budget of one step is spent on the question, since neither case is sure.
const GOES_AND_COMES: &str =
    "if none? /t: id, err | put /x 1 | if file? /a and file? /x: creat /t 1, id | if file? /a and none? /x: creat /x 1, id | if file? /t: rm /x, id | if file? /t: rm /t, id | if file? /a and file? /x: creat /t 1, id | if file? /a and none? /x: creat /x 1, id | if file? /t: rm /x, id | if file? /t: rm /t, id";

/// Ten programs in a row.
const IN_A_ROW: &[(u32, u32)] = &[
    (0, 1),
    (1, 2),
    (2, 3),
    (3, 4),
    (4, 5),
    (5, 6),
    (6, 7),
    (7, 8),
    (8, 9),
];

#[test]
fn spent_budgets(rt: HostRuntime) -> Result<(), Fail> {
    is_told(
        rt.alloc(),
        GOES_AND_COMES,
        IN_A_ROW,
        "/x",
        1,
        "spent ensures",
    )
}

#[test]
fn budgets_that_suffice(rt: HostRuntime) -> Result<(), Fail> {
    is_told(
        rt.alloc(),
        GOES_AND_COMES,
        IN_A_ROW,
        "/x",
        u64::MAX,
        "ensured, succeeds",
    )
}

fn told_without(alloc: Global, programs: &[Program], entry: &str) -> Result<String, Fail> {
    let order = unordered(alloc, programs)?;
    told(alloc, programs, &order, entry, u64::MAX)
}

/// What is answered of one program that makes so many folders, and an entry.
fn told_in_turn(alloc: Global, count: u32, entry: &str) -> Result<String, Fail> {
    let all = one_in_turn(alloc, count)?;
    told_without(alloc, all.as_slice(), entry)
}

fn is_told_in_turn(alloc: Global, count: u32, entry: &str, want: &str) -> Result<(), Fail> {
    let answer = told_in_turn(alloc, count, entry)?;
    same_at(alloc, count as u64, entry, answer.as_str(), want)
}

/// Each row: how many folders one program makes, an entry, and what is answered.
fn are_told_in_turn(alloc: Global, rows: &[(u32, &str, &str)]) -> Result<(), Fail> {
    for (count, entry, want) in rows {
        is_told_in_turn(alloc, *count, *entry, *want)?;
    }
    Ok(())
}

#[test]
fn paths_of_the_domain_with_the_probe(rt: HostRuntime) -> Result<(), Fail> {
    are_told_in_turn(
        rt.alloc(),
        &[
            (4_096u32, "/x", "70 domain"),
            (4_097, "/d1", "70 domain"),
            (4_095, "/x/y", "70 domain"),
            (4_095, "/x", "not ensured"),
        ],
    )
}
