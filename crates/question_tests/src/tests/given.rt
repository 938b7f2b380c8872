//! Verdicts from the trees in which given folders stand.

use super::judging::refused;
use super::programs::{one_in_turn, ordered, plan_of, unordered};
use fs_lang::{Path, PathFault, Program};
use given_repair::repair_from;
use given_verdict::{check_size_with, judge_from};
use host_limits::Limits;
use orders::Order;
use question_terms::Terms;
use repair::Repaired;
use rh_base::{Boxed, Fault, NoMemory, Seq};
use std::alloc::Global;
use std::test::Fail;
use test_programs::programs;
use test_rows::{joined, numbered, same_at, same_of};
use verdict::{Ends, Second, Verdict};

fn push_folder(alloc: Global, word: &str, into: &mut Seq<Path>) -> Result<(), PathFault> {
    if !word.is_empty() {
        into.push(Path::read(alloc, word)?)?;
    }
    Ok(())
}

/// These folders, with ` ` between.
fn folders(alloc: Global, words: &str) -> Result<Seq<Path>, PathFault> {
    let mut all = Seq::new(alloc);
    for word in words.split(' ') {
        push_folder(alloc, word, &mut all)?;
    }
    Ok(all)
}

fn terms(alloc: Global, given: &str) -> Result<Terms, PathFault> {
    Ok(Terms {
        given: folders(alloc, given)?,
        limits: Limits::Usual,
        conflicts: None,
    })
}

fn judged(verdict: &Verdict) -> &'static str {
    match verdict {
        Verdict::NotDeterministic { .. } => "not deterministic",
        Verdict::Judged {
            second: Second::Differs(_),
            ..
        } => "not idempotent",
        Verdict::Judged {
            ends: Ends::From(_),
            ..
        } => "succeeds",
        Verdict::Judged {
            ends: Ends::Never(_),
            ..
        } => "fails",
        Verdict::Spent { .. } => "spent",
    }
}

fn shown(alloc: Global, found: &Result<Verdict, Fault>) -> Result<String, NoMemory> {
    match found {
        Ok(verdict) => joined(alloc, &[judged(verdict)]),
        Err(fault) => refused(alloc, fault),
    }
}

/// What is judged of programs in this order, under terms.
fn told_by(
    alloc: Global,
    programs: &[Program],
    order: &Order,
    asked: &Terms,
) -> Result<String, Fail> {
    let plan = plan_of(programs, order)?;
    let answer = Boxed::new(alloc, judge_from(alloc, &plan, asked))?;
    Ok(shown(alloc, answer.get())?)
}

fn told_in(
    alloc: Global,
    programs: &[Program],
    edges: &[(u32, u32)],
    asked: &Terms,
) -> Result<String, Fail> {
    let order = ordered(alloc, programs, edges)?;
    told_by(alloc, programs, &order, asked)
}

fn told_under(
    alloc: Global,
    programs: &[Program],
    edges: &[(u32, u32)],
    given: &str,
) -> Result<String, Fail> {
    let asked = terms(alloc, given)?;
    told_in(alloc, programs, edges, &asked)
}

/// What is judged of programs in words, in the order that edges make, where folders are given.
fn told_of(alloc: Global, words: &str, edges: &[(u32, u32)], given: &str) -> Result<String, Fail> {
    let all = programs(alloc, words)?;
    told_under(alloc, all.as_slice(), edges, given)
}

fn is_told(
    alloc: Global,
    words: &str,
    edges: &[(u32, u32)],
    given: &str,
    want: &str,
) -> Result<(), Fail> {
    let answer = told_of(alloc, words, edges, given)?;
    same_of(alloc, &[words, ", ", given], answer.as_str(), want)
}

/// Each row: programs, the given folders, and what is judged.
fn are_told(alloc: Global, edges: &[(u32, u32)], rows: &[(&str, &str, &str)]) -> Result<(), Fail> {
    for (words, given, want) in rows {
        is_told(alloc, *words, edges, *given, *want)?;
    }
    Ok(())
}

#[test]
fn verdicts_from_given_folders(rt: HostRuntime) -> Result<(), Fail> {
    are_told(
        rt.alloc(),
        &[],
        &[
            ("put /g/a x | dir /g | id", "", "not deterministic"),
            ("put /g/a x | dir /g | id", "/g", "succeeds"),
            ("put /g/a x | dir /g | id", "/h", "not deterministic"),
            ("put /g/h/a x | dir /g/h | id", "/g /g/h", "succeeds"),
            ("sweep /g | put /g/a x | id", "/g", "not deterministic"),
            // it has no run without error where the folder stands
            ("if dir? /g: err, put /a x | id | id", "/g", "fails"),
            ("if dir? /g: err, put /a x | id | id", "", "succeeds"),
        ],
    )
}

/// The last program removes the folder, so that the second run begins without it.
#[test]
fn second_runs_without_the_folder(rt: HostRuntime) -> Result<(), Fail> {
    are_told(
        rt.alloc(),
        &[(0, 2), (1, 2)],
        &[
            ("put /a x | put /b x | sweep /g", "/g", "succeeds"),
            // the second run makes a file
            (
                "if dir? /g: id, put /a x | id | sweep /g",
                "/g",
                "not idempotent",
            ),
            // it changes something only in the other order
            (
                "if dir? /g: id, put /a 1 | put /a 2 | sweep /g",
                "/g",
                "not idempotent",
            ),
        ],
    )
}

/// Whether programs fit the limits, where folders are given.
fn fits(
    alloc: Global,
    programs: &[Program],
    given: &[Path],
    limits: Limits,
) -> Result<String, NoMemory> {
    match check_size_with(alloc, programs, given, limits) {
        Ok(_) => joined(alloc, &["fits"]),
        Err(fault) => refused(alloc, &fault),
    }
}

fn fits_beside(
    alloc: Global,
    programs: &[Program],
    given: &str,
    limits: Limits,
) -> Result<String, Fail> {
    let paths = folders(alloc, given)?;
    Ok(fits(alloc, programs, paths.as_slice(), limits)?)
}

/// The same of one program that makes so many folders.
fn fits_in_turn(alloc: Global, count: u32, given: &str, limits: Limits) -> Result<String, Fail> {
    let all = one_in_turn(alloc, count)?;
    fits_beside(alloc, all.as_slice(), given, limits)
}

fn is_fitting(
    alloc: Global,
    count: u32,
    given: &str,
    limits: Limits,
    want: &str,
) -> Result<(), Fail> {
    let answer = fits_in_turn(alloc, count, given, limits)?;
    same_at(alloc, count as u64, given, answer.as_str(), want)
}

/// Each row: how many folders one program makes, the given folders, the limits, and whether it fits.
fn are_fitting(alloc: Global, rows: &[(u32, &str, Limits, &str)]) -> Result<(), Fail> {
    for (count, given, limits, want) in rows {
        is_fitting(alloc, *count, *given, *limits, *want)?;
    }
    Ok(())
}

#[test]
fn given_paths_count(rt: HostRuntime) -> Result<(), Fail> {
    are_fitting(
        rt.alloc(),
        &[
            (4_096u32, "", Limits::Usual, "fits"),
            (4_096, "/d1", Limits::Usual, "fits"),
            (4_096, "/g", Limits::Usual, "70 domain"),
            (4_096, "/g", Limits::Host, "fits"),
        ],
    )
}

/// How many arrows are answered.
fn added(alloc: Global, repaired: &Result<Repaired, Fault>) -> Result<String, NoMemory> {
    match repaired {
        Ok(Repaired::Done { added }) => numbered(alloc, "", added.len() as u64, ""),
        Ok(Repaired::Spent { .. }) => joined(alloc, &["spent"]),
        Err(fault) => refused(alloc, fault),
    }
}

/// The same of programs in this order, under terms.
fn added_by(
    alloc: Global,
    programs: &[Program],
    order: &Order,
    asked: &Terms,
) -> Result<String, Fail> {
    let plan = plan_of(programs, order)?;
    let answer = Boxed::new(alloc, repair_from(alloc, &plan, asked))?;
    Ok(added(alloc, answer.get())?)
}

fn added_without(alloc: Global, programs: &[Program], asked: &Terms) -> Result<String, Fail> {
    let order = unordered(alloc, programs)?;
    added_by(alloc, programs, &order, asked)
}

fn added_under(alloc: Global, programs: &[Program], given: &str) -> Result<String, Fail> {
    let asked = terms(alloc, given)?;
    added_without(alloc, programs, &asked)
}

/// The same of programs in words, where folders are given.
fn added_to(alloc: Global, words: &str, given: &str) -> Result<String, Fail> {
    let all = programs(alloc, words)?;
    added_under(alloc, all.as_slice(), given)
}

fn is_added(alloc: Global, words: &str, given: &str, want: &str) -> Result<(), Fail> {
    let answer = added_to(alloc, words, given)?;
    same_of(alloc, &[words, ", ", given], answer.as_str(), want)
}

/// Each row: programs without an order between them, the given folders, and how many arrows are answered.
fn are_added(alloc: Global, rows: &[(&str, &str, &str)]) -> Result<(), Fail> {
    for (words, given, want) in rows {
        is_added(alloc, *words, *given, *want)?;
    }
    Ok(())
}

#[test]
fn arrows_from_given_folders(rt: HostRuntime) -> Result<(), Fail> {
    are_added(
        rt.alloc(),
        &[
            ("put /g/a x | dir /g", "", "1"),
            ("put /g/a x | dir /g", "/g", "0"),
            ("put /g/a x | put /g/a y", "/g", "1"),
        ],
    )
}
