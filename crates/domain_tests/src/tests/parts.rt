//! Programs that commute by their parts.

use super::words::{both, is_answered};
use commuting_parts::commute_by_parts;
use fs_lang::{Path, PathFault, Program, Test};
use rh_base::{Boxed, Seq};
use std::alloc::Global;
use std::test::Fail;
use test_programs::{program, programs};

fn push_step(alloc: Global, all: &mut Seq<Program>, words: &str) -> Result<(), PathFault> {
    Ok(all.push(program(alloc, words)?)?)
}

/// Steps with `; ` between them, as one program.
fn steps(alloc: Global, words: &str) -> Result<Program, PathFault> {
    let mut all = Seq::new(alloc);
    for one in words.split("; ") {
        push_step(alloc, &mut all, one)?;
    }
    Ok(Program::Steps(all))
}

fn boxed_steps(alloc: Global, words: &str) -> Result<Boxed<Program>, PathFault> {
    Ok(Boxed::new(alloc, steps(alloc, words)?)?)
}

/// The first program where the mark is there, and the other one where it isn't.
fn choice(
    alloc: Global,
    mark: &str,
    left: Boxed<Program>,
    right: Boxed<Program>,
) -> Result<Program, PathFault> {
    let mark = Path::read(alloc, mark)?;
    Ok(Program::If(Test::IsFile(mark), left, right))
}

/// A package that goes, as `/m/a: drop /x/b; rm /m/a`: where its mark is there, the steps are made.
fn going(alloc: Global, words: &str) -> Result<Program, PathFault> {
    let (mark, rest) = words.split_once(": ").unwrap_or(("/", words));
    let left = boxed_steps(alloc, rest)?;
    choice(alloc, mark, left, Boxed::new(alloc, Program::Id)?)
}

/// Steps that are made unless a mark is there, as `/m/a: put /x/b 1; creat /m/a`.
fn unless(alloc: Global, words: &str) -> Result<Program, PathFault> {
    let (mark, rest) = words.split_once(": ").unwrap_or(("/", words));
    let right = boxed_steps(alloc, rest)?;
    choice(alloc, mark, Boxed::new(alloc, Program::Id)?, right)
}

/// A package that comes, as `dir /x` and `/m/a: put /x/b 1; creat /m/a`: its folders, and the other steps unless its mark is there.
fn coming(alloc: Global, folders: &str, words: &str) -> Result<Program, PathFault> {
    let mut all = programs(alloc, folders)?;
    all.push(unless(alloc, words)?)?;
    Ok(Program::Steps(all))
}

/// A package that goes, `where MARK: STEPS`, one that comes, `FOLDERS unless MARK: STEPS` with ` | ` between the folders, or steps.
fn read(alloc: Global, words: &str) -> Result<Program, PathFault> {
    if let Some(rest) = words.strip_prefix("where ") {
        return going(alloc, rest);
    }
    match words.split_once(" unless ") {
        Some((folders, rest)) => coming(alloc, folders, rest),
        None => program(alloc, words),
    }
}

/// The answer for two programs, whichever of them comes first.
fn told_both(alloc: Global, e: &Program, f: &Program) -> Result<&'static str, Fail> {
    let forth = commute_by_parts(alloc, e, f)?;
    let back = commute_by_parts(alloc, f, e)?;
    Ok(both(forth, back))
}

fn told_beside(alloc: Global, e: &Program, right: &str) -> Result<&'static str, Fail> {
    let f = read(alloc, right)?;
    told_both(alloc, e, &f)
}

fn told(alloc: Global, left: &str, right: &str) -> Result<&'static str, Fail> {
    let e = read(alloc, left)?;
    told_beside(alloc, &e, right)
}

fn is_told(alloc: Global, left: &str, right: &str, want: bool) -> Result<(), Fail> {
    let got = told(alloc, left, right)?;
    is_answered(alloc, left, right, got, want)
}

/// Each row: two programs, and whether they are told to commute, whichever of them comes first.
fn are_told(alloc: Global, rows: &[(&str, &str, bool)]) -> Result<(), Fail> {
    for (left, right, want) in rows {
        is_told(alloc, *left, *right, *want)?;
    }
    Ok(())
}

/// A package that comes with two files in one folder.
const COMES: &str = "dir /x | dir /m unless /m/a: put /x/p 1; put /x/q 2; creat /m/a";

#[test]
fn packages_that_come(rt: HostRuntime) -> Result<(), Fail> {
    are_told(
        rt.alloc(),
        &[
            // The same files with the same contents.
            (
                COMES,
                "dir /x | dir /m unless /m/b: put /x/p 1; put /x/q 2; creat /m/b",
                true,
            ),
            // One file in common and one of their own, in one folder.
            (
                COMES,
                "dir /x | dir /m unless /m/b: put /x/p 1; put /x/r 3; creat /m/b",
                true,
            ),
            (
                COMES,
                "dir /x | dir /m unless /m/b: put /x/o 3; put /x/q 2; creat /m/b",
                true,
            ),
            // In other folders, too.
            (
                COMES,
                "dir /o | dir /x | dir /x/y | dir /m unless /m/b: put /o/a 1; put /x/p 1; put /x/y/z 3; creat /m/b",
                true,
            ),
            // One path with two contents.
            (
                COMES,
                "dir /x | dir /m unless /m/b: put /x/p 3; put /x/q 2; creat /m/b",
                false,
            ),
            // A folder where the other has a file.
            (
                COMES,
                "dir /x | dir /x/p | dir /m unless /m/b: put /x/p/q 3; creat /m/b",
                false,
            ),
            // The mark of the other among the files.
            (
                COMES,
                "dir /x | dir /m unless /m/b: put /x/p 1; put /m/a 1; creat /m/b",
                false,
            ),
            // Without the folder that the file is in.
            (
                COMES,
                "dir /m unless /m/b: put /x/p 1; put /x/r 1; creat /m/b",
                false,
            ),
        ],
    )
}

/// A package that goes with two files in a folder below another.
const GOES: &str = "where /m/a: drop /x/y/p; drop /x/y/q; sweep /x/y; sweep /x; rm /m/a";

#[test]
fn packages_that_go(rt: HostRuntime) -> Result<(), Fail> {
    are_told(
        rt.alloc(),
        &[
            // The same files in the same folders.
            (
                GOES,
                "where /m/b: drop /x/y/p; drop /x/y/q; sweep /x/y; sweep /x; rm /m/b",
                true,
            ),
            // A file in common, and one elsewhere.
            (
                GOES,
                "where /m/b: drop /o/p; drop /x/y/p; drop /x/y/q; sweep /x/y; sweep /x; rm /m/b",
                true,
            ),
            // The same folders alone.
            (
                "where /m/a: sweep /x/y; sweep /x; rm /m/a",
                "where /m/b: drop /o/p; sweep /x/y; sweep /x; rm /m/b",
                true,
            ),
            // A file of their own in the same folders.
            (
                GOES,
                "where /m/b: drop /x/y/o; drop /x/y/q; sweep /x/y; sweep /x; rm /m/b",
                true,
            ),
            (
                GOES,
                "where /m/b: drop /x/o; drop /x/y/p; sweep /x/y; sweep /x; rm /m/b",
                true,
            ),
            // A folder of its own below one of the same.
            (
                GOES,
                "where /m/b: drop /x/z/o; sweep /x/y; sweep /x/z; sweep /x; rm /m/b",
                true,
            ),
        ],
    )
}

#[test]
fn packages_that_do_not_go_in_any_order(rt: HostRuntime) -> Result<(), Fail> {
    are_told(
        rt.alloc(),
        &[
            // Shallow folders ahead of deep ones.
            (
                GOES,
                "where /m/b: drop /x/y/o; sweep /x; sweep /x/y; rm /m/b",
                false,
            ),
            // A sweep that the other doesn't make, of a folder above.
            (GOES, "where /m/b: drop /x/y/o; sweep /x/y; rm /m/b", false),
            // The mark stands in a folder that both sweep.
            (
                "where /m/a: drop /x/p; sweep /x; sweep /m; rm /m/a",
                "where /m/b: drop /x/q; sweep /x; sweep /m; rm /m/b",
                false,
            ),
            // One removes the last file of a folder that the other sweeps.
            (GOES, "where /m/b: drop /x/y/o; rm /m/b", false),
            (GOES, "where /m/b: drop /x/y/p; rm /m/b", false),
            // One comes with a file with which the other goes.
            (
                GOES,
                "dir /x | dir /x/y | dir /m unless /m/b: put /x/y/p 1; creat /m/b",
                false,
            ),
            // One comes into a folder that the other sweeps.
            (
                GOES,
                "dir /x | dir /x/y | dir /m unless /m/b: put /x/y/o 1; creat /m/b",
                false,
            ),
        ],
    )
}

#[test]
fn changes_and_choices(rt: HostRuntime) -> Result<(), Fail> {
    are_told(
        rt.alloc(),
        &[
            ("id", "err", true),
            ("err", "err", true),
            ("put /a 1", "put /a 1", true),
            ("put /a 1", "put /a 2", false),
            ("put /a 1", "put /b 2", true),
            ("creat /a 1", "creat /b 1", true),
            ("creat /a 1", "link /a 1", false),
            ("creat /a 1", "if file? /a: id, err", false),
            ("if file? /a: put /b 1, id", "put /a 1", false),
            ("if emptydir? /a: put /b 1, id", "put /a/c 1", false),
            ("if dir? /a or link? /c: put /b 1, id", "put /c 1", false),
            ("if not none? /a: put /b 1, put /b 2", "put /c 1", true),
        ],
    )
}

#[test]
fn sequences(rt: HostRuntime) -> Result<(), Fail> {
    are_told(
        rt.alloc(),
        &[
            ("put /a 1; put /b 2", "put /a 1; put /c 3", true),
            ("put /a 1; put /b 2", "put /b 2; put /a 1", false),
            ("cp /a /b; put /c 1", "cp /a /b; put /d 1", true),
            ("cp /a /b; put /c 1", "put /a 1; put /d 1", false),
            ("link /a t; put /b 1", "link /a t; put /c 1", true),
            ("rm /a; put /b 1", "mkdir /a; put /c 1", false),
        ],
    )
}
