//! Footprints, and which of them are apart.

use super::words::{both, is_answered, push_path, push_word};
use effect_sets::{Footprint, apart, footprint_of};
use fs_lang::{Path, Program};
use rh_base::{NoMemory, Text};
use std::alloc::Global;
use std::collections::BTreeSet;
use std::test::Fail;
use test_programs::program;
use test_rows::same;

fn push_paths(
    alloc: Global,
    shown: &mut Text,
    name: &str,
    paths: &BTreeSet<Path>,
) -> Result<(), NoMemory> {
    push_word(shown, name)?;
    for p in paths {
        push_path(alloc, shown, p)?;
    }
    Ok(())
}

fn push_footprint(alloc: Global, shown: &mut Text, f: &Footprint) -> Result<(), NoMemory> {
    push_paths(alloc, shown, "R", f.reads())?;
    push_paths(alloc, shown, "W", f.writes())?;
    push_paths(alloc, shown, "F", f.folders())?;
    push_paths(alloc, shown, "C", f.children())
}

/// What is looked at, written and made sure of, and whose children matter.
fn shown(alloc: Global, f: &Footprint) -> Result<Text, NoMemory> {
    let mut text = Text::new(alloc);
    push_footprint(alloc, &mut text, f)?;
    Ok(text)
}

fn told_of(alloc: Global, e: &Program) -> Result<Text, Fail> {
    let f = footprint_of(alloc, e)?;
    Ok(shown(alloc, &f)?)
}

fn told(alloc: Global, words: &str) -> Result<Text, Fail> {
    let e = program(alloc, words)?;
    told_of(alloc, &e)
}

fn is_shown(alloc: Global, words: &str, want: &str) -> Result<(), Fail> {
    let found = told(alloc, words)?;
    same(alloc, words, found.as_str(), want)
}

/// Each row: a program, and its footprint.
fn are_shown(alloc: Global, rows: &[(&str, &str)]) -> Result<(), Fail> {
    for (words, want) in rows {
        is_shown(alloc, *words, *want)?;
    }
    Ok(())
}

#[test]
fn footprints_of_questions(rt: HostRuntime) -> Result<(), Fail> {
    are_shown(
        rt.alloc(),
        &[
            ("id", "R W F C"),
            ("err", "R W F C"),
            ("if file? /a: id, err", "R /a W F C"),
            ("if link? /a: id, err", "R /a W F C"),
            ("if dir? /a: id, err", "R /a W F C"),
            ("if none? /a: id, err", "R /a W F C"),
            ("if dir? /: id, err", "R W F C"),
            ("if emptydir? /a: id, err", "R /a W F C /a"),
            ("if emptydir? /: id, err", "R W F C /"),
            ("if not file? /a: id, err", "R /a W F C"),
            ("if file? /b or link? /a: id, err", "R /a /b W F C"),
        ],
    )
}

#[test]
fn footprints_of_changes(rt: HostRuntime) -> Result<(), Fail> {
    are_shown(
        rt.alloc(),
        &[
            ("mkdir /", "R W / F C"),
            ("dir /", "R W F / C"),
            ("mkdir /a", "R /a W /a F C"),
            ("mkdir /a/b", "R /a /a/b W /a/b F C"),
            ("creat /a/b x", "R /a /a/b W /a/b F C"),
            ("link /a/b x", "R /a /a/b W /a/b F C"),
            ("rm /a/b", "R /a/b W /a/b F C /a/b"),
            ("cp /a/b /c/d", "R /a/b /c /c/d W /c/d F C"),
            ("dir /a/b", "R /a W F /a/b C"),
            ("dir /a", "R W F /a C"),
            ("if dir? /a: id, mkdir /b", "R /a /b W /b F C"),
            ("if file? /a: mkdir /b, mkdir /c", "R /a /b /c W /b /c F C"),
        ],
    )
}

#[test]
fn footprints_from_left_to_right(rt: HostRuntime) -> Result<(), Fail> {
    are_shown(
        rt.alloc(),
        &[
            ("dir /a; creat /a/b x", "R /a/b W /a/b F /a C"),
            ("creat /a/b x; dir /a", "R /a /a/b W /a/b F /a C"),
            (
                "dir /a; dir /a/b; creat /a/b/c x",
                "R /a/b/c W /a/b/c F /a /a/b C",
            ),
            ("dir /a; if file? /a: id, err", "R W F /a C"),
            ("dir /a; rm /a; mkdir /a/b", "R /a /a/b W /a /a/b F /a C /a"),
            (
                "if none? /x: dir /a, dir /a; creat /a/b x",
                "R /a/b /x W /a/b F /a C",
            ),
            (
                "if none? /x: dir /a, id; creat /a/b x",
                "R /a /a/b /x W /a/b F /a C",
            ),
            (
                "dir /a; if none? /x: rm /a, id; creat /a/b x",
                "R /a /a/b /x W /a /a/b F /a C /a",
            ),
        ],
    )
}

fn told_beside(alloc: Global, f: &Footprint, e: &Program) -> Result<&'static str, Fail> {
    let g = footprint_of(alloc, e)?;
    Ok(both(apart(f, &g), apart(&g, f)))
}

fn told_with(alloc: Global, f: &Footprint, right: &str) -> Result<&'static str, Fail> {
    let e = program(alloc, right)?;
    told_beside(alloc, f, &e)
}

fn told_first(alloc: Global, e: &Program, right: &str) -> Result<&'static str, Fail> {
    let f = footprint_of(alloc, e)?;
    told_with(alloc, &f, right)
}

fn told_apart(alloc: Global, left: &str, right: &str) -> Result<&'static str, Fail> {
    let e = program(alloc, left)?;
    told_first(alloc, &e, right)
}

fn is_apart(alloc: Global, left: &str, right: &str, want: bool) -> Result<(), Fail> {
    let got = told_apart(alloc, left, right)?;
    is_answered(alloc, left, right, got, want)
}

/// Each row: two programs, and whether they are apart, whichever of them comes first.
fn are_apart(alloc: Global, rows: &[(&str, &str, bool)]) -> Result<(), Fail> {
    for (left, right, want) in rows {
        is_apart(alloc, *left, *right, *want)?;
    }
    Ok(())
}

#[test]
fn pairs_that_are_apart_or_not(rt: HostRuntime) -> Result<(), Fail> {
    are_apart(
        rt.alloc(),
        &[
            ("mkdir /a", "mkdir /b", true),
            ("mkdir /a", "mkdir /a", false),
            ("creat /a x", "if file? /a: id, err", false),
            ("if file? /a: id, err", "if none? /a: id, err", true),
            ("dir /a", "dir /a", true),
            ("dir /a", "if dir? /a: id, err", false),
            ("dir /a", "mkdir /a", false),
            ("dir /a", "creat /a/b x", false),
            ("dir /a; creat /a/b x", "dir /a; creat /a/c x", true),
            ("dir /a; creat /a/b x", "dir /a; creat /a/b x", false),
        ],
    )
}

#[test]
fn folders_and_copies_that_are_apart_or_not(rt: HostRuntime) -> Result<(), Fail> {
    are_apart(
        rt.alloc(),
        &[
            ("mkdir /a", "creat /a/b x", false),
            ("if emptydir? /a: id, err", "mkdir /a/b", false),
            ("if emptydir? /a: id, err", "dir /a/b", false),
            ("if emptydir? /a: id, err", "mkdir /a/b/c", true),
            ("if emptydir? /: id, err", "mkdir /a", false),
            ("rm /a", "mkdir /a/b", false),
            ("rm /a", "mkdir /b/a", true),
            ("cp /a /b", "if file? /a: id, err", true),
            ("cp /a /b", "rm /a", false),
        ],
    )
}
