//! The finite domain: its paths in order, the places of its fresh children, and its contents.

use super::words::{push_number, push_path, push_word};
use fs_lang::Program;
use path_domain::{Domain, domain, named};
use rh_base::{NoMemory, Seq, Text};
use std::alloc::Global;
use std::test::Fail;
use test_programs::{program, programs};
use test_rows::{same, same_number};

/// What is shown: the paths of a domain and the places of its fresh children, its contents, or the paths that are named.
#[derive(Clone, Copy)]
enum Shown {
    Paths,
    Contents,
    Named,
}

fn push_paths(alloc: Global, shown: &mut Text, d: &Domain) -> Result<(), NoMemory> {
    for i in 0..d.table.path_count() {
        push_path(alloc, shown, d.table.path(i))?;
    }
    Ok(())
}

fn push_fresh(alloc: Global, shown: &mut Text, d: &Domain) -> Result<(), NoMemory> {
    for i in d.fresh.as_slice() {
        push_number(alloc, shown, *i)?;
    }
    Ok(())
}

/// Appends a content behind a bracket.
fn push_content(shown: &mut Text, content: &str) -> Result<(), NoMemory> {
    push_word(shown, "[")?;
    push_word(shown, content)
}

fn push_contents(shown: &mut Text, d: &Domain) -> Result<(), NoMemory> {
    for n in 0..d.table.content_count() {
        push_content(shown, d.table.content(n).as_str())?;
    }
    Ok(())
}

fn push_domain(alloc: Global, shown: &mut Text, d: &Domain) -> Result<(), NoMemory> {
    push_paths(alloc, shown, d)?;
    push_fresh(alloc, shown, d)
}

fn push_paths_of(alloc: Global, shown: &mut Text, all: &[Program]) -> Result<(), NoMemory> {
    let d = domain(alloc, all)?;
    push_domain(alloc, shown, &d)
}

fn push_contents_of(alloc: Global, shown: &mut Text, all: &[Program]) -> Result<(), NoMemory> {
    let d = domain(alloc, all)?;
    push_contents(shown, &d)
}

fn push_named(alloc: Global, shown: &mut Text, all: &[Program]) -> Result<(), NoMemory> {
    let paths = named(alloc, all)?;
    for p in &paths {
        push_path(alloc, shown, p)?;
    }
    Ok(())
}

fn told(alloc: Global, what: Shown, all: &[Program]) -> Result<Text, NoMemory> {
    let mut shown = Text::new(alloc);
    match what {
        Shown::Paths => push_paths_of(alloc, &mut shown, all),
        Shown::Contents => push_contents_of(alloc, &mut shown, all),
        Shown::Named => push_named(alloc, &mut shown, all),
    }?;
    Ok(shown)
}

fn is_shown(alloc: Global, what: Shown, words: &str, want: &str) -> Result<(), Fail> {
    let all = programs(alloc, words)?;
    let shown = told(alloc, what, all.as_slice())?;
    same(alloc, words, shown.as_str(), want)
}

/// Each row: programs, and what is shown of them.
fn are_shown(alloc: Global, what: Shown, rows: &[(&str, &str)]) -> Result<(), Fail> {
    for (words, want) in rows {
        is_shown(alloc, what, *words, *want)?;
    }
    Ok(())
}

#[test]
fn paths_of_changes(rt: HostRuntime) -> Result<(), Fail> {
    are_shown(
        rt.alloc(),
        Shown::Paths,
        &[
            ("", ""),
            ("id", ""),
            ("mkdir /a/b", "/a /a/b"),
            ("mkdir /b/c | mkdir /a", "/a /b /b/c"),
            ("mkdir /a/b | mkdir /a.b", "/a /a/b /a.b"),
            ("cp /a /b/c", "/a /b /b/c"),
            ("link /a /b/c", "/a"),
            ("if file? /x/y: id, err", "/x /x/y"),
        ],
    )
}

#[test]
fn fresh_children(rt: HostRuntime) -> Result<(), Fail> {
    are_shown(
        rt.alloc(),
        Shown::Paths,
        &[
            ("rm /a", "/a /a/other 1"),
            ("if emptydir? /a: id, err", "/a /a/other 1"),
            ("if emptydir? /: id, err", "/other 0"),
            ("rm /a | if emptydir? /a: id, err", "/a /a/other 1"),
            ("rm /a/b", "/a /a/b /a/b/other 2"),
            ("rm /b | rm /a", "/a /a/other /b /b/other 1 3"),
            // The absent package removes the folder that its listing names, unless something else is in it.
            (
                "if file? /.rehearsal/package/p: rm /.rehearsal/package/p, id; sweep /opt/p",
                "/.rehearsal /.rehearsal/package /.rehearsal/package/p /.rehearsal/package/p/other /opt /opt/p /opt/p/other 3 6",
            ),
        ],
    )
}

#[test]
fn segments_that_are_taken(rt: HostRuntime) -> Result<(), Fail> {
    are_shown(
        rt.alloc(),
        Shown::Paths,
        &[
            ("mkdir /other | rm /a", "/a /a/otherx /other 1"),
            ("mkdir /otherx | rm /a", "/a /a/other /otherx 1"),
            (
                "mkdir /other/otherx | rm /a",
                "/a /a/otherxx /other /other/otherx 1",
            ),
            (
                "mkdir /otherx/other | rm /a",
                "/a /a/otherxx /otherx /otherx/other 1",
            ),
            ("mkdir /another | rm /a", "/a /a/other /another 1"),
            ("rm /other", "/other /other/otherx 1"),
            ("rm /other/a", "/other /other/a /other/a/otherx 2"),
        ],
    )
}

#[test]
fn contents_and_fresh_texts(rt: HostRuntime) -> Result<(), Fail> {
    are_shown(
        rt.alloc(),
        Shown::Contents,
        &[
            ("", "[ "),
            ("mkdir /a", "[  [ text0"),
            ("rm /a", "[  [ text0 [ text1"),
            ("creat /a x", "[  [ x [ text0"),
            ("creat /a ", "[  [ text0"),
            ("link /a /b", "[  [ /b [ text0"),
            (
                "creat /b y; creat /c x | creat /b y",
                "[  [ y [ x [ text0 [ text1",
            ),
            ("if true: creat /a x, creat /a z", "[  [ x [ z [ text0"),
        ],
    )
}

#[test]
fn fresh_texts_beside_similar_ones(rt: HostRuntime) -> Result<(), Fail> {
    are_shown(
        rt.alloc(),
        Shown::Contents,
        &[
            ("creat /a text", "[  [ text [ textx0"),
            ("creat /a textual", "[  [ textual [ textx0"),
            ("creat /a text7", "[  [ text7 [ textx0"),
            ("creat /a textx", "[  [ textx [ textxx0"),
            (
                "link /a textxy | creat /b texty",
                "[  [ textxy [ texty [ textxx0 [ textxx1",
            ),
            ("creat /a tex", "[  [ tex [ text0"),
            ("creat /a a.text", "[  [ a.text [ text0"),
        ],
    )
}

#[test]
fn named_paths(rt: HostRuntime) -> Result<(), Fail> {
    are_shown(
        rt.alloc(),
        Shown::Named,
        &[
            ("", ""),
            ("rm /a/b", "/a /a/b"),
            ("if emptydir? /: id, err", ""),
            ("mkdir /b/c | cp /a /b/d", "/a /b /b/c /b/d"),
        ],
    )
}

/// Adds a file to a folder, by their numbers.
fn push_file(alloc: Global, all: &mut Seq<Program>, i: u32, j: u32) -> Result<(), Fail> {
    let words = format!(in alloc; "creat /d{i}/f{j} x")?;
    Ok(all.push(program(alloc, words.as_str())?)?)
}

/// A file in each of so many folders, so many times.
fn files(alloc: Global, folders: u32, times: u32) -> Result<Seq<Program>, Fail> {
    let mut all = Seq::new(alloc);
    for i in 0..folders {
        for j in 0..times {
            push_file(alloc, &mut all, i, j)?;
        }
    }
    Ok(all)
}

/// A domain has so many paths and contents, and no fresh children.
fn is_counted(alloc: Global, d: &Domain, paths: u64, contents: u64) -> Result<(), Fail> {
    same_number(alloc, "paths", d.table.path_count(), paths)?;
    same_number(alloc, "contents", d.table.content_count(), contents)?;
    same_number(alloc, "fresh", d.fresh.len() as u64, 0)
}

/// The domain of these files is counted.
fn are_counted(alloc: Global, all: &[Program], paths: u64, contents: u64) -> Result<(), Fail> {
    let d = domain(alloc, all)?;
    is_counted(alloc, &d, paths, contents)
}

#[test]
fn thousands_of_paths(rt: HostRuntime) -> Result<(), Fail> {
    let all = files(rt.alloc(), 64, 63)?;
    are_counted(rt.alloc(), all.as_slice(), 4_096, 4_098)
}
