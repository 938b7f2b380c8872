//! Programs in a few words.

use crate::questions::single;
use fs_lang::{Path, PathFault, Program};
use rh_base::{Boxed, Seq};
use std::alloc::Global;
use test_rows::text;

fn mkdir(alloc: Global, path: &str) -> Result<Program, PathFault> {
    Ok(Program::Mkdir(Path::read(alloc, path)?))
}

fn rm(alloc: Global, path: &str) -> Result<Program, PathFault> {
    Ok(Program::Rm(Path::read(alloc, path)?))
}

fn creat(alloc: Global, path: &str, content: &str) -> Result<Program, PathFault> {
    let path = Path::read(alloc, path)?;
    Ok(Program::Creat(path, text(alloc, content)?))
}

fn link(alloc: Global, path: &str, target: &str) -> Result<Program, PathFault> {
    let path = Path::read(alloc, path)?;
    Ok(Program::Link(path, text(alloc, target)?))
}

fn cp(alloc: Global, source: &str, path: &str) -> Result<Program, PathFault> {
    let source = Path::read(alloc, source)?;
    Ok(Program::Cp(source, Path::read(alloc, path)?))
}

/// One change, as `creat /a x`.
fn change(alloc: Global, word: &str, first: &str, second: &str) -> Result<Program, PathFault> {
    match word {
        "id" => Ok(Program::Id),
        "err" => Ok(Program::Err),
        "mkdir" => mkdir(alloc, first),
        "rm" => rm(alloc, first),
        "cp" => cp(alloc, first, second),
        "creat" => creat(alloc, first, second),
        "link" => link(alloc, first, second),
        _ => Err(PathFault::Bad),
    }
}

fn push_change(
    alloc: Global,
    steps: &mut Seq<Program>,
    word: &str,
    path: &str,
    content: &str,
) -> Result<(), PathFault> {
    Ok(steps.push(change(alloc, word, path, content)?)?)
}

/// One change to a path, or several after one another.
fn changes(alloc: Global, words: &[&str], path: &str, content: &str) -> Result<Program, PathFault> {
    if let [word] = words {
        return change(alloc, *word, path, content);
    }
    let mut steps = Seq::new(alloc);
    for word in words {
        push_change(alloc, &mut steps, *word, path, content)?;
    }
    Ok(Program::Steps(steps))
}

fn boxed_changes(
    alloc: Global,
    words: &[&str],
    path: &str,
    content: &str,
) -> Result<Boxed<Program>, PathFault> {
    Ok(Boxed::new(alloc, changes(alloc, words, path, content)?)?)
}

/// The start of a resource's program: its word, what is asked of the path, the changes where it is so, and those where
/// it isn't.
type Start = (
    &'static str,
    &'static str,
    &'static [&'static str],
    &'static [&'static str],
);

const STARTS: [Start; 4] = [
    ("dir", "dir?", &["id"], &["mkdir"]),
    ("drop", "file?", &["rm"], &["id"]),
    ("sweep", "emptydir?", &["rm"], &["id"]),
    ("put", "file?", &["rm", "creat"], &["creat"]),
];

/// A choice whose changes where it is so are made.
fn otherwise(
    alloc: Global,
    start: &Start,
    left: Boxed<Program>,
    path: &str,
    content: &str,
) -> Result<Program, PathFault> {
    let right = boxed_changes(alloc, start.3, path, content)?;
    Ok(Program::If(single(alloc, start.1, path)?, left, right))
}

/// The start, with this path and content.
fn started(alloc: Global, start: &Start, path: &str, content: &str) -> Result<Program, PathFault> {
    let left = boxed_changes(alloc, start.2, path, content)?;
    otherwise(alloc, start, left, path, content)
}

fn start_of(word: &str) -> Option<Start> {
    for start in STARTS {
        if start.0 == word {
            return Some(start);
        }
    }
    None
}

/// A change, or the start of a resource's program: `dir` makes sure of a folder, `put` of a file with a content, `drop`
/// removes a file, `sweep` an empty folder.
pub fn part(alloc: Global, words: &str) -> Result<Program, PathFault> {
    let (word, rest) = words.split_once(' ').unwrap_or((words, "/"));
    let (first, second) = rest.split_once(' ').unwrap_or((rest, "/"));
    match start_of(word) {
        Some(start) => started(alloc, &start, first, second),
        None => change(alloc, word, first, second),
    }
}

pub fn boxed_part(alloc: Global, words: &str) -> Result<Boxed<Program>, PathFault> {
    Ok(Boxed::new(alloc, part(alloc, words)?)?)
}
