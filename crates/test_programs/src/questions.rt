//! Questions in words.

use fs_lang::{Path, PathFault, Test};
use rh_base::Boxed;
use std::alloc::Global;

fn at(alloc: Global, word: &str, path: &str) -> Result<Test, PathFault> {
    match word {
        "file?" => Ok(Test::IsFile(Path::read(alloc, path)?)),
        "link?" => Ok(Test::IsLink(Path::read(alloc, path)?)),
        "dir?" => Ok(Test::IsDir(Path::read(alloc, path)?)),
        "emptydir?" => Ok(Test::IsEmpty(Path::read(alloc, path)?)),
        "none?" => Ok(Test::IsNone(Path::read(alloc, path)?)),
        _ => Err(PathFault::Bad),
    }
}

/// A question about a path, as `file? /a`, or `true` or `false`.
pub fn single(alloc: Global, word: &str, path: &str) -> Result<Test, PathFault> {
    match word {
        "true" => Ok(Test::True),
        "false" => Ok(Test::False),
        _ => at(alloc, word, path),
    }
}

fn asked(alloc: Global, words: &str) -> Result<Test, PathFault> {
    let (word, path) = words.split_once(' ').unwrap_or((words, "/"));
    single(alloc, word, path)
}

fn boxed(alloc: Global, words: &str) -> Result<Boxed<Test>, PathFault> {
    Ok(Boxed::new(alloc, asked(alloc, words)?)?)
}

fn and(alloc: Global, left: &str, right: &str) -> Result<Test, PathFault> {
    let left = boxed(alloc, left)?;
    Ok(Test::And(left, boxed(alloc, right)?))
}

/// One question, or two with `and` between.
fn both(alloc: Global, words: &str) -> Result<Test, PathFault> {
    match words.split_once(" and ") {
        Some((left, right)) => and(alloc, left, right),
        None => asked(alloc, words),
    }
}

fn boxed_both(alloc: Global, words: &str) -> Result<Boxed<Test>, PathFault> {
    Ok(Boxed::new(alloc, both(alloc, words)?)?)
}

/// The words without the parentheses around them.
fn bare(words: &str) -> &str {
    let inner = words.strip_prefix('(').unwrap_or(words);
    inner.strip_suffix(')').unwrap_or(inner)
}

/// The same, or its denial, which has parentheses around two.
fn denied(alloc: Global, words: &str) -> Result<Test, PathFault> {
    match words.strip_prefix("not ") {
        Some(rest) => Ok(Test::Not(boxed_both(alloc, bare(rest))?)),
        None => both(alloc, words),
    }
}

fn boxed_denied(alloc: Global, words: &str) -> Result<Boxed<Test>, PathFault> {
    Ok(Boxed::new(alloc, denied(alloc, words)?)?)
}

fn or(alloc: Global, left: &str, right: &str) -> Result<Test, PathFault> {
    let left = boxed_denied(alloc, left)?;
    Ok(Test::Or(left, boxed_denied(alloc, right)?))
}

/// A question, `not` before one, `and` or `or` between two: `not (file? /a and dir? /b) or none? /c`.
pub fn question(alloc: Global, words: &str) -> Result<Test, PathFault> {
    match words.split_once(" or ") {
        Some((left, right)) => or(alloc, left, right),
        None => denied(alloc, words),
    }
}
