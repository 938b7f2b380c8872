//! What is answered to the texts of assumptions.

use assumed_text::{Assumed, Assumption, Behavior, Subject, assumptions_from_json};
use fs_lang::Path;
use pp_value::{Ref, shown_ref};
use std::alloc::Global;
use std::test::Fail;
use test_rows::{joined, refused, same};

/// The refusal of a text that is no assumptions.
pub const REFUSED: &str = "66 at 0: assume";

/// Adds each of these words.
fn add_words(words: &[&str], line: &mut String) -> Result<(), Fail> {
    for word in words {
        line.push_str(*word)?;
    }
    Ok(())
}

/// Adds a word and a path.
fn add_path(alloc: Global, word: &str, path: &Path, line: &mut String) -> Result<(), Fail> {
    let text = path.text(alloc)?;
    add_words(&[" ", word, " ", text.as_str()], line)
}

/// Adds the word before each of these paths.
fn add_paths(alloc: Global, word: &str, paths: &[Path], line: &mut String) -> Result<(), Fail> {
    for path in paths {
        add_path(alloc, word, path, line)?;
    }
    Ok(())
}

/// Adds the paths of each row behind its word.
fn add_rows(alloc: Global, rows: &[(&str, &[Path])], line: &mut String) -> Result<(), Fail> {
    for (word, paths) in rows {
        add_paths(alloc, *word, *paths, line)?;
    }
    Ok(())
}

/// Adds the paths of a behavior behind what is done to them, but for that which it creates.
fn add_done(alloc: Global, b: &Behavior, line: &mut String) -> Result<(), Fail> {
    add_rows(
        alloc,
        &[
            ("needs", b.needs.as_slice()),
            ("folders", b.folders.as_slice()),
            ("makes", b.makes.as_slice()),
            ("edits", b.edits.as_slice()),
            ("removes", b.removes.as_slice()),
        ],
        line,
    )
}

/// Adds each path of a behavior behind what is done to it.
fn add_behavior(alloc: Global, b: &Behavior, line: &mut String) -> Result<(), Fail> {
    add_done(alloc, b, line)?;
    match &b.creates {
        Some(path) => add_path(alloc, "creates", path, line),
        None => Ok(()),
    }
}

/// Adds what is assumed.
pub fn add_assumed(alloc: Global, assumed: &Assumed, line: &mut String) -> Result<(), Fail> {
    match assumed {
        Assumed::Nothing => add_words(&[" nothing"], line),
        Assumed::Refused => add_words(&[" refused"], line),
        Assumed::Does(behavior) => add_behavior(alloc, behavior, line),
    }
}

fn add_ref(alloc: Global, r: &Ref, line: &mut String) -> Result<(), Fail> {
    let name = shown_ref(alloc, r)?;
    add_words(&[name.as_str()], line)
}

/// Adds a reference, or a type with dots behind it.
fn add_subject(alloc: Global, subject: &Subject, line: &mut String) -> Result<(), Fail> {
    match subject {
        Subject::One(r) => add_ref(alloc, r, line),
        Subject::EachOf(kind) => add_words(&[kind.as_str(), "[..]"], line),
    }
}

/// Adds a line for an assumption.
fn add_line(alloc: Global, row: &Assumption, lines: &mut String) -> Result<(), Fail> {
    add_subject(alloc, &row.subject, lines)?;
    add_assumed(alloc, &row.assumed, lines)?;
    lines.push('\n')?;
    Ok(())
}

/// A line for each assumption.
fn shown(alloc: Global, rows: &[Assumption]) -> Result<String, Fail> {
    let mut lines = String::new(alloc);
    for row in rows {
        add_line(alloc, row, &mut lines)?;
    }
    Ok(lines)
}

/// What a text says, or the refusal.
fn answer(alloc: Global, text: &[u8]) -> Result<String, Fail> {
    match assumptions_from_json(alloc, text) {
        Ok(assumptions) => shown(alloc, assumptions.rows()),
        Err(fault) => Ok(refused(alloc, &fault)?),
    }
}

/// The text of assumptions of these members.
pub fn text_of(alloc: Global, resources: &str) -> Result<String, Fail> {
    Ok(joined(
        alloc,
        &[r#"{"version":1,"resources":{"#, resources, r#"}}"#],
    )?)
}

/// What the text of these members says, or the refusal.
pub fn answer_of(alloc: Global, resources: &str) -> Result<String, Fail> {
    let text = text_of(alloc, resources)?;
    answer(alloc, text.as_bytes())
}

/// Bytes that this row has are refused.
pub fn is_refused(alloc: Global, row: &str, text: &[u8]) -> Result<(), Fail> {
    let told = answer(alloc, text)?;
    same(alloc, row, told.as_str(), REFUSED)
}

/// Each text is refused.
pub fn are_refused(alloc: Global, texts: &[&str]) -> Result<(), Fail> {
    for text in texts {
        is_refused(alloc, *text, text.as_bytes())?;
    }
    Ok(())
}
