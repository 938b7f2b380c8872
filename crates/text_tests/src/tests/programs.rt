//! Programs as they are printed.

use fs_lang::{Path, Program};
use res_models::put;
use std::alloc::Global;
use std::test::Fail;
use test_programs::programs;
use test_rows::{same, same_of, text};
use tree_text::program_text;

fn printed(alloc: Global, program: &Program) -> Result<String, Fail> {
    let mut bytes = Vec::new(alloc);
    program_text(alloc, program, &mut bytes)?;
    Ok(String::from_utf8(bytes)?)
}

fn printed_one(alloc: Global, programs: &[Program]) -> Result<String, Fail> {
    match programs {
        [program] => printed(alloc, program),
        _ => Err(Fail::from("a program")),
    }
}

/// A program in words as it is printed.
fn printed_of(alloc: Global, words: &str) -> Result<String, Fail> {
    let one = programs(alloc, words)?;
    printed_one(alloc, one.as_slice())
}

/// A program is printed so.
fn is_printed(alloc: Global, words: &str, want: &str) -> Result<(), Fail> {
    let found = printed_of(alloc, words)?;
    same(alloc, words, found.as_str(), want)
}

/// Each program is printed so.
fn are_printed(alloc: Global, rows: &[(&str, &str)]) -> Result<(), Fail> {
    for (words, want) in rows {
        is_printed(alloc, *words, *want)?;
    }
    Ok(())
}

/// Choices, and the tests in them.
const CHOICES: [(&str, &str); 8] = [
    ("if true: id, err", "if true then id else err"),
    ("if false: id, err", "if false then id else err"),
    (
        r#"if file? /a"b: id, err"#,
        r#"if file?("/a\"b") then id else err"#,
    ),
    (
        r#"if link? /a"b: id, err"#,
        r#"if link?("/a\"b") then id else err"#,
    ),
    (
        r#"if dir? /a"b: id, err"#,
        r#"if dir?("/a\"b") then id else err"#,
    ),
    (
        r#"if emptydir? /a"b: id, err"#,
        r#"if emptydir?("/a\"b") then id else err"#,
    ),
    (
        r#"if none? /a"b: id, err"#,
        r#"if none?("/a\"b") then id else err"#,
    ),
    (
        r#"if not (true and dir? /a"b) or false: id, err"#,
        r#"if (not (true and dir?("/a\"b")) or false) then id else err"#,
    ),
];

#[test]
fn tests_in_choices(rt: HostRuntime) -> Result<(), Fail> {
    are_printed(rt.alloc(), &CHOICES)
}

#[test]
fn single_programs(rt: HostRuntime) -> Result<(), Fail> {
    are_printed(
        rt.alloc(),
        &[
            ("id", "id"),
            ("err", "err"),
            ("mkdir /a", r#"mkdir("/a")"#),
            ("creat /a x\n", r#"creat("/a","x\n")"#),
            ("link /a /b", r#"link("/a","/b")"#),
            ("rm /a", r#"rm("/a")"#),
            ("cp /a /b/c", r#"cp("/a","/b/c")"#),
        ],
    )
}

/// The steps of a list of programs as they are printed.
fn printed_steps(alloc: Global, words: &str) -> Result<String, Fail> {
    let steps = Program::Steps(programs(alloc, words)?);
    printed(alloc, &steps)
}

/// The steps of a list of programs are printed so.
fn is_sequence(alloc: Global, words: &str, want: &str) -> Result<(), Fail> {
    let found = printed_steps(alloc, words)?;
    same(alloc, words, found.as_str(), want)
}

/// The steps of each list of programs are printed so.
fn are_sequences(alloc: Global, rows: &[(&str, &str)]) -> Result<(), Fail> {
    for (words, want) in rows {
        is_sequence(alloc, *words, *want)?;
    }
    Ok(())
}

#[test]
fn sequences(rt: HostRuntime) -> Result<(), Fail> {
    are_sequences(
        rt.alloc(),
        &[
            ("", "[]"),
            ("rm /a", r#"[rm("/a")]"#),
            (
                "rm /a | link /a /b | id",
                r#"[rm("/a"); link("/a","/b"); id]"#,
            ),
        ],
    )
}

/// The program that puts a text at a path.
fn putting_at(alloc: Global, path: &Path, content: &str) -> Result<Program, Fail> {
    let content = text(alloc, content)?;
    Ok(put(alloc, path, &content)?)
}

/// The same of the text of a path.
fn putting(alloc: Global, path: &str, content: &str) -> Result<Program, Fail> {
    let path = Path::read(alloc, path)?;
    putting_at(alloc, &path, content)
}

/// That program as it is printed.
fn printed_put(alloc: Global, path: &str, content: &str) -> Result<String, Fail> {
    let program = putting(alloc, path, content)?;
    printed(alloc, &program)
}

/// That program is printed so.
fn is_put(alloc: Global, path: &str, content: &str, want: &str) -> Result<(), Fail> {
    let found = printed_put(alloc, path, content)?;
    same_of(alloc, &[path, " ", content], found.as_str(), want)
}

#[test]
fn a_file_that_is_put(rt: HostRuntime) -> Result<(), Fail> {
    is_put(
        rt.alloc(),
        "/etc/ntp.conf",
        "server a",
        r#"if file?("/etc/ntp.conf") then [rm("/etc/ntp.conf"); creat("/etc/ntp.conf","server a")] else creat("/etc/ntp.conf","server a")"#,
    )
}
