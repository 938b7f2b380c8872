//! Printing tests and programs.

ghost use Rattle.std.specs.Prelude.{◌≡◌, ◌++◌, OnOk, OnErr, IfOk, codes};
ghost use Rattle.json.specs.Print.{quoted};
ghost use Rattle.fs_lang.specs.Meaning.{test_of, program_of, programs_in};
ghost use Rattle.tree_text.specs.ProgramText.{path_shown, with_path, with_two, test_text, program_text, steps_text, more_text};

use fs_lang::{Path, Program, Test};
use json_parts::append;
use rh_base::{NoMemory, Text};
use serde_json::Value as Json;
use std::alloc::Global;

/// A text as a JSON string.
pub fn quoted(alloc: Global, text: Text) -> Result<Text, NoMemory>
    ensures { IfOk result (λ shown. shown ≡ quoted text) }
{
    let json = Json::String(text.into_string());
    Ok(Text::from_string(json.to_string(alloc)?))
}

/// The text of a path, as a JSON string.
pub fn path_shown(alloc: Global, p: &Path) -> Result<Text, NoMemory>
    ensures { IfOk result (λ shown. shown ≡ path_shown p.now) }
{
    let text = p.text(alloc)?;
    quoted(alloc, text)
}

/// Prints a word with a path behind it.
fn with_path(alloc: Global, word: &str, p: &Path, into: &mut Text) -> Result<(), NoMemory>
    ensures { OnOk result (into.new ≡ into.old ++ with_path word.now p.now) }
{
    let shown = path_shown(alloc, p)?;
    into.push(word)?;
    into.push(shown.as_str())?;
    into.push(")")
}

/// Prints a word with a path and one more argument behind it.
fn with_two(
    alloc: Global,
    word: &str,
    p: &Path,
    shown: &Text,
    into: &mut Text,
) -> Result<(), NoMemory>
    ensures { OnOk result (into.new ≡ into.old ++ with_two word.now p.now shown.now) }
{
    let path = path_shown(alloc, p)?;
    into.push(word)?;
    into.push(path.as_str())?;
    into.push(",")?;
    into.push(shown.as_str())?;
    into.push(")")
}

/// Prints a word with a path and a text behind it.
fn with_text(
    alloc: Global,
    word: &str,
    p: &Path,
    text: &Text,
    into: &mut Text,
) -> Result<(), NoMemory>
    ensures { OnOk result (into.new ≡ into.old ++ with_two word.now p.now (quoted text.now)) }
{
    let copy = text.copy(alloc)?;
    let shown = quoted(alloc, copy)?;
    with_two(alloc, word, p, &shown, into)
}

/// Prints two tests in parentheses, with a word between them.
#[cycle(test_words)]
fn joined(alloc: Global, a: &Test, word: &str, b: &Test, into: &mut Text) -> Result<(), NoMemory>
    ensures { OnOk result (into.new ≡ into.old ++
        (codes "(" ++ (test_text (test_of a.now) ++ (word.now ++ (test_text (test_of b.now) ++ codes ")"))))) }
{
    into.push("(")?;
    put_test(alloc, a, into)?;
    into.push(word)?;
    put_test(alloc, b, into)?;
    into.push(")")
}

#[cycle(test_words)]
fn negated(alloc: Global, a: &Test, into: &mut Text) -> Result<(), NoMemory>
    ensures { OnOk result (into.new ≡ into.old ++ (codes "not " ++ test_text (test_of a.now))) }
{
    into.push("not ")?;
    put_test(alloc, a, into)
}

/// Prints a test.
#[cycle(test_words)]
#[tactic(auto, using(fs_lang::specs::Meaning::test_of_not, fs_lang::specs::Meaning::test_of_and, fs_lang::specs::Meaning::test_of_or))]
fn put_test(alloc: Global, test: &Test, into: &mut Text) -> Result<(), NoMemory>
    ensures { OnOk result (into.new ≡ into.old ++ test_text (test_of test.now)) }
{
    match test {
        Test::True => into.push("true"),
        Test::False => into.push("false"),
        Test::Not(a) => negated(alloc, a.get(), into),
        Test::And(a, b) => joined(alloc, a.get(), " and ", b.get(), into),
        Test::Or(a, b) => joined(alloc, a.get(), " or ", b.get(), into),
        Test::IsFile(p) => with_path(alloc, "file?(", p, into),
        Test::IsLink(p) => with_path(alloc, "link?(", p, into),
        Test::IsDir(p) => with_path(alloc, "dir?(", p, into),
        Test::IsEmpty(p) => with_path(alloc, "emptydir?(", p, into),
        Test::IsNone(p) => with_path(alloc, "none?(", p, into),
    }
}

/// A test as it is printed.
pub fn test_shown(alloc: Global, test: &Test) -> Result<Text, NoMemory>
    ensures { IfOk result (λ shown. shown ≡ test_text (test_of test.now)) }
{
    let mut text = Text::new(alloc);
    put_test(alloc, test, &mut text)?;
    Ok(text)
}

/// Prints programs, each behind `; `.
#[cycle(program_words)]
fn put_more(alloc: Global, programs: &[Program], into: &mut Text) -> Result<(), NoMemory>
    ensures { OnOk result (into.new ≡ into.old ++ more_text (programs_in programs.now)) }
{
    for program in programs {
        into.push("; ")?;
        put_program(alloc, program, into)?;
    }
    Ok(())
}

/// Prints programs with `; ` between them.
#[cycle(program_words)]
fn put_steps(alloc: Global, programs: &[Program], into: &mut Text) -> Result<(), NoMemory>
    ensures { OnOk result (into.new ≡ into.old ++ steps_text (programs_in programs.now)) }
{
    let Some((first, more)) = programs.split_first() else {
        return Ok(());
    };
    put_program(alloc, first, into)?;
    put_more(alloc, more, into)
}

/// Prints a sequence.
#[cycle(program_words)]
fn put_list(alloc: Global, programs: &[Program], into: &mut Text) -> Result<(), NoMemory>
    ensures { OnOk result (into.new ≡ into.old ++ (codes "[" ++ (steps_text (programs_in programs.now) ++ codes "]"))) }
{
    into.push("[")?;
    put_steps(alloc, programs, into)?;
    into.push("]")
}

/// Prints a choice.
#[cycle(program_words)]
fn put_choice(
    alloc: Global,
    a: &Test,
    e: &Program,
    f: &Program,
    into: &mut Text,
) -> Result<(), NoMemory>
    ensures { OnOk result (into.new ≡ into.old ++
        (codes "if " ++ (test_text (test_of a.now) ++
        (codes " then " ++ (program_text (program_of e.now) ++
        (codes " else " ++ program_text (program_of f.now))))))) }
{
    into.push("if ")?;
    put_test(alloc, a, into)?;
    into.push(" then ")?;
    put_program(alloc, e, into)?;
    into.push(" else ")?;
    put_program(alloc, f, into)
}

/// Prints a copy of a file.
fn put_copy(alloc: Global, p: &Path, q: &Path, into: &mut Text) -> Result<(), NoMemory>
    ensures { OnOk result (into.new ≡ into.old ++ with_two (codes "cp(") p.now (path_shown q.now)) }
{
    let shown = path_shown(alloc, q)?;
    with_two(alloc, "cp(", p, &shown, into)
}

/// Prints a program.
#[cycle(program_words)]
#[tactic(auto, using(fs_lang::specs::Meaning::program_of_if, fs_lang::specs::Meaning::program_of_steps))]
fn put_program(alloc: Global, program: &Program, into: &mut Text) -> Result<(), NoMemory>
    ensures { OnOk result (into.new ≡ into.old ++ program_text (program_of program.now)) }
{
    match program {
        Program::Id => into.push("id"),
        Program::Err => into.push("err"),
        Program::Mkdir(p) => with_path(alloc, "mkdir(", p, into),
        Program::Creat(p, content) => with_text(alloc, "creat(", p, content, into),
        Program::Link(p, target) => with_text(alloc, "link(", p, target, into),
        Program::Rm(p) => with_path(alloc, "rm(", p, into),
        Program::Cp(p, q) => put_copy(alloc, p, q, into),
        Program::Steps(es) => put_list(alloc, es.as_slice(), into),
        Program::If(a, e, f) => put_choice(alloc, a, e.get(), f.get(), into),
    }
}

/// Appends a program as it is printed.
pub fn program_text(alloc: Global, program: &Program, into: &mut Vec<u8>) -> Result<(), NoMemory>
    ensures ok { OnOk result (into.new.items ≡ into.old.items ++ program_text (program_of program.now)) }
    ensures err { OnErr result (into.new.items ≡ into.old.items) }
{
    let mut text = Text::new(alloc);
    put_program(alloc, program, &mut text)?;
    append(into, text.as_str().as_bytes())
}
