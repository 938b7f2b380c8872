//! The words for a construct that failed.

ghost use Rattle.std.specs.Prelude.{◌≡◌, ◌++◌, codes, OnOk};
ghost use Rattle.fs_lang.specs.Meaning.{program_of, test_of};
ghost use Rattle.tree_text.specs.ProgramText.{path_shown, test_text};
ghost use Rattle.fs_semantics.specs.FileTree.{parent};
ghost use Rattle.failure_search.specs.Found.{reason_of};
ghost use Rattle.explained_text.specs.Words.{place_words, removal_words, copy_words, need_words, step_words};

use failure_search::{Failure, Reason};
use fs_lang::{Path, Program, Test};
use rh_base::{NoMemory, Text};
use std::alloc::Global;
use tree_text::{path_shown, test_shown};

fn push_path(alloc: Global, word: &str, p: &Path, into: &mut Text) -> Result<(), NoMemory>
    ensures { OnOk result (into.new ≡ into.old ++ (word.now ++ path_shown p.now)) }
{
    let shown = path_shown(alloc, p)?;
    into.push(word)?;
    into.push(shown.as_str())
}

fn push_test(alloc: Global, word: &str, a: &Test, into: &mut Text) -> Result<(), NoMemory>
    ensures { OnOk result (into.new ≡ into.old ++ (word.now ++ test_text (test_of a.now))) }
{
    let shown = test_shown(alloc, a)?;
    into.push(word)?;
    into.push(shown.as_str())
}

fn push_above(alloc: Global, p: &Path, into: &mut Text) -> Result<(), NoMemory>
    ensures { OnOk result (into.new ≡ into.old ++ (codes ": no folder " ++ path_shown (parent p.now))) }
{
    let above = p.parent(alloc)?;
    push_path(alloc, ": no folder ", &above, into)
}

fn push_place(alloc: Global, p: &Path, reason: &Reason, into: &mut Text) -> Result<(), NoMemory>
    ensures { OnOk result (into.new ≡ into.old ++ place_words p.now (reason_of reason.now)) }
{
    match reason {
        Reason::Exists => into.push(": exists"),
        Reason::NoFolder => push_above(alloc, p, into),
        _ => Ok(()),
    }
}

fn push_removal(reason: &Reason, into: &mut Text) -> Result<(), NoMemory>
    ensures { OnOk result (into.new ≡ into.old ++ removal_words (reason_of reason.now)) }
{
    match reason {
        Reason::NothingThere => into.push(": nothing there"),
        Reason::NotEmpty => into.push(": not empty"),
        Reason::TheRoot => into.push(": the root"),
        _ => Ok(()),
    }
}

fn push_copy(
    alloc: Global,
    p: &Path,
    q: &Path,
    reason: &Reason,
    into: &mut Text,
) -> Result<(), NoMemory>
    ensures { OnOk result (into.new ≡ into.old ++ copy_words p.now q.now (reason_of reason.now)) }
{
    match reason {
        Reason::NoFile => push_path(alloc, ": no file ", p, into),
        Reason::Exists => push_path(alloc, ": exists ", q, into),
        Reason::NoFolder => push_above(alloc, q, into),
        _ => Ok(()),
    }
}

fn push_need(alloc: Global, reason: &Reason, into: &mut Text) -> Result<(), NoMemory>
    ensures { OnOk result (into.new ≡ into.old ++ need_words (reason_of reason.now)) }
{
    match reason {
        Reason::Needs(a) => push_test(alloc, "needs ", a, into),
        Reason::NeedsNot(a) => push_test(alloc, "needs not ", a, into),
        _ => into.push("err"),
    }
}

/// Appends the word of a construct that makes something, its path, and why it failed.
fn push_making(
    alloc: Global,
    word: &str,
    p: &Path,
    reason: &Reason,
    into: &mut Text,
) -> Result<(), NoMemory>
    ensures { OnOk result (into.new ≡ into.old ++ (word.now ++ (path_shown p.now ++ place_words p.now (reason_of reason.now)))) }
{
    push_path(alloc, word, p, into)?;
    push_place(alloc, p, reason, into)
}

fn push_removing(alloc: Global, p: &Path, reason: &Reason, into: &mut Text) -> Result<(), NoMemory>
    ensures { OnOk result (into.new ≡ into.old ++ (codes "rm " ++ (path_shown p.now ++ removal_words (reason_of reason.now)))) }
{
    push_path(alloc, "rm ", p, into)?;
    push_removal(reason, into)
}

fn push_copying(
    alloc: Global,
    p: &Path,
    q: &Path,
    reason: &Reason,
    into: &mut Text,
) -> Result<(), NoMemory>
    ensures { OnOk result (into.new ≡ into.old ++
        (codes "cp " ++ (path_shown p.now ++
        (codes " " ++ (path_shown q.now ++ copy_words p.now q.now (reason_of reason.now)))))) }
{
    push_path(alloc, "cp ", p, into)?;
    push_path(alloc, " ", q, into)?;
    push_copy(alloc, p, q, reason, into)
}

/// Appends the construct that failed, and why.
pub fn push_step(alloc: Global, failure: &Failure, into: &mut Text) -> Result<(), NoMemory>
    ensures { OnOk result (into.new ≡ into.old ++ step_words (program_of failure.now.construct.now) (reason_of failure.now.reason)) }
{
    let reason = &failure.reason;
    match failure.construct {
        Program::Err => push_need(alloc, reason, into),
        Program::Mkdir(p) => push_making(alloc, "mkdir ", p, reason, into),
        Program::Creat(p, _) => push_making(alloc, "creat ", p, reason, into),
        Program::Link(p, _) => push_making(alloc, "link ", p, reason, into),
        Program::Rm(p) => push_removing(alloc, p, reason, into),
        Program::Cp(p, q) => push_copying(alloc, p, q, reason, into),
        Program::Id | Program::Steps(_) | Program::If(_, _, _) => Ok(()),
    }
}
