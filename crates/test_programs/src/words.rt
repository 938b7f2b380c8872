//! Programs of any number of parts.

use crate::parts::{boxed_part, part};
use crate::questions::question;
use fs_lang::{PathFault, Program};
use rh_base::{Boxed, Seq};
use std::alloc::Global;

/// The first program where the question is true, and the other one where it isn't.
fn choice(
    alloc: Global,
    asked: &str,
    left: Boxed<Program>,
    right: Boxed<Program>,
) -> Result<Boxed<Program>, PathFault> {
    let asked = question(alloc, asked)?;
    Ok(Boxed::new(alloc, Program::If(asked, left, right))?)
}

/// What is done where a question is true, before another program for where it isn't: `file? /a: rm /a`.
fn arm(alloc: Global, words: &str, otherwise: Boxed<Program>) -> Result<Boxed<Program>, PathFault> {
    let (asked, done) = words.split_once(": ").unwrap_or((words, "id"));
    let done = boxed_part(alloc, done)?;
    choice(alloc, asked, done, otherwise)
}

/// A choice between two, `file? /a: rm /a, id`, or among more, `file? /a: rm /a, if dir? /a: id, err`.
fn choices(alloc: Global, words: &str) -> Result<Boxed<Program>, PathFault> {
    let (arms, last) = words.rsplit_once(", ").unwrap_or((words, "id"));
    let mut program = boxed_part(alloc, last)?;
    for one in arms.rsplit(", if ") {
        program = arm(alloc, one, program)?;
    }
    Ok(program)
}

/// A part, or a choice, `if file? /a: rm /a, id`.
fn step(alloc: Global, words: &str) -> Result<Program, PathFault> {
    match words.strip_prefix("if ") {
        Some(rest) => Ok(choices(alloc, rest)?.into_inner()),
        None => part(alloc, words),
    }
}

fn push_step(alloc: Global, steps: &mut Seq<Program>, words: &str) -> Result<(), PathFault> {
    Ok(steps.push(step(alloc, words)?)?)
}

fn steps(alloc: Global, words: &str) -> Result<Program, PathFault> {
    let mut steps = Seq::new(alloc);
    for one in words.split("; ") {
        push_step(alloc, &mut steps, one)?;
    }
    Ok(Program::Steps(steps))
}

/// One step, or several with `; ` between.
pub fn program(alloc: Global, words: &str) -> Result<Program, PathFault> {
    if words.contains("; ") {
        steps(alloc, words)
    } else {
        step(alloc, words)
    }
}

fn push_program(alloc: Global, all: &mut Seq<Program>, words: &str) -> Result<(), PathFault> {
    Ok(all.push(program(alloc, words)?)?)
}

/// Programs with ` | ` between; none of the empty text.
pub fn programs(alloc: Global, words: &str) -> Result<Seq<Program>, PathFault> {
    let mut all = Seq::new(alloc);
    if words.is_empty() {
        return Ok(all);
    }
    for one in words.split(" | ") {
        push_program(alloc, &mut all, one)?;
    }
    Ok(all)
}
