//! Which steps two lists share. What is found here is only a guess: that the marked steps are the same is tested where they are
//! used.

ghost use Rattle.std.specs.Prelude.{◌<◌, length, IfSome};

use crate::same::same_program;
use fs_lang::{Path, Program, Test};
use rh_base::NoMemory;
use std::alloc::Global;
use std::collections::BTreeMap;

/// A mark for each step that the other list has too.
#[derive(Debug, Drop)]
pub(crate) struct Marks {
    pub left: Vec<bool>,
    pub right: Vec<bool>,
}

/// The path that a test asks of first.
fn asked_path(test: &Test) -> Option<&Path> {
    match test {
        Test::IsFile(p) | Test::IsLink(p) | Test::IsDir(p) | Test::IsEmpty(p) | Test::IsNone(p) =>
            Some(p),
        _ => None,
    }
}

/// The path of a step, by which it is looked up.
fn path_of(step: &Program) -> Option<&Path> {
    match step {
        Program::Mkdir(p)
        | Program::Creat(p, _)
        | Program::Link(p, _)
        | Program::Rm(p)
        | Program::Cp(_, p) => Some(p),
        Program::If(Test::Or(a, _), _, _) => asked_path(a.get()),
        Program::If(test, _, _) => asked_path(test),
        _ => None,
    }
}

/// The place of the step with each path, of the last one where there are more.
fn places_of(alloc: Global, steps: &[Program]) -> Result<BTreeMap<Path, usize>, NoMemory> {
    let mut places = BTreeMap::new(alloc);
    for i in 0..steps.len() {
        if let Some(p) = path_of(&steps[i]) {
            let path = p.copy(alloc)?;
            places.insert(path, i)?;
        }
    }
    Ok(places)
}

/// The place of the same step, from this place on.
fn place_of(
    places: &BTreeMap<Path, usize>,
    step: &Program,
    others: &[Program],
    from: usize,
) -> Option<usize>
    ensures { IfSome result (λ i. i < length others.now) }
{
    let path = path_of(step)?;
    let place = *places.get(path)?;
    if place < from || place >= others.len() {
        return None;
    }
    if same_program(step, &others[place]) {
        Some(place)
    } else {
        None
    }
}

fn no_marks(alloc: Global, count: usize) -> Result<Vec<bool>, NoMemory> {
    let mut marks = Vec::new(alloc);
    for _i in 0..count {
        marks.push(false)?;
    }
    Ok(marks)
}

/// Sets the mark at a place.
fn mark(marks: &mut Vec<bool>, i: usize) {
    if i < marks.len() {
        marks[i] = true;
    }
}

/// Steps of both lists, in the same order in both.
pub(crate) fn shared(alloc: Global, es: &[Program], fs: &[Program]) -> Result<Marks, NoMemory> {
    let places = places_of(alloc, fs)?;
    let mut left = Vec::new(alloc);
    let mut right = no_marks(alloc, fs.len())?;
    let mut from = 0usize;
    for step in es {
        match place_of(&places, step, fs, from) {
            None => left.push(false)?,
            Some(i) => {
                left.push(true)?;
                mark(&mut right, i);
                from = i + 1;
            }
        }
    }
    Ok(Marks { left, right })
}
