//! The marked steps of a log, numbered anew.

ghost use Rattle.std.specs.Prelude.{◌≡◌, if◌then◌else◌, [], ◌∷◌, ◌++◌, length, map, IfOk, OnOk};
ghost use Rattle.trimmed_proofs.specs.Marks.{numbers_from, new_number, renamed_link, renamed_step, kept};

use cnf::{Clause, Link, Step};
use rh_base::{NoMemory, Seq};
use std::alloc::Global;

/// The numbers of the marked steps behind so many clauses, and 0 for the others. More than 2^64 - 1 are answered with want of memory.
pub(crate) fn new_numbers(alloc: Global, count: u64, marks: &[bool]) -> Result<Vec<u64>, NoMemory>
    ensures { IfOk result (λ numbers. numbers.items ≡ numbers_from count marks.now) }
{
    let mut numbers = Vec::new(alloc);
    let mut last = count;
    for marked in marks {
        if *marked {
            let Some(next) = last.checked_add(1) else {
                return Err(NoMemory);
            };
            numbers.push(next)?;
            last = next;
        } else {
            numbers.push(0)?;
        }
    }
    Ok(numbers)
}

/// The new number of a clause.
fn new_number(count: u64, numbers: &[u64], number: u64) -> u64
    ensures { result ≡ new_number count numbers.now number }
{
    if number <= count {
        return number;
    }
    let place = (number - count - 1) as usize;
    if place < numbers.len() {
        return numbers[place];
    }
    0
}

/// A link that names by new numbers.
fn renamed_link(count: u64, numbers: &[u64], link: Link) -> Link
    ensures { result ≡ renamed_link (new_number count numbers.now) link }
{
    Link {
        number: new_number(count, numbers, link.number),
        pivot: link.pivot,
    }
}

/// Links that name by new numbers.
fn renamed_links(
    alloc: Global,
    count: u64,
    numbers: &[u64],
    links: &[Link],
) -> Result<Seq<Link>, NoMemory>
    ensures { IfOk result (λ renamed. renamed ≡ map (renamed_link (new_number count numbers.now)) links.now) }
{
    let mut renamed = Seq::new(alloc);
    for link in links {
        renamed.push(renamed_link(count, numbers, *link))?;
    }
    Ok(renamed)
}

/// A step that names by new numbers.
#[tactic(auto, using(crate::proofs::CopyLaws::clause_again))]
fn renamed_step(alloc: Global, count: u64, numbers: &[u64], step: &Step) -> Result<Step, NoMemory>
    ensures { IfOk result (λ renamed. renamed ≡ renamed_step (new_number count numbers.now) step.now) }
{
    let clause = Clause::from_lits(alloc, step.clause.lits())?;
    let chain = renamed_links(alloc, count, numbers, step.chain.as_slice())?;
    Ok(Step {
        clause,
        start: new_number(count, numbers, step.start),
        chain,
    })
}

/// Appends a step that names by new numbers, if it is marked.
fn push_marked(
    alloc: Global,
    count: u64,
    numbers: &[u64],
    step: &Step,
    marked: bool,
    left: &mut Seq<Step>,
) -> Result<(), NoMemory>
    ensures { OnOk result (left.new ≡ left.old ++ (if marked then renamed_step (new_number count numbers.now) step.now ∷ [] else [])) }
{
    if marked {
        left.push(renamed_step(alloc, count, numbers, step)?)?;
    }
    Ok(())
}

/// The marked steps, which name by new numbers.
pub(crate) fn kept_steps(
    alloc: Global,
    count: u64,
    numbers: &[u64],
    steps: &[Step],
    marks: &[bool],
) -> Result<Seq<Step>, NoMemory>
    requires { length marks.now ≡ length steps.now }
    ensures { IfOk result (λ left. left ≡ kept (new_number count numbers.now) steps.now marks.now) }
{
    let mut left = Seq::new(alloc);
    for i in 0..steps.len() {
        push_marked(alloc, count, numbers, &steps[i], marks[i], &mut left)?;
    }
    Ok(left)
}
