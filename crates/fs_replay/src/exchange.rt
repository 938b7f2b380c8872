//! Two programs between the same others, run in either order side by side. What goes ahead of the two is run once; and what comes behind
//! them only where the two leave something else behind in the one order than in the other.

ghost use Rattle.std.specs.Prelude.{◌≡◌, ◌↔◌, ◌<◌, length, map, IsTrue, IfOk, OnOk};
ghost use Rattle.std.specs.List.{AllByRecursion};
ghost use Rattle.fs_semantics.specs.Programs.{Outcome as Ending, and_then};
ghost use Rattle.fs_semantics.specs.Orders.{outcome};
ghost use Rattle.fs_lang.specs.Meaning.{program_of};
ghost use Rattle.fs_replay.specs.Exchanged.{IsGround, StandOn, AreAlike, one_way, other_way, left_behind_one_way, left_behind_other_way};

use crate::comparing::same_outcome;
use crate::ground::Ground;
use crate::runs::{outcome_told, run_in_order};
use fs_interpreter::{Cells, Plain, states};
use fs_semantics::constructs;
use rh_base::{NoMemory, Seq};
use std::alloc::Global;

/// Two programs, what goes ahead of both, and what comes behind both.
#[derive(Debug, Drop)]
pub struct Exchange {
    pub front: Seq<u32>,
    pub first: u32,
    pub second: u32,
    pub back: Seq<u32>,
}

fn copy_bits(alloc: Global, bits: &[bool]) -> Result<Seq<bool>, NoMemory>
    ensures { IfOk result (λ copy. copy ≡ bits.now) }
{
    let mut copy = Seq::new(alloc);
    for bit in bits {
        copy.push(*bit)?;
    }
    Ok(copy)
}

fn copy_numbers(alloc: Global, numbers: &[u64]) -> Result<Seq<u64>, NoMemory>
    ensures { IfOk result (λ copy. copy ≡ numbers.now) }
{
    let mut copy = Seq::new(alloc);
    for n in numbers {
        copy.push(*n)?;
    }
    Ok(copy)
}

fn cells_like(alloc: Global, cells: &Cells<Plain>) -> Result<Cells<Plain>, NoMemory>
    ensures { IfOk result (λ copy. copy ≡ cells.now) }
{
    Ok(Cells {
        present: copy_bits(alloc, cells.present.as_slice())?,
        folder: copy_bits(alloc, cells.folder.as_slice())?,
        link: copy_bits(alloc, cells.link.as_slice())?,
        content: copy_numbers(alloc, cells.content.as_slice())?,
        error: cells.error,
    })
}

fn same_bits(a: &Seq<bool>, b: &Seq<bool>) -> bool
    ensures { IsTrue result → a.now ≡ b.now }
{
    a.as_slice() == b.as_slice()
}

fn same_numbers(a: &Seq<u64>, b: &Seq<u64>) -> bool
    ensures { IsTrue result → a.now ≡ b.now }
{
    a.as_slice() == b.as_slice()
}

/// Whether both stand for Error, or hold the same at each place.
fn are_alike(a: &Cells<Plain>, b: &Cells<Plain>) -> bool
    ensures { IsTrue result → AreAlike a.now b.now }
{
    if a.error || b.error {
        return a.error && b.error;
    }
    let present = same_bits(&a.present, &b.present);
    let folder = same_bits(&a.folder, &b.folder);
    let link = same_bits(&a.link, &b.link);
    if !present || !folder || !link {
        return false;
    }
    same_numbers(&a.content, &b.content)
}

/// Runs these programs, one after the other.
fn run_on(
    alloc: Global,
    ground: &Ground,
    order: &[u32],
    cells: &mut Cells<Plain>,
) -> Result<(), NoMemory>
    requires ground { IsGround ground.now }
    requires below { AllByRecursion (λ i. i < length ground.now.programs.now) order.now }
    requires stand { (o : Ending) × StandOn ground.now o cells.old }
    ensures { OnOk result ((o : Ending) → StandOn ground.now o cells.old
        → StandOn ground.now (and_then o (outcome (map program_of ground.now.programs.now) order.now)) cells.new) }
{
    constructs();
    run_in_order(alloc, &ground.table, ground.programs, order, cells)
}

/// What both runs hold once the two have run, in the one order and in the other.
#[derive(Drop)]
struct Runs {
    left: Cells<Plain>,
    right: Cells<Plain>,
}

/// Runs what goes ahead of the two, and then these in either order.
fn both_ways(alloc: Global, ground: &Ground, exchange: &Exchange) -> Result<Runs, NoMemory>
    requires ground { IsGround ground.now }
    requires below { AllByRecursion (λ i. i < length ground.now.programs.now) (one_way exchange.now) }
    ensures left { IfOk result (λ runs. StandOn ground.now (left_behind_one_way ground.now exchange.now) runs.left) }
    ensures right { IfOk result (λ runs. StandOn ground.now (left_behind_other_way ground.now exchange.now) runs.right) }
{
    ground.tree.is_tree();
    let front = exchange.front.as_slice();
    let mut left = cells_like(alloc, &ground.cells)?;
    run_on(alloc, ground, front, &mut left)?;
    let mut right = cells_like(alloc, &left)?;
    run_on(alloc, ground, &[exchange.first, exchange.second], &mut left)?;
    run_on(
        alloc,
        ground,
        &[exchange.second, exchange.first],
        &mut right,
    )?;
    Ok(Runs { left, right })
}

/// Whether both runs end alike once these programs have run, too.
fn end_alike_behind(
    alloc: Global,
    ground: &Ground,
    back: &[u32],
    runs: Runs,
) -> Result<bool, NoMemory>
    requires ground { IsGround ground.now }
    requires below { AllByRecursion (λ i. i < length ground.now.programs.now) back.now }
    requires left { (o : Ending) × StandOn ground.now o runs.left }
    requires right { (o : Ending) × StandOn ground.now o runs.right }
    ensures { IfOk result (λ alike. (o u : Ending) → StandOn ground.now o runs.left → StandOn ground.now u runs.right
        → IsTrue alike ↔ (and_then o (outcome (map program_of ground.now.programs.now) back.now)
        ≡ and_then u (outcome (map program_of ground.now.programs.now) back.now))) }
{
    states();
    let Runs {
        mut left,
        mut right,
    } = runs;
    run_on(alloc, ground, back, &mut left)?;
    run_on(alloc, ground, back, &mut right)?;
    let one = outcome_told(alloc, &ground.table, &left)?;
    let other = outcome_told(alloc, &ground.table, &right)?;
    Ok(same_outcome(&one, &other))
}

/// Whether the two end alike in either order, between the others, from the tree.
pub fn end_alike_exchanged(
    alloc: Global,
    ground: &Ground,
    exchange: &Exchange,
) -> Result<bool, NoMemory>
    requires ground { IsGround ground.now }
    requires below { AllByRecursion (λ i. i < length ground.now.programs.now) (one_way exchange.now) }
    ensures { IfOk result (λ alike. IsTrue alike
        ↔ (outcome (map program_of ground.now.programs.now) (one_way exchange.now) ground.now.tree.now
        ≡ outcome (map program_of ground.now.programs.now) (other_way exchange.now) ground.now.tree.now)) }
{
    states();
    let runs = both_ways(alloc, ground, exchange)?;
    let alike = are_alike(&runs.left, &runs.right);
    if alike {
        return Ok(true);
    }
    end_alike_behind(alloc, ground, exchange.back.as_slice(), runs)
}
