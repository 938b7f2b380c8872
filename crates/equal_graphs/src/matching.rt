//! Orders of two graphs in which programs that are the same come in the same turns, as far as they may: what is then the same
//! of two runs is the same wires. The matching is greedy, by the programs' texts; an order that the graph doesn't allow gives
//! way to the first extension, and only how long it takes depends on any of it.

ghost use Rattle.std.specs.Prelude.{◌<◌, ℕ, Some, length, IfOk, IfSome};
ghost use Rattle.fs_semantics.specs.Orders.{IsLinearExtension};
ghost use Rattle.orders.specs.Relation.{Comes};

use fs_lang::Program;
use orders::Order;
use plans::Plan;
use rh_base::{NoMemory, Seq};
use std::alloc::Global;
use tree_text::program_text;

/// An allowed order of each graph.
#[derive(Drop)]
pub(crate) struct Turns {
    pub(crate) left: Seq<u32>,
    pub(crate) right: Seq<u32>,
}

/// The text of each program.
fn texts(alloc: Global, programs: &[Program]) -> Result<Seq<Vec<u8>>, NoMemory> {
    let mut all = Seq::new(alloc);
    for program in programs {
        let mut text = Vec::new(alloc);
        program_text(alloc, program, &mut text)?;
        all.push(text)?;
    }
    Ok(all)
}

/// Whether the program of this number has the text.
fn has_text(texts: &[Vec<u8>], i: u32, text: &[u8]) -> bool {
    match texts.get(i as usize) {
        Some(held) => held.as_slice() == text,
        None => false,
    }
}

/// Where in a list of numbers the first program stands that has the text.
fn first_alike(texts: &[Vec<u8>], numbers: &[u32], text: &[u8]) -> Option<usize>
    ensures { IfSome result (λ place. place < length numbers.now) }
{
    for place in 0..numbers.len() {
        let found = has_text(texts, numbers[place], text);
        if found {
            return Some(place);
        }
    }
    None
}

/// Moves the first program that has the text, if one has, from the one list to the other.
fn take_alike(
    texts: &[Vec<u8>],
    rest: &mut Vec<u32>,
    text: &[u8],
    list: &mut Seq<u32>,
) -> Result<(), NoMemory> {
    match first_alike(texts, rest.as_slice(), text) {
        Some(place) => list.push(rest.remove(place)),
        None => Ok(()),
    }
}

/// The numbers of an order, those ahead whose programs are the same as those of another order, in their turns.
fn in_turns_of(
    alloc: Global,
    texts: &[Vec<u8>],
    order: &[u32],
    wanted: &[Vec<u8>],
    turns: &[u32],
) -> Result<Seq<u32>, NoMemory> {
    let mut rest = Vec::from_slice(alloc, order)?;
    let mut list = Seq::new(alloc);
    for i in turns {
        match wanted.get(*i as usize) {
            Some(text) => take_alike(texts, &mut rest, text.as_slice(), &mut list)?,
            None => {},
        }
    }
    for k in rest {
        list.push(k)?;
    }
    Ok(list)
}

/// The list, if the graph allows it.
fn if_allowed(alloc: Global, order: &Order, list: Seq<u32>) -> Result<Option<Seq<u32>>, NoMemory>
    ensures { IfOk result (λ kept. IfSome kept (IsLinearExtension order.now.count (Comes order.now))) }
{
    let mut marks = vec![in alloc; false; order.count() as usize]?;
    let allowed = order.is_extension(list.as_slice(), marks.as_mut_slice());
    if allowed {
        return Ok(Some(list));
    }
    Ok(None)
}

/// The numbers of an order in such turns, if the graph allows it.
fn in_allowed_turns_of(
    alloc: Global,
    order: &Order,
    texts: &[Vec<u8>],
    numbers: &[u32],
    wanted: &[Vec<u8>],
    turns: &[u32],
) -> Result<Option<Seq<u32>>, NoMemory>
    ensures { IfOk result (λ kept. IfSome kept (IsLinearExtension order.now.count (Comes order.now))) }
{
    let turned = in_turns_of(alloc, texts, numbers, wanted, turns)?;
    if_allowed(alloc, order, turned)
}

/// An allowed order of each graph: the first extension of the one, and beside it, where that is allowed, the order of the other in which
/// the same programs come in the same turns; else both first extensions.
pub(crate) fn common_turns(
    alloc: Global,
    left: &Plan<'_>,
    right: &Plan<'_>,
) -> Result<Turns, NoMemory>
    ensures left { IfOk result (λ turns. IsLinearExtension left.now.order.now.count (Comes left.now.order.now) turns.left) }
    ensures right { IfOk result (λ turns. IsLinearExtension right.now.order.now.count (Comes right.now.order.now) turns.right) }
{
    let first = left.order.first_extension()?;
    let second = right.order.first_extension()?;
    let texts_left = texts(alloc, left.programs)?;
    let texts_right = texts(alloc, right.programs)?;
    let turned = in_allowed_turns_of(
        alloc,
        right.order,
        texts_right.as_slice(),
        second.as_slice(),
        texts_left.as_slice(),
        first.as_slice(),
    )?;
    if let Some(kept) = turned {
        return Ok(Turns {
            left: first,
            right: kept,
        });
    }
    let turned = in_allowed_turns_of(
        alloc,
        left.order,
        texts_left.as_slice(),
        first.as_slice(),
        texts_right.as_slice(),
        second.as_slice(),
    )?;
    match turned {
        Some(kept) => Ok(Turns {
            left: kept,
            right: second,
        }),
        None => Ok(Turns {
            left: first,
            right: second,
        }),
    }
}
