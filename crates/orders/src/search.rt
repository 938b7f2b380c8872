//! What is reached from each node, by a search depth first with a stack of its own.
//!
//! The transitive closure of a graph without circles: once a node is done its row of bits is joined into that of each node from
//! which an edge leads to it, so an edge costs one row. An edge to a node that was entered and isn't done closes a circle
//! (Tarjan 1972). The stack is its own, since recursion would go as deep as the longest path.
ghost use Rattle.std.specs.Prelude.{◌≡◌, ◌==◌, ℕ, ◌-◌, ◌*◌, ◌<◌, ◌&&◌, ◌||◌, [], true, false, List, length, slice_index, slice_index_or, slice_set, IfOk, IfErr};
ghost use Rattle.orders.specs.Paths.{EndsBelow, IsCycle};
ghost use Rattle.orders.specs.Table.{width_of, cell};
ghost use Rattle.orders.specs.Faults.{IfCycle};
ghost use Rattle.orders.specs.Search.{AreLinks, IsFresh, IsSearch, state_of, work, entering, finishing};

use crate::bits;
use crate::cycle::cycle_of;
use crate::marks::{is_marked, unset_marks};
use crate::order::OrderFault;
use rh_base::NoMemory;
use std::alloc::Global;

/// For each node the edge to be followed next and whether it was entered and is done; the nodes in
/// work, each linked to the next; for each node the bits of the nodes found behind it.
#[derive(Drop)]
pub struct Search {
    pub cursors: Vec<usize>,
    pub entered: Vec<bool>,
    pub done: Vec<bool>,
    pub stack: Vec<u32>,
    pub words: Vec<u64>,
}

/// A search in which no node was entered; `heads` has for each node the edge to be followed first.
pub fn begin(alloc: Global, n: u32, heads: Vec<usize>) -> Result<Search, NoMemory>
    ensures { IfOk result (λ s. IsFresh n heads.items (state_of s)) }
{
    Ok(Search {
        cursors: heads,
        entered: unset_marks(alloc, n)?,
        done: unset_marks(alloc, n)?,
        stack: Vec::new(alloc),
        words: bits::empty_table(alloc, n)?,
    })
}

fn enter(search: &mut Search, node: u32) -> Result<(), NoMemory>
    requires { node < length search.old.entered.items }
    ensures { IfOk result (λ _. state_of search.new ≡ entering node (state_of search.old)) }
{
    search.stack.push(node)?;
    search.entered[node as usize] = true;
    Ok(())
}

/// The edge that comes next at `top` leads to a node that is done.
fn pass(search: &mut Search, n: u32, nexts: &[usize], top: u32, node: u32)
    requires size { length search.old.words.items ≡ n * width_of n }
    requires cursors { length search.old.cursors.items ≡ n }
    requires top { top < n }
    requires node { node < n }
    requires cursor { 0 < slice_index search.old.cursors.items top }
    requires edge { slice_index search.old.cursors.items top - 1 < length nexts.now }
    ensures cursors { search.new.cursors.items ≡ slice_set search.old.cursors.items top
        (slice_index nexts.now (slice_index search.old.cursors.items top - 1)) }
    ensures entered { search.new.entered.items ≡ search.old.entered.items }
    ensures done { search.new.done.items ≡ search.old.done.items }
    ensures stack { search.new.stack.items ≡ search.old.stack.items }
    ensures size { length search.new.words.items ≡ n * width_of n }
    ensures words { (x y : ℕ) → x < n → y < n → cell (width_of n) search.new.words.items x y
        ≡ (((x == top) && ((y == node) || cell (width_of n) search.old.words.items node y))
        || cell (width_of n) search.old.words.items x y) }
{
    bits::insert_row(search.words.as_mut_slice(), n, top, node);
    bits::insert(search.words.as_mut_slice(), n, top, node);
    let cursor = search.cursors[top as usize];
    search.cursors[top as usize] = nexts[cursor - 1];
}

/// All edges of the node on top have been followed.
fn finish(search: &mut Search, top: u32)
    requires { top < length search.old.done.items }
    ensures { state_of search.new ≡ finishing top (state_of search.old) }
{
    search.done[top as usize] = true;
    search.stack.pop();
}

fn top_of(stack: &[u32]) -> u32
    requires { 0 < length stack.now }
    ensures { slice_index stack.now (length stack.now - 1) ≡ result }
{
    stack[stack.len() - 1]
}

/// Follows one edge of the node on top, or leaves that node.
fn step(
    search: &mut Search,
    n: u32,
    edges: &[(u32, u32)],
    nexts: &[usize],
) -> Result<(), OrderFault>
    requires ends { EndsBelow n edges.now }
    requires links { (heads : List ℕ) × AreLinks n edges.now heads nexts.now }
    requires search { IsSearch n edges.now (state_of search.old) }
    requires work { 0 < length search.old.stack.items }
    ensures ok { IfOk result (λ _. IsSearch n edges.now (state_of search.new)) }
    ensures less { IfOk result (λ _. work (state_of search.new) < work (state_of search.old)) }
    ensures entered { IfOk result (λ _. (k : ℕ) → slice_index_or search.old.entered.items k false ≡ true
        → slice_index_or search.new.entered.items k false ≡ true) }
    ensures cycle { IfErr result (λ e. IfCycle e (IsCycle edges.now)) }
{
    let top = top_of(search.stack.as_slice());
    let cursors = search.cursors.as_slice();
    let cursor = cursors[top as usize];
    if cursor == 0 {
        finish(search, top);
        return Ok(());
    }
    let node = edges[cursor - 1].1;
    if is_marked(search.done.as_slice(), node) {
        pass(search, n, nexts, top, node);
        return Ok(());
    }
    if is_marked(search.entered.as_slice(), node) {
        let alloc = *search.stack.allocator();
        return Err(OrderFault::Cycle(cycle_of(alloc, search.stack.as_slice(), node)?));
    }
    enter(search, node)?;
    Ok(())
}

/// Follows all edges that are reached from `root`.
pub fn explore(
    search: &mut Search,
    n: u32,
    edges: &[(u32, u32)],
    nexts: &[usize],
    root: u32,
) -> Result<(), OrderFault>
    requires ends { EndsBelow n edges.now }
    requires links { (heads : List ℕ) × AreLinks n edges.now heads nexts.now }
    requires search { IsSearch n edges.now (state_of search.old) }
    requires root { root < n }
    requires fresh { slice_index_or search.old.entered.items root false ≡ false }
    requires idle { search.old.stack.items ≡ [] }
    ensures ok { IfOk result (λ _. IsSearch n edges.now (state_of search.new)) }
    ensures idle { IfOk result (λ _. search.new.stack.items ≡ []) }
    ensures root { IfOk result (λ _. slice_index_or search.new.entered.items root false ≡ true) }
    ensures entered { IfOk result (λ _. (k : ℕ) → slice_index_or search.old.entered.items k false ≡ true
        → slice_index_or search.new.entered.items k false ≡ true) }
    ensures cycle { IfErr result (λ e. IfCycle e (IsCycle edges.now)) }
{
    enter(search, root)?;
    while !search.stack.is_empty() {
        step(search, n, edges, nexts)?;
    }
    Ok(())
}
