//! Marks, one for each node.
ghost use Rattle.std.specs.Prelude.{◌≡◌, ℕ, ◌<◌, ◌↔◌, false, true, length, slice_index_or, IfOk, IsTrue};
ghost use Rattle.orders.specs.Counting.{EachOnce};

use rh_base::NoMemory;
use std::alloc::Global;

/// A mark for each of n nodes, none of them set.
pub fn unset_marks(alloc: Global, n: u32) -> Result<Vec<bool>, NoMemory>
    ensures size { IfOk result (λ marks. length marks.items ≡ n) }
    ensures unset { IfOk result (λ marks. (k : ℕ) → slice_index_or marks.items k false ≡ false) }
{
    Ok(vec![in alloc; false; n as usize]?)
}

/// Whether the mark of a node is set.
pub fn is_marked(marks: &[bool], node: u32) -> bool
    requires { node < length marks.now }
    ensures { result ≡ slice_index_or marks.now node false }
{
    marks[node as usize]
}

fn clear(marks: &mut [bool])
    ensures { (k : ℕ) → slice_index_or marks.new k false ≡ false }
{
    for mark in marks.iter_mut() {
        *mark = false;
    }
}

fn all_set(marks: &[bool]) -> bool
    ensures { IsTrue result ↔ ((k : ℕ) → k < length marks.now → slice_index_or marks.now k false ≡ true) }
{
    for mark in marks {
        if !*mark {
            return false;
        }
    }
    true
}

/// Whether the list has each number below the count of marks exactly once, and no other.
pub fn each_once(list: &[u32], marks: &mut [bool]) -> bool
    ensures { IsTrue result ↔ EachOnce (length marks.old) list.now }
{
    clear(marks);
    for item in list {
        let node = *item as usize;
        if node >= marks.len() {
            return false;
        }
        if marks[node] {
            return false;
        }
        marks[node] = true;
    }
    all_set(marks)
}
