//! Marks, one for each number.

ghost use Rattle.std.specs.Prelude.{◌≡◌, ◌<◌, ◌||◌, ℕ, false, length, IfOk, slice_index_or};
ghost use Rattle.std.specs.List.{AllByRecursion};
ghost use Rattle.commute_prune.specs.Numbers.{has, any_marked};

use rh_base::NoMemory;
use std::alloc::Global;

/// Marks at these numbers too.
pub(crate) fn mark_all(marks: &mut [bool], ns: &[usize])
    requires { AllByRecursion (λ n. n < length marks.old) ns.now }
    ensures long { length marks.new ≡ length marks.old }
    ensures marks { (n : ℕ) → slice_index_or marks.new n false ≡ (slice_index_or marks.old n false || has n ns.now) }
{
    for n in ns {
        marks[*n] = true;
    }
}

/// No marks.
pub(crate) fn unmarked(alloc: Global, count: usize) -> Result<Vec<bool>, NoMemory>
    ensures long { IfOk result (λ marks. length marks.items ≡ count) }
    ensures marks { IfOk result (λ marks. (n : ℕ) → slice_index_or marks.items n false ≡ false) }
{
    Ok(vec![in alloc; false; count]?)
}

/// Marks at these numbers, and nowhere else.
pub(crate) fn marked(alloc: Global, count: usize, ns: &[usize]) -> Result<Vec<bool>, NoMemory>
    requires { AllByRecursion (λ n. n < count) ns.now }
    ensures { IfOk result (λ marks. (n : ℕ) → slice_index_or marks.items n false ≡ has n ns.now) }
{
    let mut marks = unmarked(alloc, count)?;
    mark_all(&mut marks, ns);
    Ok(marks)
}

/// Whether this number has a mark.
pub(crate) fn is_marked(marks: &[bool], n: usize) -> bool
    ensures { result ≡ slice_index_or marks.now n false }
{
    match marks.get(n) {
        Some(mark) => *mark,
        None => false,
    }
}

/// Whether one of these numbers has a mark.
pub(crate) fn any_marked(marks: &[bool], ns: &[usize]) -> bool
    ensures { result ≡ any_marked marks.now ns.now }
{
    for n in ns {
        if is_marked(marks, *n) {
            return true;
        }
    }
    false
}
