//! Where nodes stand in an order, and neighbours that stand the other way round in another one.
ghost use Rattle.std.specs.Prelude.{◌≡◌, ℕ, ◌+◌, ◌<◌, ◌≤◌, length, slice_index, IfOk, MatchOption};
ghost use Rattle.orders.specs.Counting.{EachOnce};
ghost use Rattle.orders.specs.Exchanges.{place};

use rh_base::NoMemory;
use std::alloc::Global;

/// For each node its place in the order.
pub fn places(alloc: Global, n: u32, order: &[u32]) -> Result<Vec<usize>, NoMemory>
    requires { EachOnce n order.now }
    ensures len { IfOk result (λ places. length places.items ≡ n) }
    ensures places { IfOk result (λ places. (k : ℕ) → k < n → slice_index places.items k ≡ place k order.now) }
{
    let mut places = vec![in alloc; 0; n as usize]?;
    for (k, node) in order.iter().enumerate() {
        places[*node as usize] = k;
    }
    Ok(places)
}

/// The first place whose node stands behind its next one by these places.
pub fn first_turned(order: &[u32], places: &[usize]) -> Option<usize>
    requires { (k : ℕ) → k < length order.now → slice_index order.now k < length places.now }
    ensures { MatchOption result
        ((k : ℕ) → k + 1 < length order.now
        → slice_index places.now (slice_index order.now k)
        ≤ slice_index places.now (slice_index order.now (k + 1)))
        (λ k. (k + 1 < length order.now)
        × (slice_index places.now (slice_index order.now (k + 1))
        < slice_index places.now (slice_index order.now k))) }
{
    for k in 1..order.len() {
        let left = places[order[k - 1] as usize];
        let right = places[order[k] as usize];
        if right < left {
            return Some(k - 1);
        }
    }
    None
}
