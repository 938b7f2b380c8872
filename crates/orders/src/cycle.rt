//! The cycle that a search found.
ghost use Rattle.std.specs.Prelude.{◌≡◌, ℕ, ◌-◌, ◌<◌, ◌≤◌, List, length, slice_index, IfOk};
ghost use Rattle.orders.specs.Paths.{HasEdge, IsCycle};
ghost use Rattle.orders.specs.Search.{AreLinked};
ghost use Rattle.fs_semantics.specs.Orders.{times};

use rh_base::{NoMemory, Seq};
use std::alloc::Global;

/// Where the node stands in the list.
fn index_of(list: &[u32], node: u32) -> usize
    requires { 1 ≤ times node list.now }
    ensures within { result < length list.now }
    ensures found { slice_index list.now result ≡ node }
{
    for (k, item) in list.iter().enumerate() {
        if *item == node {
            return k;
        }
    }
    unreachable!()
}

/// Where the least of these nodes stands.
fn index_of_least(list: &[u32]) -> usize
    requires { 0 < length list.now }
    ensures within { result < length list.now }
    ensures least { (k : ℕ) → k < length list.now → slice_index list.now result ≤ slice_index list.now k }
{
    let mut least = 0;
    for (k, node) in list.iter().enumerate() {
        if *node < list[least] {
            least = k;
        }
    }
    least
}

/// The cycle along a list of nodes, each linked to the next, that an edge from the last one back to `node` closes.
pub fn cycle_of(alloc: Global, list: &[u32], node: u32) -> Result<Seq<u32>, NoMemory>
    requires there { 1 ≤ times node list.now }
    requires once { (k : ℕ) → times k list.now ≤ 1 }
    ensures { IfOk result (λ nodes. (edges : List (ℕ × ℕ)) → AreLinked edges list.now
        → HasEdge edges (slice_index list.now (length list.now - 1)) node
        → IsCycle edges nodes) }
{
    let around = &list[index_of(list, node)..];
    let least = index_of_least(around);
    let mut nodes = Vec::new(alloc);
    nodes.extend_from_slice(&around[least..])?;
    nodes.extend_from_slice(&around[..least])?;
    Ok(Seq::from_vec(nodes))
}
