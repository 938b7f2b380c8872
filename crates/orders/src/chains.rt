//! The edges of each node as a chain through the list of all edges: adjacency lists in two flat arrays, made in one pass.
ghost use Rattle.std.specs.Prelude.{IfOk};
ghost use Rattle.orders.specs.Paths.{EndsBelow};
ghost use Rattle.orders.specs.Search.{AreLinks};

use rh_base::NoMemory;
use std::alloc::Global;

/// `heads[a]` is one more than the index of the last edge that begins at a, or 0; `nexts[k]` that of the
/// last edge ahead of edge k that begins where edge k does.
#[derive(Drop)]
pub struct Links {
    pub heads: Vec<usize>,
    pub nexts: Vec<usize>,
}

/// The chains of these edges between n nodes.
pub fn link_edges(alloc: Global, n: u32, edges: &[(u32, u32)]) -> Result<Links, NoMemory>
    requires { EndsBelow n edges.now }
    ensures { IfOk result (λ l. AreLinks n edges.now l.heads.items l.nexts.items) }
{
    let mut heads = vec![in alloc; 0; n as usize]?;
    let mut nexts = Vec::new(alloc);
    for (k, edge) in edges.iter().enumerate() {
        let from = edge.0 as usize;
        nexts.push(heads[from])?;
        heads[from] = k + 1;
    }
    Ok(Links { heads, nexts })
}
