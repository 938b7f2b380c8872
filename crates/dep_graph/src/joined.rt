//! The edges of relations. A relation of two large sides goes through a node of its own, so that it costs their sum and not
//! their product; no clause speaks of that node.

ghost use Rattle.std.specs.Prelude.{◌≡◌, ◌++◌, map, IfOk, OnOk};
ghost use Rattle.dep_graph.specs.Numbered.{crossing, through, is_wide, link_edges, hub_after, edges_of_links, hubs_after};

use crate::links::Link;
use rh_base::{NoMemory, Seq};

/// A side with no more nodes than this is small: all its edges to the other side cost little.
pub const FEW: usize = 16;

/// Adds edges from one node to some.
fn push_from(a: u32, to: &[u32], edges: &mut Seq<(u32, u32)>) -> Result<(), NoMemory>
    ensures { OnOk result (edges.new ≡ edges.old ++ map (λ b. (a, b)) to.now) }
{
    for b in to {
        edges.push((a, *b))?;
    }
    Ok(())
}

/// Adds edges from some nodes to one.
fn push_to(from: &[u32], b: u32, edges: &mut Seq<(u32, u32)>) -> Result<(), NoMemory>
    ensures { OnOk result (edges.new ≡ edges.old ++ map (λ a. (a, b)) from.now) }
{
    for a in from {
        edges.push((*a, b))?;
    }
    Ok(())
}

/// Adds edges from each of some nodes to each of others.
fn push_crossing(from: &[u32], to: &[u32], edges: &mut Seq<(u32, u32)>) -> Result<(), NoMemory>
    ensures { OnOk result (edges.new ≡ edges.old ++ crossing from.now to.now) }
{
    for a in from {
        push_from(*a, to, edges)?;
    }
    Ok(())
}

/// Adds edges from some nodes to one of their own, and from this to others.
fn push_through(
    hub: u32,
    from: &[u32],
    to: &[u32],
    edges: &mut Seq<(u32, u32)>,
) -> Result<(), NoMemory>
    ensures { OnOk result (edges.new ≡ edges.old ++ through hub from.now to.now) }
{
    push_to(from, hub, edges)?;
    push_from(hub, to, edges)
}

fn is_wide(link: &Link) -> bool
    ensures { result ≡ is_wide link.now }
{
    let from = link.from.len() > FEW;
    let to = link.to.len() > FEW;
    from && to
}

/// Adds the edges of a relation, and answers which number is free then.
fn push_link(link: &Link, hub: u32, edges: &mut Seq<(u32, u32)>) -> Result<u32, NoMemory>
    ensures edges { OnOk result (edges.new ≡ edges.old ++ link_edges hub link.now) }
    ensures hub { IfOk result (λ next. next ≡ hub_after hub link.now) }
{
    let from = link.from.as_slice();
    let to = link.to.as_slice();
    if !is_wide(link) {
        push_crossing(from, to, edges)?;
        return Ok(hub);
    }
    // More nodes than there are numbers have no room.
    let Some(next) = hub.checked_add(1) else {
        return Err(NoMemory);
    };
    push_through(hub, from, to, edges)?;
    Ok(next)
}

/// Adds the edges of relations, and answers which number is free then.
pub fn push_links(links: &[Link], first: u32, edges: &mut Seq<(u32, u32)>) -> Result<u32, NoMemory>
    ensures edges { OnOk result (edges.new ≡ edges.old ++ edges_of_links first links.now) }
    ensures hub { IfOk result (λ next. next ≡ hubs_after first links.now) }
{
    let mut hub = first;
    for link in links {
        hub = push_link(link, hub, edges)?;
    }
    Ok(hub)
}
