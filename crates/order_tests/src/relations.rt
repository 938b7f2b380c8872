//! Orders from edges: what comes before what, cycles, extensions and walks.

use orders::{Order, OrderFault, exchanges_agree, exchanges_join};
use rh_base::Seq;
use std::alloc::Global;
use std::process::Abort;
use std::test::Fail;
use test_rows::{same, same_number};

/// The numbers behind a word.
fn listed(alloc: Global, word: &str, numbers: &[u32]) -> Result<String, Fail> {
    let mut shown = String::from_str(alloc, word)?;
    for n in numbers {
        let number = format!(in alloc; " {n}")?;
        shown.push_str(number.as_str())?;
    }
    Ok(shown)
}

/// The order of so many nodes that these edges make, or their cycle.
fn made(
    rt: &(impl Abort + AllocGlobal),
    n: u32,
    edges: &[(u32, u32)],
) -> Result<Order, OrderFault> {
    assert!(rt; edges.iter().all(|e| e.0 < n && e.1 < n));
    Order::from_edges(rt.alloc(), n, edges)
}

/// The order of so many nodes that these edges make.
fn ordered(rt: &(impl Abort + AllocGlobal), n: u32, edges: &[(u32, u32)]) -> Result<Order, Fail> {
    match made(rt, n, edges) {
        Ok(order) => Ok(order),
        Err(_) => Err("a cycle, or memory".into()),
    }
}

// ---- how two nodes stand

/// How the first of two nodes stands to the second.
fn relation(order: &Order, a: u32, b: u32) -> &'static str {
    let n = order.count();
    if a >= n || b >= n {
        return "not there";
    }
    match (order.before(a, b), order.free(a, b)) {
        (true, false) => "before",
        (false, true) => "free",
        (false, false) => "neither",
        (true, true) => "both",
    }
}

/// Two nodes, and how the first stands to the second.
type Pair = (u32, u32, &'static str);

fn stands(alloc: Global, order: &Order, pair: &Pair) -> Result<(), Fail> {
    let (a, b, want) = *pair;
    let row = listed(alloc, "nodes", &[a, b])?;
    same(alloc, row.as_str(), relation(order, a, b), want)
}

/// The order has so many nodes, and these stand so.
fn stand(alloc: Global, order: &Order, count: u32, pairs: &[Pair]) -> Result<(), Fail> {
    same_number(alloc, "nodes", order.count() as u64, count as u64)?;
    for pair in pairs {
        stands(alloc, order, pair)?;
    }
    Ok(())
}

/// Of so many nodes with these edges, these stand so.
fn edges_order(
    rt: &(impl Abort + AllocGlobal),
    n: u32,
    edges: &[(u32, u32)],
    pairs: &[Pair],
) -> Result<(), Fail> {
    let order = ordered(rt, n, edges)?;
    stand(rt.alloc(), &order, n, pairs)
}

/// The order with one node left out.
fn without(order: &Order, r: u32) -> Result<Order, Fail> {
    if r < order.count() {
        return Ok(order.without(r)?);
    }
    Err("a node that isn't there".into())
}

/// Of so many nodes with these edges, these stand so without one, by their numbers without it.
fn edges_order_without(
    rt: &(impl Abort + AllocGlobal),
    n: u32,
    edges: &[(u32, u32)],
    left_out: u32,
    pairs: &[Pair],
) -> Result<(), Fail> {
    let order = ordered(rt, n, edges)?;
    let rest = without(&order, left_out)?;
    stand(rt.alloc(), &rest, n.saturating_sub(1), pairs)
}

/// Three of four nodes one before the other; the second edge stands first.
const PATH: &[(u32, u32)] = &[(1, 2), (0, 1)];

#[test]
fn before_follows_paths(rt: HostRuntime) -> Result<(), Fail> {
    edges_order(
        &rt,
        4,
        PATH,
        &[
            (0, 1, "before"),
            (0, 2, "before"),
            (2, 0, "neither"),
            (0, 0, "neither"),
        ],
    )
}

#[test]
fn nodes_without_a_path_are_free(rt: HostRuntime) -> Result<(), Fail> {
    edges_order(
        &rt,
        4,
        PATH,
        &[
            (0, 3, "free"),
            (0, 2, "before"),
            (2, 0, "neither"),
            (3, 3, "neither"),
        ],
    )
}

#[test]
fn one_left_out(rt: HostRuntime) -> Result<(), Fail> {
    edges_order_without(
        &rt,
        3,
        &[(0, 1), (1, 2)],
        1,
        &[(0, 1, "before"), (1, 0, "neither")],
    )
}

/// So many edges, each from a node to the one below it.
fn chain(alloc: Global, count: u32) -> Result<Vec<(u32, u32)>, Fail> {
    let mut edges = Vec::new(alloc);
    for k in 0..count {
        edges.push((k + 1, k))?;
    }
    Ok(edges)
}

#[test]
fn rows_are_longer_than_a_word(rt: HostRuntime) -> Result<(), Fail> {
    let edges = chain(rt.alloc(), 129)?;
    edges_order(
        &rt,
        130,
        &edges,
        &[(129, 0, "before"), (0, 129, "neither"), (128, 63, "before")],
    )
}

#[test]
fn one_left_out_of_long_rows(rt: HostRuntime) -> Result<(), Fail> {
    let edges = chain(rt.alloc(), 129)?;
    edges_order_without(
        &rt,
        130,
        &edges,
        64,
        &[(64, 63, "before"), (63, 64, "neither")],
    )
}

// ---- cycles

/// The nodes of the cycle that these edges make, or how many nodes there are.
fn cycle(rt: &(impl Abort + AllocGlobal), n: u32, edges: &[(u32, u32)]) -> Result<String, Fail> {
    match made(rt, n, edges) {
        Ok(order) => listed(rt.alloc(), "nodes", &[order.count()]),
        Err(OrderFault::Cycle(nodes)) => listed(rt.alloc(), "cycle", nodes.as_slice()),
        Err(OrderFault::Memory(_)) => Err("memory".into()),
    }
}

/// Each row: how many nodes there are, edges between them, and what these make.
type Made = (u32, &'static [(u32, u32)], &'static str);

fn make(rt: &(impl Abort + AllocGlobal), rows: &[Made]) -> Result<(), Fail> {
    for (n, edges, want) in rows {
        let got = cycle(rt, *n, *edges)?;
        same(rt.alloc(), "edges", got.as_str(), *want)?;
    }
    Ok(())
}

#[test]
fn cycles_begin_with_their_least_node(rt: HostRuntime) -> Result<(), Fail> {
    make(
        &rt,
        &[
            (5, &[(4, 3), (3, 1), (0, 3), (1, 2), (2, 3)], "cycle 1 2 3"),
            (3, &[(0, 2), (1, 1)], "cycle 1"),
            (3, &[(0, 2), (1, 2), (0, 1), (0, 1)], "nodes 3"),
        ],
    )
}

// ---- extensions

/// Whether a list is an extension of an order of at most three nodes.
fn extends(order: &Order, list: &[u32]) -> &'static str {
    let n = order.count() as usize;
    let mut marks = [true, false, true];
    if n <= 3 && order.is_extension(list, &mut marks[..n]) {
        return "an extension";
    }
    "none"
}

/// A list of nodes, and what it is of an order.
type List = (&'static [u32], &'static str);

fn extend(alloc: Global, order: &Order, rows: &[List]) -> Result<(), Fail> {
    for (list, want) in rows {
        let row = listed(alloc, "list", *list)?;
        same(alloc, row.as_str(), extends(order, *list), *want)?;
    }
    Ok(())
}

/// Of three nodes, the last of which comes before the first.
#[test]
fn extensions_have_each_node_once_in_order(rt: HostRuntime) -> Result<(), Fail> {
    let order = ordered(&rt, 3, &[(2, 0)])?;
    extend(
        rt.alloc(),
        &order,
        &[
            (&[2, 0, 1], "an extension"),
            (&[1, 2, 0], "an extension"),
            (&[0, 2, 1], "none"),
            (&[2, 0], "none"),
            (&[2, 0, 0], "none"),
            (&[2, 1, 0, 1], "none"),
            (&[2, 3, 0], "none"),
            (&[], "none"),
        ],
    )
}

#[test]
fn the_empty_list_extends_the_empty_order(rt: HostRuntime) -> Result<(), Fail> {
    let order = ordered(&rt, 0, &[])?;
    extend(rt.alloc(), &order, &[(&[], "an extension")])
}

/// The first extension of the order that these edges make is this one.
fn begins(
    rt: &(impl Abort + AllocGlobal),
    n: u32,
    edges: &[(u32, u32)],
    want: &str,
) -> Result<(), Fail> {
    let order = ordered(rt, n, edges)?;
    let first = order.first_extension()?;
    let got = listed(rt.alloc(), "first", first.as_slice())?;
    same(rt.alloc(), "first extension", got.as_str(), want)
}

#[test]
fn the_first_extension_takes_the_least(rt: HostRuntime) -> Result<(), Fail> {
    begins(&rt, 5, &[(4, 0), (3, 1), (4, 3)], "first 2 4 0 3 1")
}

#[test]
fn without_arrows_the_first_extension_counts_up(rt: HostRuntime) -> Result<(), Fail> {
    begins(&rt, 3, &[], "first 0 1 2")
}

// ---- walks

/// The orders on the walk from one order of three nodes to another.
fn walked(order: &Order, from: &[u32], to: &[u32]) -> Result<Seq<Seq<u32>>, Fail> {
    let mut marks = [false; 3];
    if order.count() == 3
        && order.is_extension(from, &mut marks)
        && order.is_extension(to, &mut marks)
    {
        return Ok(order.walk(from, to)?);
    }
    Err("orders that aren't allowed".into())
}

/// The orders on the way from one order of three nodes with these edges to another, in turn.
#[derive(Clone, Copy)]
struct Way {
    edges: &'static [(u32, u32)],
    from: &'static [u32],
    to: &'static [u32],
}

/// So many orders stand on the way.
fn has_orders(rt: &(impl Abort + AllocGlobal), way: &Way, count: u64) -> Result<(), Fail> {
    let order = ordered(rt, 3, way.edges)?;
    let orders = walked(&order, way.from, way.to)?;
    same_number(rt.alloc(), "orders", orders.len() as u64, count)
}

/// This order stands at that place of the way.
fn has_order(
    rt: &(impl Abort + AllocGlobal),
    way: &Way,
    place: usize,
    want: &str,
) -> Result<(), Fail> {
    let order = ordered(rt, 3, way.edges)?;
    let orders = walked(&order, way.from, way.to)?;
    match orders.as_slice().get(place) {
        Some(at) => {
            let got = listed(rt.alloc(), "order", at.as_slice())?;
            same(rt.alloc(), "on the way", got.as_str(), want)
        }
        None => Err("a place behind the way".into()),
    }
}

#[test]
fn walks_exchange_neighbours(rt: HostRuntime) -> Result<(), Fail> {
    let way = Way {
        edges: &[],
        from: &[0, 1, 2],
        to: &[2, 1, 0],
    };
    has_orders(&rt, &way, 4)
}

#[test]
fn a_walk_to_where_it_begins_has_one_order(rt: HostRuntime) -> Result<(), Fail> {
    let way = Way {
        edges: &[],
        from: &[2, 1, 0],
        to: &[2, 1, 0],
    };
    has_orders(&rt, &way, 1)
}

/// The last of three nodes goes to the front, past two of which one comes before the other.
const FORWARD: Way = Way {
    edges: &[(0, 1)],
    from: &[0, 1, 2],
    to: &[2, 0, 1],
};

#[test]
fn a_walk_keeps_the_arrows(rt: HostRuntime) -> Result<(), Fail> {
    has_orders(&rt, &FORWARD, 3)
}

#[test]
fn the_second_order_of_a_walk(rt: HostRuntime) -> Result<(), Fail> {
    has_order(&rt, &FORWARD, 1, "order 0 2 1")
}

#[test]
fn the_last_order_of_a_walk(rt: HostRuntime) -> Result<(), Fail> {
    has_order(&rt, &FORWARD, 2, "order 2 0 1")
}

#[test]
fn laws_are_called() {
    exchanges_join();
    exchanges_agree::<u32>();
}
