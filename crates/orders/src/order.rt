//! Strict orders, and what is asked of them. Contracts see the count of nodes and a table of truth values, of which they know
//! that it is a strict order; rows of bits are the representation's matter. Reachability is a path of at least one edge.

ghost use Rattle.std.specs.Prelude.{◌≡◌, ℕ, ◌+◌, ◌-◌, ◌<◌, ◌↔◌, IfOk, IfErr, OnOk, IsTrue};
ghost use Rattle.orders.specs.Paths.{EndsBelow, Path, IsCycle};
ghost use Rattle.orders.specs.Relation.{comes, Comes, IsStrictOrder, old_number};
ghost use Rattle.fs_semantics.specs.Orders.{IsFree};
ghost use Rattle.orders.specs.declared.order.OrderFault.TheVariants.{Memory};

use crate::bits;
use crate::chains::link_edges;
use crate::marks::is_marked;
use crate::search::{begin, explore};
use rh_base::{NoMemory, Seq};
use std::alloc::Global;
use std::marker::Model;

/// Why edges make no order: a node comes before itself, along these nodes; or memory was refused.
#[derive(Debug, Drop)]
pub enum OrderFault {
    Cycle(Seq<u32>),
    Memory(NoMemory),
}

impl From<NoMemory> for OrderFault {
    ghost from_gives = { λ m e. e ≡ Memory m };

    fn from(m: NoMemory) -> Self {
        OrderFault::Memory(m)
    }
}

/// A strict partial order of the nodes 0, 1, .. below a count, which contracts see as a finite relation.
#[derive(Debug, Drop)]
pub struct Order {
    count: u32,
    words: Vec<u64>,
}

impl Model for Order {
    ghost use Rattle.orders.specs.Relation.{Relation};
    ghost use Rattle.orders.specs.Table.{relation_of, IsOrderTable};

    ghost Value = { Relation };

    ghost view = { λ s. relation_of s.count s.words.items };

    ghost invariant = { λ s. IsOrderTable s.count s.words.items };
}

impl Order {
    ghost use Rattle.orders.specs.Faults.{IfCycle};

    /// The order that edges between n nodes make: a comes before b where a path leads from a to b.
    pub fn from_edges(alloc: Global, n: u32, edges: &[(u32, u32)]) -> Result<Order, OrderFault>
        requires { EndsBelow n edges.now }
        ensures count { IfOk result (λ order. order.count ≡ n) }
        ensures before { IfOk result (λ order. (a b : ℕ) → Comes order a b ↔ Path edges.now a b) }
        // A cycle is answered exactly where a node reaches itself. Beside it there is want of memory alone.
        ensures acyclic { OnOk result ((a : ℕ) → Path edges.now a a → ⊥) }
        ensures cycle { IfErr result (λ e. IfCycle e (IsCycle edges.now)) }
        ensures circle { IfErr result (λ e. IfCycle e (λ nodes. (a : ℕ) × Path edges.now a a)) }
    {
        let links = link_edges(alloc, n, edges)?;
        let mut search = begin(alloc, n, links.heads)?;
        for root in 0..n {
            if !is_marked(search.entered.as_slice(), root) {
                explore(&mut search, n, edges, links.nexts.as_slice(), root)?;
            }
        }
        Ok(Order {
            count: n,
            words: search.words,
        })
    }

    /// How many nodes there are.
    pub fn count(&self) -> u32
        ensures count { result ≡ self.now.count }
        ensures ordered { IsStrictOrder self.now }
    {
        self.count
    }

    /// Whether a comes before b.
    pub fn before(&self, a: u32, b: u32) -> bool
        requires a { a < self.now.count }
        requires b { b < self.now.count }
        ensures { IsTrue result ↔ Comes self.now a b }
    {
        self.comes(a, b)
    }

    /// Whether the two differ and may stand in either order.
    pub fn free(&self, a: u32, b: u32) -> bool
        requires a { a < self.now.count }
        requires b { b < self.now.count }
        ensures { IsTrue result ↔ IsFree (Comes self.now) a b }
    {
        let forth = self.before(a, b);
        let back = self.before(b, a);
        a != b && !forth && !back
    }

    /// The order of the other nodes, those above r numbered one lower.
    pub fn without(&self, r: u32) -> Result<Order, NoMemory>
        requires { r < self.now.count }
        ensures count { IfOk result (λ order. order.count + 1 ≡ self.now.count) }
        ensures before { IfOk result (λ order. (a b : ℕ) → a < order.count → b < order.count
            → Comes order a b ↔ Comes self.now (old_number r a) (old_number r b)) }
    {
        let n = self.count - 1;
        let mut words = bits::empty_table(self.alloc(), n)?;
        for a in 0..n {
            bits::copy_row(self.words.as_slice(), r, words.as_mut_slice(), n, a);
        }
        Ok(Order { count: n, words })
    }

    /// Whether a comes before b, as the table has it.
    pub(crate) fn comes(&self, a: u32, b: u32) -> bool
        requires a { a < self.now.count }
        requires b { b < self.now.count }
        ensures { result ≡ comes self.now a b }
    {
        bits::is_set(self.words.as_slice(), self.count, a, b)
    }

    pub(crate) fn alloc(&self) -> Global {
        *self.words.allocator()
    }
}
