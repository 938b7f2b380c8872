//! What a question is asked of: programs with what orders them and the domain of their paths. That these belong together is
//! said once, here, and not by each function that is lent them.

ghost use Rattle.std.specs.Prelude.{◌≡◌, ◌↔◌, ◌<◌, IsTrue};
ghost use Rattle.fs_semantics.specs.Orders.{IsFree};
ghost use Rattle.orders.specs.Relation.{Comes, IsStrictOrder};
ghost use Rattle.order_encode.specs.Plans.{IsPlan};

use fs_lang::Program;
use orders::Order;
use path_domain::Domain;
use std::marker::Model;

/// Programs, which of them come before which, and a domain that has their paths and contents.
#[derive(Drop)]
pub(crate) struct Plan<'a> {
    pub domain: &'a Domain,
    pub programs: &'a [Program],
    pub order: &'a Order,
}

impl<'a> Model for Plan<'a> {
    ghost use Rattle.std.specs.Coded.{codes};
    ghost use Rattle.fs_lang.specs.contracts.program.Program as program;
    ghost use Rattle.order_encode.specs.Plans.{Planned, IsPlan};

    ghost Value = { Planned };

    ghost coded = { Prim.hlevel (codes, program.the_row.coded) };

    ghost view = { λ p. record { domain = p.domain.now; programs = p.programs.now; order = p.order.now } };

    ghost invariant = { λ p. IsPlan (record { domain = p.domain.now; programs = p.programs.now; order = p.order.now }) };
}

/// Programs, the order in which they run, and a domain that has their paths and contents.
#[derive(Drop)]
pub(crate) struct Schedule<'a> {
    pub domain: &'a Domain,
    pub programs: &'a [Program],
    pub order: &'a [u32],
}

impl<'a> Model for Schedule<'a> {
    ghost use Rattle.std.specs.Coded.{codes};
    ghost use Rattle.fs_lang.specs.contracts.program.Program as program;
    ghost use Rattle.order_encode.specs.Plans.{Scheduled, IsSchedule};

    ghost Value = { Scheduled };

    ghost coded = { Prim.hlevel (codes, program.the_row.coded) };

    ghost view = { λ s. record { domain = s.domain.now; programs = s.programs.now; order = s.order.now } };

    ghost invariant = { λ s. IsSchedule (record { domain = s.domain.now; programs = s.programs.now; order = s.order.now }) };
}

/// Two nodes.
#[derive(Clone, Copy, Drop)]
pub(crate) struct Pair {
    pub one: u32,
    pub other: u32,
}

impl<'a> Plan<'a> {
    /// How many nodes there are, one for each program.
    pub(crate) fn count(&self) -> u32
        ensures count { result ≡ self.now.order.count }
        ensures ordered { IsStrictOrder self.now.order }
        ensures plan { IsPlan self.now }
    {
        self.order.count()
    }

    /// Whether neither of two nodes comes before the other.
    pub(crate) fn free(&self, nodes: Pair) -> bool
        requires one { nodes.one < self.now.order.count }
        requires other { nodes.other < self.now.order.count }
        ensures { IsTrue result ↔ IsFree (Comes self.now.order) nodes.one nodes.other }
    {
        self.order.free(nodes.one, nodes.other)
    }
}
