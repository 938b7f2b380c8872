//! Literals: a variable or its negation, which is called its opposite. In their order variables rise, and the positive one is first.

ghost use Rattle.std.specs.Prelude.{◌≡◌};
ghost use Rattle.std.specs.Ordering.{nat_cmp, on, as_partial_cmp};
ghost use Rattle.std.specs.Cmp.{nat_cmp_total};

use std::cmp::Ordering;

/// A variable, which is counted from 1, or its opposite.
#[derive(Clone, Copy, Debug, PartialEq, Eq, Hash)]
pub struct Lit {
    pub var: u64,
    pub positive: bool,
}

impl Lit {
    ghost use Rattle.cnf.specs.Literals.{opposite};

    /// The same variable with the other sign.
    pub fn opposite(self) -> Lit
        ensures { result ≡ opposite self }
    {
        Lit {
            var: self.var,
            positive: !self.positive,
        }
    }
}

/// By variable, the positive literal first.
impl Ord for Lit {
    ghost use Rattle.cnf.specs.Literals.{lit_place};
    ghost use Rattle.std.proofs.Common.{rules};
    ghost use Rattle.std.specs.Cmp.Rules.{comparing};
    ghost use Rattle.cnf.specs.LitOrder.{ties_are_same};

    ghost cmp = { on lit_place nat_cmp };

    ghost total = { Prim.search (comparing, rules) };

    ghost matches_partial_cmp = { Prim.search (comparing, rules) };

    ghost matches_eq = { Prim.search (comparing, rules) };

    fn cmp(&self, other: &Lit) -> Ordering {
        match self.var.cmp(&other.var) {
            Ordering::Equal => other.positive.cmp(&self.positive),
            order => order,
        }
    }
}

impl PartialOrd for Lit {
    ghost use Rattle.cnf.specs.Literals.{lit_place};
    ghost use Rattle.std.proofs.Common.{rules};
    ghost use Rattle.std.specs.Cmp.Rules.{comparing};
    ghost use Rattle.std.specs.Cmp.{partial_order_from_own_ties};

    ghost partial_cmp = { as_partial_cmp (on lit_place nat_cmp) };

    ghost laws = { partial_order_from_own_ties (Prim.search (comparing, rules)) (Prim.search (comparing, rules)) };

    fn partial_cmp(&self, other: &Lit) -> Option<Ordering> {
        Some(self.cmp(other))
    }
}
