//! Definitions in order, found by their names.

ghost use Rattle.std.specs.Prelude.{◌≡◌, ◌∷◌, ◌++◌, [], None, length, option_map, OnOk, OnErr};
ghost use Rattle.catalog_semantics.specs.Sites.{definition_of, is_defined};

use crate::definition::Definition;
use pp_value::Keyed;
use rh_base::NoMemory;
use std::alloc::Global;
use std::marker::Model;

/// Definitions, of which no two have one name.
#[derive(Drop)]
pub struct Definitions<'m> {
    items: Keyed<Definition<'m>>,
    alloc: Global,
}

impl<'m> Model for Definitions<'m> {
    ghost use Rattle.std.specs.Prelude.{List, map};
    ghost use Rattle.catalog_semantics.specs.Sites.{Definition as D};
    ghost use Rattle.std.specs.Coded.{codes};
    ghost use Rattle.pp_value.specs.contracts.value.Value as value;
    ghost use Rattle.pp_syntax.specs.contracts.tree.TypeName as kind;
    ghost use Rattle.pp_syntax.specs.contracts.tree.Expr as expr;
    ghost use Rattle.pp_syntax.specs.contracts.tree.Stmt as stmt;
    ghost use Rattle.pp_definitions.specs.Places.{AreNamed};

    ghost Value = { List D };

    ghost coded = { Prim.hlevel (codes, value.the_row.coded, kind.the_row.coded, expr.the_row.coded, stmt.the_row.coded) };

    ghost view = { λ s. map (λ p. p.1) s.items };

    ghost invariant = { λ s. AreNamed s.items };
}

impl<'m> Definitions<'m> {
    pub fn new(alloc: Global) -> Definitions<'m>
        ensures { result ≡ [] }
    {
        Definitions {
            items: Keyed::new(alloc),
            alloc,
        }
    }

    #[tactic(auto, using(crate::proofs::PlaceLaws::counted))]
    pub fn len(&self) -> usize
        ensures { result ≡ length self.now }
    {
        self.items.len()
    }

    /// The definition of a name, found by its hash.
    #[tactic(auto, using(crate::proofs::PlaceLaws::found))]
    pub fn find(&self, name: &str) -> Option<&Definition<'m>>
        ensures { option_map (λ d. d.now) result ≡ definition_of name.now self.now }
    {
        self.items.find(name)
    }

    pub fn has(&self, name: &str) -> bool
        ensures { result ≡ is_defined name.now self.now }
    {
        self.find(name).is_some()
    }

    /// Adds a definition of a new name.
    #[tactic(auto, using(crate::proofs::PlaceLaws::is_new, crate::proofs::PlaceLaws::named_still, crate::proofs::PlaceLaws::one_more))]
    pub fn add(&mut self, d: Definition<'m>) -> Result<(), NoMemory>
        requires { definition_of d.name self.old ≡ None }
        ensures ok { OnOk result (self.new ≡ self.old ++ d.entry ∷ []) }
        ensures err { OnErr result (self.new ≡ self.old) }
    {
        let name = d.name().copy(self.alloc)?;
        self.items.push(name, d)
    }
}
