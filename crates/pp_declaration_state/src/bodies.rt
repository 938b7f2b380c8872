//! How bodies begin and end, and defaults.

ghost use Rattle.std.specs.Prelude.{◌≡◌, ◌++◌, option_map, IfOk, OnOk};
ghost use Rattle.pp_value.specs.Keys.{HasDistinctKeys};
ghost use Rattle.pp_eval.specs.Scoping.{class_scope, defined_scope, node_scope_new, left, current_scope, IsInner};
ghost use Rattle.catalog_semantics.specs.States.{defaults_of};
ghost use Rattle.catalog_semantics.specs.Declaring.{entering, begun};
ghost use Rattle.catalog_semantics.specs.Catalogs.{with_default};
ghost use Rattle.pp_declaration_state.specs.Defaulting.{names_noted};

use crate::defaults::names_of;
use crate::state::State;
use catalog_semantics::Default;
use pp_value::{Keyed, Pairs};
use rh_base::{NoMemory, Text};

impl State {
    /// Enters the scope of a class, which inherits the parent's, if that has one.
    pub fn enter_class(&mut self, name: &str, parent: Option<&str>) -> Result<(), NoMemory>
        ensures { OnOk result (self.new ≡ entering
            (class_scope self.old.scopes.0 name.now (option_map (λ p. p.now) parent.entry)) self.old) }
    {
        self.scopes.enter_class(name, parent)
    }

    /// Enters the scope of a defined resource.
    pub fn enter_defined(&mut self) -> Result<(), NoMemory>
        ensures { OnOk result (self.new ≡ entering defined_scope self.old) }
    {
        self.scopes.enter_defined()
    }

    /// Enters the scope of the node, which stays open.
    pub fn enter_node(&mut self) -> Result<(), NoMemory>
        ensures { OnOk result (self.new ≡ entering node_scope_new self.old) }
    {
        self.scopes.enter_node()
    }

    /// The body of the resource at a place begins.
    pub fn begin_body(&mut self, place: u32)
        ensures { self.new ≡ begun place self.old }
    {
        self.running = Some(place);
    }

    /// A body has ended, and what ran before runs on, in the scope that was current before.
    pub fn end_body(&mut self, before: Option<u32>)
        requires { IsInner (current_scope self.old.scopes) }
        ensures { self.new ≡ record self.old { running = before; scopes = left self.old.scopes } }
    {
        self.running = before;
        self.scopes.leave();
    }

    /// The names of the attributes that defaults gave to a type.
    pub fn default_names(&self, kind: &str) -> Result<Keyed<bool>, NoMemory>
        ensures names { IfOk result (λ names. names ≡ names_noted kind.now self.now.defaults) }
        ensures distinct { HasDistinctKeys (defaults_of kind.now self.now.defaults) }
    {
        names_of(self.alloc, kind, self.defaults.as_slice())
    }

    /// Gives defaults to a type, none of which an earlier default gave to it.
    #[tactic(auto, using(crate::proofs::DefaultLaws::apart_still))]
    pub fn add_default(&mut self, kind: Text, attributes: Pairs) -> Result<(), NoMemory>
        requires { HasDistinctKeys (defaults_of kind self.old.defaults ++ attributes) }
        ensures { OnOk result (self.new ≡ with_default kind attributes self.old) }
    {
        self.defaults.push(Default { kind, attributes })
    }
}
