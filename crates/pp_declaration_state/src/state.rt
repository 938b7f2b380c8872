//! The state between two statements.
//!
//! It carries its limits, which are chosen with the first state and never change, so each refusal stays where it was. It lends
//! no catalog while statements run: what is asked of it then it answers itself (`get`, `count`, `place_of`), and `finish` gives
//! the catalog, without relations.

ghost use Rattle.std.specs.Prelude.{◌≡◌, ◌∷◌, [], length, IfOk, OnOk};
ghost use Rattle.pp_eval.specs.Evaluating.{AnswersBy};
ghost use Rattle.catalog_semantics.specs.States.{added, bound, place_of, tied, collected};
ghost use Rattle.catalog_semantics.specs.Catalogs.{first_state};

use crate::adding::as_added;
use crate::ran::Ran;
use catalog::Catalog;
use catalog_semantics::{Collector, Default, Pending, Resource, Tie};
use host_limits::Limits;
use pp_eval::Scopes;
use pp_value::{Ref, Value};
use rh_base::{Fault, NoMemory, Seq};
use std::alloc::Global;
use std::marker::Model;

/// What stands between two statements.
#[derive(Drop)]
pub struct State {
    pub(crate) limits: Limits,
    pub(crate) running: Option<u32>,
    pub(crate) main_has_ended: bool,
    pub(crate) scopes: Scopes,
    pub(crate) defaults: Seq<Default>,
    pub(crate) catalog: Catalog,
    pub(crate) ran: Ran,
    pub(crate) ties: Seq<Tie>,
    pub(crate) collectors: Seq<Collector>,
    pub(crate) pending: Seq<Pending>,
    pub(crate) alloc: Global,
}

impl Model for State {
    ghost use Rattle.std.specs.Coded.{codes};
    ghost use Rattle.std.specs.Prelude.{◌≡◌, []};
    ghost use Rattle.pp_value.specs.contracts.value.Value as value;
    ghost use Rattle.catalog_semantics.specs.contracts.state.Wish as wish;
    ghost use Rattle.catalog_semantics.specs.declared.state.State.{State as Record};
    ghost use Rattle.pp_declaration_state.specs.Defaulting.{AreApart};

    ghost Value = { Record };

    ghost coded = { Prim.hlevel (codes, value.the_row.coded, wish.the_row.coded) };

    ghost view = { λ s. record { limits = s.limits; running = s.running; main_has_ended = s.main_has_ended; scopes = s.scopes; defaults = s.defaults; resources = s.catalog.resources; ran = s.ran; holdings = s.catalog.holdings; ties = s.ties; collectors = s.collectors; pending = s.pending } };

    ghost invariant = { λ s. (s.catalog.relations ≡ []) × AreApart s.defaults };
}

impl State {
    /// The state before any statement, with the facts at the top, and within limits.
    pub fn new(alloc: Global, facts: &Value, limits: Limits) -> Result<State, NoMemory>
        ensures { IfOk result (λ s. s ≡ first_state facts.now limits) }
    {
        let scopes = Scopes::new(alloc, facts)?;
        Ok(State {
            limits,
            running: None,
            main_has_ended: false,
            scopes,
            defaults: Seq::new(alloc),
            catalog: Catalog::new(alloc),
            ran: Ran::new(alloc),
            ties: Seq::new(alloc),
            collectors: Seq::new(alloc),
            pending: Seq::new(alloc),
            alloc,
        })
    }

    /// How many resources may be declared, and how many of them may be real and plain.
    pub fn limits(&self) -> Limits
        ensures { result ≡ self.now.limits }
    {
        self.limits
    }

    pub fn scopes(&self) -> &Scopes
        ensures { result.now ≡ self.now.scopes }
    {
        &self.scopes
    }

    /// The place of the class or defined resource whose body runs.
    pub fn running(&self) -> Option<u32>
        ensures { result ≡ self.now.running }
    {
        self.running
    }

    /// Binds a name, which stands at a place, in the current scope.
    pub fn bind(&mut self, at: u32, name: &str, value: Value) -> Result<(), Fault>
        ensures { AnswersBy (λ done. self.new) (bound at name.now value self.old) result }
    {
        self.scopes.bind_or_refuse(at, name, value)
    }

    /// Adds a resource.
    pub fn add(&mut self, r: Resource) -> Result<(), Fault>
        ensures { AnswersBy (λ done. self.new) (added r self.old) result }
    {
        let r = as_added(self.alloc, self.main_has_ended, self.defaults.as_slice(), r)?;
        self.catalog.add(r, self.limits)?;
        Ok(())
    }

    /// The place of a reference, found by its hash.
    pub fn place_of(&self, r: &Ref) -> Option<u32>
        ensures { result ≡ place_of r.now self.now.resources }
    {
        self.catalog.find(r)
    }

    pub fn count(&self) -> u32
        ensures { result ≡ length self.now.resources }
    {
        self.catalog.count()
    }

    pub fn tie(&mut self, tie: Tie) -> Result<(), NoMemory>
        ensures { OnOk result (self.new ≡ tied (tie ∷ []) self.old) }
    {
        self.ties.push(tie)
    }

    pub fn collect(&mut self, c: Collector) -> Result<(), NoMemory>
        ensures { OnOk result (self.new ≡ collected c self.old) }
    {
        self.collectors.push(c)
    }

    pub fn collectors(&self) -> &Seq<Collector>
        ensures { result.now ≡ self.now.collectors }
    {
        &self.collectors
    }

    pub fn pending(&self) -> &Seq<Pending>
        ensures { result.now ≡ self.now.pending }
    {
        &self.pending
    }

    pub fn ties(&self) -> &Seq<Tie>
        ensures { result.now ≡ self.now.ties }
    {
        &self.ties
    }
}
