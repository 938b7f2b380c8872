//! The catalog and its calls. Members of a container are found by one scan of the resources, of which there are at most 16,384.

ghost use Rattle.std.specs.Prelude.{◌≡◌, ◌<◌, ◌≤◌, ◌^◌, ◌++◌, ◌∷◌, [], Some, length, slice_get, IfOk, OnOk, OnErr};
ghost use Rattle.pp_eval.specs.Evaluating.{AnswersBy};
ghost use Rattle.catalog_semantics.specs.States.{place_of, declared_bound};
ghost use Rattle.catalog.specs.Adding.{with_added, with_filled, with_realized};
ghost use Rattle.catalog.specs.Members.{inside, is_inside, members_of};

use crate::held::Held;
use crate::listed::Listed;
use catalog_semantics::{Relation, Resource};
use host_limits::Limits;
use pp_value::{Pairs, Ref};
use rh_base::{Fault, NoMemory, Seq};
use std::alloc::Global;
use std::marker::Model;

/// Resources, which classes each container holds, and what comes before what.
#[derive(Drop)]
pub struct Catalog {
    listed: Listed,
    held: Held,
    relations: Seq<Relation>,
    alloc: Global,
}

impl Model for Catalog {
    ghost use Rattle.catalog_semantics.specs.Catalogs.{Catalog as Lists};
    ghost use Rattle.std.specs.Coded.{codes};
    ghost use Rattle.pp_value.specs.contracts.value.Value as value;

    ghost Value = { Lists };

    ghost coded = { Prim.hlevel (codes, value.the_row.coded) };

    ghost view = { λ c. record { resources = c.listed; holdings = c.held; relations = c.relations } };
}

/// Whether a resource is real and in a container.
fn is_inside(outer: u32, r: &Resource) -> bool
    ensures { result ≡ is_inside outer r.now }
{
    let is_held = r.holder == Some(outer);
    is_held && !r.is_virtual
}

/// Adds the places of the real resources that a container holds.
fn push_inside(outer: u32, resources: &[Resource], into: &mut Seq<u32>) -> Result<(), NoMemory>
    requires { length resources.now < 2 ^ 32 }
    ensures { OnOk result (into.new ≡ into.old ++ inside outer 0 resources.now) }
{
    let mut place = 0u32;
    for r in resources {
        if is_inside(outer, r) {
            into.push(place)?;
        }
        place += 1;
    }
    Ok(())
}

fn push_all(items: &[u32], into: &mut Seq<u32>) -> Result<(), NoMemory>
    ensures { OnOk result (into.new ≡ into.old ++ items.now) }
{
    for item in items {
        into.push(*item)?;
    }
    Ok(())
}

impl Catalog {
    pub fn new(alloc: Global) -> Catalog
        ensures { result ≡ record { resources = []; holdings = []; relations = [] } }
    {
        Catalog {
            listed: Listed::new(alloc),
            held: Held::new(alloc),
            relations: Seq::new(alloc),
            alloc,
        }
    }

    /// Adds a resource at the end, within limits, and gives its place.
    pub fn add(&mut self, r: Resource, limits: Limits) -> Result<u32, Fault>
        ensures answers { AnswersBy (λ place. self.new) (with_added limits r self.old) result }
        ensures place { IfOk result (λ place. place ≡ length self.old.resources) }
        ensures err { OnErr result (self.new ≡ self.old) }
    {
        let place = self.count();
        self.listed.add(r, limits)?;
        Ok(place)
    }

    /// Gives the resource at a place those pairs whose names it hasn't got.
    pub fn fill(&mut self, i: u32, defaults: &Pairs) -> Result<(), Fault>
        requires { i < length self.old.resources }
        ensures answers { AnswersBy (λ done. self.new) (with_filled i defaults.now self.old) result }
        ensures err { OnErr result (self.new ≡ self.old) }
    {
        self.listed.fill(i as usize, defaults)
    }

    /// The place of a reference, found by its hash.
    pub fn find(&self, r: &Ref) -> Option<u32>
        ensures { result ≡ place_of r.now self.now.resources }
    {
        match self.listed.find(r) {
            Some(place) => Some(place as u32),
            None => None,
        }
    }

    pub fn get(&self, i: u32) -> &Resource
        requires { i < length self.now.resources }
        ensures { slice_get self.now.resources i ≡ Some result.now }
    {
        &self.listed.as_slice()[i as usize]
    }

    pub fn count(&self) -> u32
        ensures count { result ≡ length self.now.resources }
        ensures few { result ≤ declared_bound }
    {
        self.listed.as_slice().len() as u32
    }

    /// Makes the resource at a place real.
    pub fn realize(&mut self, i: u32)
        requires { i < length self.old.resources }
        ensures { self.new ≡ with_realized i self.old }
    {
        self.listed.realize(i as usize);
    }

    /// Puts a class into a container.
    pub fn hold(&mut self, outer: u32, class: u32) -> Result<(), NoMemory>
        ensures ok { OnOk result
            (self.new ≡ record self.old {
              holdings = self.old.holdings ++ record { outer = outer; class = class } ∷ [];
            }) }
        ensures err { OnErr result (self.new ≡ self.old) }
    {
        self.held.hold(outer, class)
    }

    pub fn relate(&mut self, r: Relation) -> Result<(), NoMemory>
        ensures ok { OnOk result (self.new ≡ record self.old { relations = self.old.relations ++ r ∷ [] }) }
        ensures err { OnErr result (self.new ≡ self.old) }
    {
        self.relations.push(r)
    }

    pub fn relations(&self) -> &Seq<Relation>
        ensures { result.now ≡ self.now.relations }
    {
        &self.relations
    }

    /// The places of what is in a container: real resources, and then classes.
    pub fn members(&self, i: u32) -> Result<Seq<u32>, NoMemory>
        ensures { IfOk result (λ places. places ≡ members_of i self.now) }
    {
        let mut places = Seq::new(self.alloc);
        push_inside(i, self.listed.as_slice(), &mut places)?;
        push_all(self.held.classes(i as usize), &mut places)?;
        Ok(places)
    }
}
