//! Resources in the order in which they were declared. The size of all attributes is kept as a number, so that adding a
//! resource asks for the limit without a walk over all of them.

ghost use Rattle.std.specs.Prelude.{◌≡◌, ◌<◌, ◌≤◌, ◌++◌, ◌∷◌, [], true, false, None, length, filter, IfSome, IfOk, OnOk, OnErr};
ghost use Rattle.rh_base.specs.Refused.{IfRefused};
ghost use Rattle.host_limits.specs.Limits.{declared_limit};
ghost use Rattle.pp_value.specs.Shown.{shown_ref};
ghost use Rattle.pp_eval.specs.Evaluating.{AnswersBy, refusal};
ghost use Rattle.catalog.specs.Places.{place_among};
ghost use Rattle.catalog_semantics.specs.States.{place_of, declared_bound, lacks};
ghost use Rattle.catalog.specs.Adding.{added_to, with_lacking, filled_at, made_real, changed_at};

use crate::refs::Refs;
use crate::sizes::{size_of_attributes, size_of_lacking};
use catalog_semantics::Resource;
use host_limits::Limits;
use pp_eval::refusal;
use pp_value::{Pairs, Ref, Value, copy_pairs, shown_ref};
use rh_base::limits::ATTRIBUTES_SIZE;
use rh_base::{Fault, NoMemory, Text};
use std::alloc::Global;
use std::marker::Model;

/// Resources, of which no two have one reference.
#[derive(Drop)]
pub struct Listed {
    resources: Vec<Resource>,
    refs: Refs,
    /// the size of all attributes
    size: u64,
    alloc: Global,
}

impl Model for Listed {
    ghost use Rattle.std.specs.Prelude.{List};
    ghost use Rattle.catalog_semantics.specs.declared.catalog.Resource.{Resource};
    ghost use Rattle.catalog.specs.Places.{IsListed};
    ghost use Rattle.std.specs.Coded.{codes};
    ghost use Rattle.pp_value.specs.contracts.value.Value as value;

    ghost Value = { List Resource };

    ghost coded = { Prim.hlevel (codes, value.the_row.coded) };

    ghost view = { λ l. l.resources.items };

    ghost invariant = { λ l. IsListed l.refs l.size l.resources.items };
}

/// The reference stands already.
fn stands_twice(alloc: Global, at: u32, r: &Ref) -> Fault
    ensures { IfRefused result (λ x. x ≡ refusal 24 at (shown_ref r.now)) }
{
    match shown_ref(alloc, r) {
        Ok(name) => refusal(alloc, 24, at, name.as_str()),
        Err(m) => Fault::Memory(m),
    }
}

/// Whether no more may be declared than there are.
fn is_full(count: usize, limits: Limits) -> bool
    ensures full { result ≡ true → declared_limit limits ≤ count }
    ensures room { result ≡ false → count < declared_limit limits }
{
    count >= limits.declared() as usize
}

/// Adds a resource, and the place of its reference.
fn push(
    alloc: Global,
    resources: &mut Vec<Resource>,
    refs: &mut Refs,
    r: Resource,
) -> Result<(), NoMemory>
    requires { place_among r.id refs.old ≡ None }
    ensures resources_ok { OnOk result (resources.new.items ≡ resources.old.items ++ r ∷ []) }
    ensures refs_ok { OnOk result (refs.new ≡ refs.old ++ (r.id, length resources.old.items) ∷ []) }
    ensures resources_err { OnErr result (resources.new.items ≡ resources.old.items) }
    ensures refs_err { OnErr result (refs.new ≡ refs.old) }
{
    let place = resources.len();
    let key = r.id.copy(alloc)?;
    resources.push(r)?;
    match refs.add(key, place) {
        Ok(()) => Ok(()),
        Err(m) => {
            drop(resources.pop());
            Err(m)
        }
    }
}

/// Adds a pair whose name isn't there yet.
fn put_lacking(alloc: Global, attributes: &mut Pairs, pair: &(Text, Value)) -> Result<(), NoMemory>
    ensures { OnOk result (attributes.new ≡ with_lacking attributes.old pair.now) }
{
    if attributes.find(pair.0.as_str()).is_some() {
        return Ok(());
    }
    let name = pair.0.copy(alloc)?;
    attributes.push(name, pair.1.copy(alloc)?)
}

/// The attributes, and behind them those pairs whose names they haven't got.
#[tactic(auto, using(crate::proofs::Filling::filled_is))]
pub fn filled(alloc: Global, attributes: &Pairs, pairs: &Pairs) -> Result<Pairs, NoMemory>
    ensures { IfOk result (λ more. more ≡ attributes.now ++ filter (lacks attributes.now) pairs.now) }
{
    let mut whole = copy_pairs(alloc, attributes)?;
    for pair in pairs.as_slice() {
        put_lacking(alloc, &mut whole, pair)?;
    }
    Ok(whole)
}

/// Gives the resource at a place other attributes.
fn set_attributes(resources: &mut Vec<Resource>, place: usize, attributes: Pairs)
    requires { place < length resources.old.items }
    ensures { resources.new.items ≡ changed_at place (λ r. record r { attrs = attributes }) resources.old.items }
{
    let r = &mut resources[place];
    r.attrs = attributes;
}

fn set_real(resources: &mut Vec<Resource>, place: usize)
    requires { place < length resources.old.items }
    ensures { resources.new.items ≡ changed_at place made_real resources.old.items }
{
    let r = &mut resources[place];
    r.is_virtual = false;
}

impl Listed {
    pub fn new(alloc: Global) -> Listed
        ensures { result ≡ [] }
    {
        Listed {
            resources: Vec::new(alloc),
            refs: Refs::new(alloc),
            size: 0,
            alloc,
        }
    }

    pub fn as_slice(&self) -> &[Resource]
        ensures resources { result.now ≡ self.now }
        ensures few { length self.now ≤ declared_bound }
    {
        self.resources.as_slice()
    }

    /// Where a reference stands.
    pub fn find(&self, r: &Ref) -> Option<usize>
        ensures place { result ≡ place_of r.now self.now }
        ensures below { IfSome result (λ place. place < declared_bound) }
    {
        self.refs.find(r)
    }

    /// Adds a resource of a new reference, within limits.
    pub fn add(&mut self, r: Resource, limits: Limits) -> Result<(), Fault>
        ensures answers { AnswersBy (λ done. self.new) (added_to limits r self.old) result }
        ensures err { OnErr result (self.new ≡ self.old) }
    {
        if self.refs.find(&r.id).is_some() {
            return Err(stands_twice(self.alloc, r.at, &r.id));
        }
        if is_full(self.resources.len(), limits) {
            return Err(refusal(self.alloc, 32, r.at, "declared"));
        }
        let size = self
            .size
            .saturating_add(size_of_attributes(r.attrs.as_slice()));
        if size > ATTRIBUTES_SIZE {
            return Err(refusal(self.alloc, 32, r.at, "attributes"));
        }
        push(self.alloc, &mut self.resources, &mut self.refs, r)?;
        self.size = size;
        Ok(())
    }

    /// Gives the resource at a place those pairs whose names it hasn't got.
    pub fn fill(&mut self, place: usize, pairs: &Pairs) -> Result<(), Fault>
        requires { place < length self.old }
        ensures answers { AnswersBy (λ done. self.new) (filled_at place pairs.now self.old) result }
        ensures err { OnErr result (self.new ≡ self.old) }
    {
        let r = &self.resources[place];
        let size = self
            .size
            .saturating_add(size_of_lacking(&r.attrs, pairs.as_slice()));
        if size > ATTRIBUTES_SIZE {
            return Err(refusal(self.alloc, 32, r.at, "attributes"));
        }
        let attributes = filled(self.alloc, &r.attrs, pairs)?;
        set_attributes(&mut self.resources, place, attributes);
        self.size = size;
        Ok(())
    }

    /// Makes the resource at a place real.
    pub fn realize(&mut self, place: usize)
        requires { place < length self.old }
        ensures { self.new ≡ changed_at place made_real self.old }
    {
        set_real(&mut self.resources, place);
    }
}
