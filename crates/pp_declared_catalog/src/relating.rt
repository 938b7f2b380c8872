//! What comes before what. The ties of the run become relations once the rounds are over, since only then it is known what
//! collectors match.

ghost use Rattle.std.specs.Prelude.{◌≡◌, ◌++◌, Some, map, IfOk, OnOk};
ghost use Rattle.catalog_semantics.specs.Catalogs.{matched, refs_of, relation_of, catalog_in};
ghost use Rattle.pp_declared_catalog.specs.Results.{hits};

use crate::matching::matches;
use catalog::Catalog;
use catalog_semantics::{Collector, Relation, Resource, Side, Tie};
use pp_declaration_state::{State, copy_refs};
use pp_value::Ref;
use rh_base::{NoMemory, Seq};
use std::alloc::Global;

/// Appends the reference to a resource that is real, where the collector matches it.
fn push_hit(alloc: Global, c: &Collector, r: &Resource, refs: &mut Seq<Ref>) -> Result<(), NoMemory>
    ensures { OnOk result (refs.new ≡ refs.old ++ hits c.now r.now) }
{
    let hit = matches(c, r);
    if hit && !r.is_virtual {
        refs.push(r.id.copy(alloc)?)?;
    }
    Ok(())
}

/// The real resources that a collector matches.
#[tactic(auto, using(crate::proofs::ResultLaws::next_hit))]
fn matched(alloc: Global, state: &State, c: &Collector) -> Result<Seq<Ref>, NoMemory>
    ensures { IfOk result (λ refs. refs ≡ matched state.now.resources (Some c.now)) }
{
    let mut refs = Seq::new(alloc);
    for i in 0..state.count() {
        push_hit(alloc, c, state.get(i), &mut refs)?;
    }
    Ok(refs)
}

/// The resources that one side of an arrow names or matches.
fn refs_of(alloc: Global, state: &State, side: &Side) -> Result<Seq<Ref>, NoMemory>
    ensures { IfOk result (λ refs. refs ≡ refs_of state.now side.now) }
{
    match side {
        Side::Named(refs) => copy_refs(alloc, refs.as_slice()),
        Side::Matched(place) => match state.collectors().as_slice().get(*place as usize) {
            Some(c) => matched(alloc, state, c),
            None => Ok(Seq::new(alloc)),
        },
    }
}

fn relation_of(alloc: Global, state: &State, tie: &Tie) -> Result<Relation, NoMemory>
    ensures { IfOk result (λ r. r ≡ relation_of state.now tie.now) }
{
    let from = refs_of(alloc, state, &tie.from)?;
    let to = refs_of(alloc, state, &tie.to)?;
    Ok(Relation {
        from,
        to,
        at: tie.at,
    })
}

fn relations(alloc: Global, state: &State) -> Result<Seq<Relation>, NoMemory>
    ensures { IfOk result (λ rs. rs ≡ map (relation_of state.now) state.now.ties) }
{
    let mut all = Seq::new(alloc);
    for tie in state.ties().as_slice() {
        all.push(relation_of(alloc, state, tie)?)?;
    }
    Ok(all)
}

/// Adds relations to a catalog.
#[tactic(auto, using(crate::proofs::ResultLaws::one_behind))]
fn relate_all(relations: Seq<Relation>, catalog: &mut Catalog) -> Result<(), NoMemory>
    ensures { OnOk result (catalog.new ≡ record catalog.old { relations = catalog.old.relations ++ relations }) }
{
    for r in relations.into_vec() {
        catalog.relate(r)?;
    }
    Ok(())
}

/// The catalog of a state.
pub fn catalog_in(alloc: Global, state: State) -> Result<Catalog, NoMemory>
    ensures { IfOk result (λ c. c ≡ catalog_in state) }
{
    let all = relations(alloc, &state)?;
    let mut catalog = state.finish();
    relate_all(all, &mut catalog)?;
    Ok(catalog)
}
