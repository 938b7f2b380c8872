//! What is assumed of the resources of a compiled catalog.

ghost use Rattle.std.specs.Prelude.{◌≡◌, IfOk, option_map, length};
ghost use Rattle.compiled_models.specs.Assumed.{place_of_subject, places_of, is_at, assumed_of_place, assumed_at};
ghost use Rattle.compiled_models.specs.Hosts.{ArePlaced, first_of};

use assumed_text::{Assumed, Assumption, Assumptions, Subject};
use compiled_relations::{Index, counts_as};
use compiled_text::CompiledResource;
use rh_base::{NoMemory, Seq};
use std::alloc::Global;

/// What is assumed of the resources of a compiled catalog, which are lent; and for each assumption the place of the resource of which it
/// speaks alone.
#[derive(Drop)]
pub struct Premises<'h> {
    pub resources: &'h [CompiledResource],
    pub assumptions: &'h Assumptions,
    pub places: Seq<Option<usize>>,
}

/// The place of the resource of which an assumption speaks alone, if its reference finds one.
fn place_of_subject(
    alloc: Global,
    index: &Index<'_>,
    subject: &Subject,
) -> Result<Option<usize>, NoMemory>
    ensures { IfOk result (λ place. place ≡ place_of_subject index.now subject.now) }
{
    match subject {
        Subject::One(reference) => index.find(alloc, reference),
        Subject::EachOf(_) => Ok(None),
    }
}

/// For each assumption the place of the resource of which it speaks alone.
fn places_of(
    alloc: Global,
    index: &Index<'_>,
    rows: &[Assumption],
) -> Result<Seq<Option<usize>>, NoMemory>
    ensures { IfOk result (λ places. places ≡ places_of index.now rows.now) }
{
    let mut places = Seq::new(alloc);
    for row in rows {
        places.push(place_of_subject(alloc, index, &row.subject)?)?;
    }
    Ok(places)
}

impl<'h> Premises<'h> {
    pub fn of(
        alloc: Global,
        resources: &'h [CompiledResource],
        assumptions: &'h Assumptions,
    ) -> Result<Premises<'h>, NoMemory>
        ensures resources { IfOk result (λ p. p.resources.now ≡ resources.now) }
        ensures assumptions { IfOk result (λ p. p.assumptions.now ≡ assumptions.now) }
        ensures placed { IfOk result ArePlaced }
    {
        let index = Index::new(alloc, resources)?;
        let places = places_of(alloc, &index, assumptions.rows())?;
        Ok(Premises {
            resources,
            assumptions,
            places,
        })
    }
}

/// Whether a place was found, and is this one.
fn is_at(place: usize, found: Option<usize>) -> bool
    ensures { result ≡ is_at place found }
{
    match found {
        Some(other) => other == place,
        None => false,
    }
}

/// What the first of these assumptions says beside which this place stands.
fn first_of<'r>(
    rows: &'r [Assumption],
    places: &[Option<usize>],
    place: usize,
) -> Option<&'r Assumed>
    requires { length rows.now ≡ length places.now }
    ensures { option_map (λ x. x.now) result ≡ first_of place places.now rows.now }
{
    for k in 0..rows.len() {
        if is_at(place, places[k]) {
            return Some(&rows[k].assumed);
        }
    }
    None
}

/// What the first assumption says that speaks of the resource at a place alone.
#[tactic(auto, using(crate::proofs::PlacedLaws::first_is, crate::proofs::PlacedLaws::as_many))]
fn assumed_of_place<'h>(premises: &Premises<'h>, place: usize) -> Option<&'h Assumed>
    requires { ArePlaced premises.now }
    ensures { option_map (λ x. x.now) result ≡ assumed_of_place premises.now.resources.now place premises.now.assumptions.now }
{
    let rows = premises.assumptions.rows();
    first_of(rows, premises.places.as_slice(), place)
}

/// What is assumed of a resource at a place.
pub fn assumed_at<'h>(
    alloc: Global,
    premises: &Premises<'h>,
    place: usize,
    r: &CompiledResource,
) -> Result<Option<&'h Assumed>, NoMemory>
    requires { ArePlaced premises.now }
    ensures { IfOk result (λ found. option_map (λ x. x.now) found
        ≡ assumed_at premises.now.resources.now premises.now.assumptions.now place r.now) }
{
    if let Some(own) = assumed_of_place(premises, place) {
        return Ok(Some(own));
    }
    let id = counts_as(alloc, r)?;
    Ok(premises.assumptions.of_type(id.kind.as_str()))
}
