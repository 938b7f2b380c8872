//! Collectors as they are declared.

ghost use Rattle.std.specs.Prelude.{map};
ghost use Rattle.pp_eval.specs.Evaluating.{AnswersBy};
ghost use Rattle.catalog_semantics.specs.Collecting.{comparable, all_of, wish_in, maybe_wish, collector_of};

use crate::types::named_type;
use catalog_semantics::{Collector, Wish};
use pp_declaration_state::State;
use pp_definitions::Site;
use pp_eval::{Scopes, eval, no_result, plain_name};
use pp_syntax::{Expr, Search};
use pp_value::{Value, has_opaque};
use rh_base::{Fault, Seq};
use std::alloc::Global;

/// A value that may be compared.
fn comparable(alloc: Global, e: &Expr, scopes: &Scopes) -> Result<Value, Fault>
    ensures { AnswersBy (λ x. x) (comparable scopes.now e.now) result }
{
    let x = eval(alloc, e, scopes)?;
    if has_opaque(&x) {
        return Err(no_result(alloc, e.at));
    }
    Ok(x)
}

/// A search, with the values that it compares.
#[cycle(wish)]
#[tactic(auto, using(crate::proofs::SearchLaws::wish_or, crate::proofs::SearchLaws::wish_and, crate::proofs::SearchLaws::wish_equal, crate::proofs::SearchLaws::wish_differ))]
fn wish_of(alloc: Global, search: &Search, scopes: &Scopes) -> Result<Wish, Fault>
    ensures { AnswersBy (λ w. w) (wish_in scopes.now search.now) result }
{
    match search {
        Search::Or(all) => Ok(Wish::Or(wishes_of(alloc, all.as_slice(), scopes)?)),
        Search::And(all) => Ok(Wish::And(wishes_of(alloc, all.as_slice(), scopes)?)),
        Search::Equal(name, value) => {
            let x = comparable(alloc, value, scopes)?;
            Ok(Wish::Equal(name.copy(alloc)?, x))
        }
        Search::Differ(name, value) => {
            let x = comparable(alloc, value, scopes)?;
            Ok(Wish::Differ(name.copy(alloc)?, x))
        }
    }
}

/// Some searches, from the left.
#[cycle(wish)]
#[tactic(auto, using(crate::proofs::SearchLaws::nothing_before, crate::proofs::SearchLaws::next_wish))]
fn wishes_of(alloc: Global, all: &[Search], scopes: &Scopes) -> Result<Seq<Wish>, Fault>
    ensures { AnswersBy (λ ws. ws) (all_of (map (wish_in scopes.now) all.now)) result }
{
    let mut wishes = Seq::new(alloc);
    for search in all {
        wishes.push(wish_of(alloc, search, scopes)?)?;
    }
    Ok(wishes)
}

fn maybe_wish(
    alloc: Global,
    search: &Option<Search>,
    scopes: &Scopes,
) -> Result<Option<Wish>, Fault>
    ensures { AnswersBy (λ w. w) (maybe_wish scopes.now search.now) result }
{
    match search {
        Some(search) => Ok(Some(wish_of(alloc, search, scopes)?)),
        None => Ok(None),
    }
}

/// A collector of a type that is known.
pub fn collector_of(
    alloc: Global,
    site: &Site<'_>,
    at: u32,
    kind: &str,
    search: &Option<Search>,
    state: &State,
) -> Result<Collector, Fault>
    ensures { AnswersBy (λ c. c) (collector_of site.now at kind.now search.now state.now) result }
{
    let kind = plain_name(alloc, kind)?;
    let kind = named_type(alloc, site, at, kind)?;
    let wish = maybe_wish(alloc, search, state.scopes())?;
    Ok(Collector { kind, wish })
}
