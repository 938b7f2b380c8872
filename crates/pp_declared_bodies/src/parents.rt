//! Parents of classes that are still to be declared. They are collected nearest first and run from the end, without recursion.

ghost use Rattle.std.specs.Prelude.{◌≡◌, ◌+◌, ◌∷◌, ◌++◌, [], length, map, option_map, IfOk, OnOk};
ghost use Rattle.pp_eval.specs.Evaluating.{AnswersBy};
ghost use Rattle.catalog_semantics.specs.States.{is_declared};
ghost use Rattle.catalog_semantics.specs.Declaring.{class_ref, class_named, no_circle};
ghost use Rattle.pp_declared_bodies.specs.Parents.{next_parent, nearest_first};

use pp_declaration_state::State;
use pp_definitions::{Definition, Site};
use pp_eval::refusal;
use pp_value::Ref;
use rh_base::{Fault, NoMemory, Text};
use std::alloc::Global;

/// The reference to a class of a plain name.
pub fn class_ref(alloc: Global, name: &str) -> Result<Ref, NoMemory>
    ensures { IfOk result (λ r. r ≡ class_ref name.now) }
{
    let kind = Text::from_string(String::from_str(alloc, "class")?);
    let title = Text::from_string(String::from_str(alloc, name)?);
    Ok(Ref { kind, title })
}

/// A class that the manifest defines.
pub fn class_named<'s, 'm>(
    alloc: Global,
    site: &'s Site<'m>,
    at: u32,
    name: &str,
) -> Result<&'s Definition<'m>, Fault>
    ensures { AnswersBy (λ d. d.now) (class_named site.now at name.now) result }
{
    match site.class(name) {
        Some(d) => Ok(d),
        None => Err(refusal(alloc, 22, at, name)),
    }
}

/// Refuses a class whose chain of parents meets a class twice.
pub fn no_circle<'m>(alloc: Global, site: &Site<'m>, d: &Definition<'m>) -> Result<(), Fault>
    ensures { AnswersBy (λ done. d.now) (no_circle site.now d.now) result }
{
    if site.inherits_itself(d) {
        return Err(refusal(alloc, 34, d.at(), d.name().as_str()));
    }
    Ok(())
}

/// Whether a class is declared.
#[tactic(auto, using(crate::proofs::BeginningLaws::declared_at))]
pub fn is_declared(alloc: Global, name: &str, state: &State) -> Result<bool, NoMemory>
    ensures { IfOk result (λ b. b ≡ is_declared (class_ref name.now) state.now) }
{
    let r = class_ref(alloc, name)?;
    Ok(state.place_of(&r).is_some())
}

/// The parent, if there is one that isn't declared yet.
fn next_parent<'s, 'm>(
    alloc: Global,
    site: &'s Site<'m>,
    d: &Definition<'m>,
    state: &State,
) -> Result<Option<&'s Definition<'m>>, Fault>
    ensures { AnswersBy (λ next. option_map (λ p. p.now) next) (next_parent site.now state.now d.now) result }
{
    let Some(parent) = d.parent() else {
        return Ok(None);
    };
    if is_declared(alloc, parent.as_str(), state)? {
        return Ok(None);
    }
    let p = class_named(alloc, site, d.at(), parent.as_str())?;
    Ok(Some(p))
}

fn push<'s, 'm>(line: &mut Vec<&'s Definition<'m>>, p: &'s Definition<'m>) -> Result<(), NoMemory>
    ensures { OnOk result (map (λ d. d.now) line.new.items ≡ map (λ d. d.now) line.old.items ++ p.now ∷ []) }
{
    match line.push(p) {
        Ok(()) => Ok(()),
        Err(_) => Err(NoMemory),
    }
}

/// The parents that aren't declared yet, the nearest first.
#[tactic(auto, using(crate::proofs::ParentLaws::goes_up, crate::proofs::ParentLaws::ends_here, crate::proofs::ParentLaws::is_refused, crate::proofs::ParentLaws::first_up, crate::proofs::ParentLaws::none_up, crate::proofs::ParentLaws::refused_up, crate::proofs::ParentLaws::no_more))]
pub fn nearest_first<'s, 'm>(
    alloc: Global,
    site: &'s Site<'m>,
    d: &Definition<'m>,
    state: &State,
) -> Result<Vec<&'s Definition<'m>>, Fault>
    ensures { AnswersBy (λ line. map (λ p. p.now) line.items)
        (nearest_first (length site.now.classes + 1) site.now state.now d.now) result }
{
    let mut line = Vec::new(alloc);
    let Some(first) = next_parent(alloc, site, d, state)? else {
        return Ok(line);
    };
    push(&mut line, first)?;
    let mut current = first;
    let mut left = site.class_count();
    while left > 0 {
        let Some(next) = next_parent(alloc, site, current, state)? else {
            return Ok(line);
        };
        push(&mut line, next)?;
        current = next;
        left -= 1;
    }
    Ok(line)
}
