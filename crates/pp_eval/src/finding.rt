//! The look-up of a variable. A class that inherits keeps the place of its parent's scope. Parents are entered first, so
//! looking through inherited classes ends.

ghost use Rattle.std.specs.Prelude.{◌≡◌, ◌-◌, option_map, length, slice_get, option_and_then, codes};
ghost use Rattle.pp_eval.specs.Names.{is_qualified};
ghost use Rattle.pp_eval.specs.ClassNames.{AreKept};
ghost use Rattle.pp_eval.specs.Scoping.{in_scope, in_lineage, class_of, node_in, top_scope, find_plain, find_qualified, find_in, AreScopes};

use crate::classes::Classes;
use crate::names::{is_qualified, scope_in, variable_in};
use crate::scope::{Scope, Sort};
use crate::scopes::Scopes;
use pp_value::Value;

/// The scope at a place, if there is one.
fn scope_at(scopes: &[Scope], place: Option<usize>) -> Option<&Scope>
    ensures { option_map (λ c. c.now) result ≡ option_and_then (slice_get scopes.now) place }
{
    match place {
        Some(place) => scopes.get(place),
        None => None,
    }
}

/// In one scope, if it is there.
fn in_scope<'s>(scope: Option<&'s Scope>, name: &str) -> Option<&'s Value>
    ensures { option_map (λ x. x.now) result ≡ in_scope name.now (option_map (λ c. c.now) scope.entry) }
{
    match scope {
        Some(scope) => scope.bindings.find(name),
        None => None,
    }
}

/// In a scope and those of the inherited classes.
fn in_lineage<'s>(scopes: &'s [Scope], start: Option<&'s Scope>, name: &str) -> Option<&'s Value>
    ensures { option_map (λ x. x.now) result ≡ in_lineage scopes.now name.now (option_map (λ c. c.now) start.entry) }
{
    let mut scope = start;
    for _turn in 0..scopes.len() {
        let Some(here) = scope else {
            return None;
        };
        if let Some(value) = here.bindings.find(name) {
            return Some(value);
        }
        scope = scope_at(scopes, here.parent);
    }
    None
}

/// The scope of a class, ASCII case aside.
#[tactic(auto, using(crate::proofs::ClassPlaces::found_scope))]
fn class_of<'s>(scopes: &'s [Scope], classes: &Classes, name: &[u8]) -> Option<&'s Scope>
    requires { AreKept classes.now scopes.now }
    ensures { option_map (λ c. c.now) result ≡ class_of scopes.now name.now }
{
    scope_at(scopes, classes.find(name))
}

/// The scope, if it is a node's.
fn node_in(scope: Option<&Scope>) -> Option<&Scope>
    ensures { option_map (λ c. c.now) result ≡ node_in (option_map (λ c. c.now) scope.entry) }
{
    match scope {
        Some(scope) => match &scope.sort {
            Sort::Node => Some(scope),
            _ => None,
        },
        None => None,
    }
}

fn open_at(opened: &[usize], index: usize) -> Option<usize>
    ensures { result ≡ slice_get opened.now index }
{
    opened.get(index).copied()
}

fn last_open(opened: &[usize]) -> Option<usize>
    ensures { result ≡ slice_get opened.now (length opened.now - 1) }
{
    opened.last().copied()
}

/// The value of a name in the current scope, in those of the inherited classes, in the node's or at the top.
fn find_plain<'s>(scopes: &'s [Scope], opened: &[usize], name: &str) -> Option<&'s Value>
    ensures { option_map (λ x. x.now) result ≡ find_plain (scopes.now, opened.now) name.now }
{
    let current = scope_at(scopes, last_open(opened));
    if let Some(value) = in_lineage(scopes, current, name) {
        return Some(value);
    }
    let node = node_in(scope_at(scopes, open_at(opened, 1)));
    if let Some(value) = in_scope(node, name) {
        return Some(value);
    }
    in_scope(scopes.first(), name)
}

/// The value of a name at the top, or in a class and its inherited ones.
fn find_qualified<'s>(
    scopes: &'s [Scope],
    opened: &[usize],
    classes: &Classes,
    class: &[u8],
    name: &str,
) -> Option<&'s Value>
    requires { AreKept classes.now scopes.now }
    ensures { option_map (λ x. x.now) result ≡ find_qualified (scopes.now, opened.now) class.now name.now }
{
    if class.is_empty() {
        return in_scope(scopes.first(), name);
    }
    in_lineage(scopes, class_of(scopes, classes, class), name)
}

impl Scopes {
    /// The value of a variable, named without `$`.
    pub fn find(&self, name: &str) -> Option<&Value>
        ensures { option_map (λ x. x.now) result ≡ find_in self.now name.now }
    {
        let scopes = self.scopes.as_slice();
        let opened = self.open.as_slice();
        if is_qualified(name) {
            return find_qualified(
                scopes,
                opened,
                &self.classes,
                scope_in(name),
                variable_in(name),
            );
        }
        find_plain(scopes, opened, name)
    }

    /// The facts, as the top has them.
    pub fn facts(&self) -> Option<&Value>
        ensures facts { option_map (λ x. x.now) result ≡ in_scope (codes "facts") (top_scope self.now) }
        ensures scopes { AreScopes self.now.0 self.now.1 }
    {
        in_scope(self.scopes.first(), "facts")
    }
}
