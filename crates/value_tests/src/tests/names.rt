//! Names that are bound at the top, and names of classes and types.
use super::answers::{found, kind_of, scopes_of};
use pp_eval::{BindFault, Scopes, plain_name, ref_of};
use pp_value::{Ref, Value};
use std::alloc::Global;
use std::test::Fail;
use test_rows::same;

/// What is answered where a name is bound to a number.
fn bound(scopes: &mut Scopes, name: &str, number: i64) -> &'static str {
    match scopes.bind(name, Value::Int(number)) {
        Ok(()) => "bound",
        Err(BindFault::Again) => "bound again",
        Err(BindFault::Memory(_)) => "no memory",
    }
}

/// Binds a name that is bound already, and one that isn't.
fn bind_two(alloc: Global, scopes: &mut Scopes) -> Result<(), Fail> {
    same(alloc, "x", bound(scopes, "x", 5), "bound again")?;
    same(alloc, "y", bound(scopes, "y", 6), "bound")
}

fn kind_of_facts(scopes: &Scopes) -> &'static str {
    match scopes.facts() {
        Some(value) => kind_of(value),
        None => "none",
    }
}

fn is_found(alloc: Global, scopes: &Scopes, name: &str, want: &str) -> Result<(), Fail> {
    let value = found(alloc, scopes, name)?;
    same(alloc, name, value.as_str(), want)
}

/// Each row: a name, and what is found of it.
fn are_found(alloc: Global, scopes: &Scopes, rows: &[(&str, &str)]) -> Result<(), Fail> {
    for (name, want) in rows {
        is_found(alloc, scopes, *name, *want)?;
    }
    Ok(())
}

/// Binds two names where `x` is a fact, and finds what they were bound to first; the facts stay a map.
fn are_bound_once(alloc: Global, scopes: &mut Scopes) -> Result<(), Fail> {
    bind_two(alloc, scopes)?;
    same(alloc, "facts", kind_of_facts(scopes), "map")?;
    are_found(
        alloc,
        scopes,
        &[
            ("x", "number 1"),
            ("::x", "number 1"),
            ("y", "number 6"),
            ("z", "none"),
            ("::a::x", "none"),
        ],
    )
}

#[test]
fn a_name_is_bound_once_in_a_scope(rt: HostRuntime) -> Result<(), Fail> {
    let mut scopes = scopes_of(rt.alloc(), "{\"x\": 1}")?;
    are_bound_once(rt.alloc(), &mut scopes)
}

fn is_plain(alloc: Global, name: &str, want: &str) -> Result<(), Fail> {
    let plain = plain_name(alloc, name)?;
    same(alloc, name, plain.as_str(), want)
}

#[test]
fn names_lose_their_root_and_their_capitals(rt: HostRuntime) -> Result<(), Fail> {
    is_plain(rt.alloc(), "::Web::Vhost", "web::vhost")
}

/// Whether a kind and a title make this reference.
fn compared(alloc: Global, reference: &Ref, kind: &str, title: &str) -> Result<&'static str, Fail> {
    if ref_of(alloc, kind, title)? == *reference {
        Ok("equal")
    } else {
        Ok("another")
    }
}

fn is_equal(alloc: Global, reference: &Ref, kind: &str, title: &str) -> Result<(), Fail> {
    same(
        alloc,
        title,
        compared(alloc, reference, kind, title)?,
        "equal",
    )
}

#[test]
fn titles_of_classes_lose_their_root(rt: HostRuntime) -> Result<(), Fail> {
    let class = ref_of(rt.alloc(), "Class", "::Web")?;
    is_equal(rt.alloc(), &class, "class", "web")
}
