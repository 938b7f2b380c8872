//! Rows of types: a parameter's type, its default, and whether that fits.
ghost use Rattle.std.specs.Prelude.{◌<◌, ◌^◌, length};

use super::answers::{FACTS, manifest_of, scopes_of};
use pp_eval::{Scopes, eval};
use pp_syntax::{Expr, Item, Param, TypeName};
use pp_value::fits;
use rh_base::{Boxed, Fault, NoMemory};
use std::alloc::Global;
use std::test::Fail;
use test_rows::{joined, refused, same_of};

fn fits_type(
    alloc: Global,
    kind: &TypeName,
    value: &Expr,
    scopes: &Scopes,
) -> Result<&'static str, Fault> {
    let value = Boxed::new(alloc, eval(alloc, value, scopes)?)?;
    if fits(value.get(), kind) {
        Ok("fits")
    } else {
        Ok("doesn't")
    }
}

fn fits_itself(alloc: Global, param: &Param, scopes: &Scopes) -> Result<&'static str, Fault> {
    match (&param.kind, &param.default) {
        (Some(kind), Some(value)) => fits_type(alloc, kind, value, scopes),
        _ => Ok("no type"),
    }
}

fn first_param_fits(alloc: Global, items: &[Item], scopes: &Scopes) -> Result<&'static str, Fault> {
    match items.first() {
        Some(Item::Define { params, .. }) => match params.as_slice().first() {
            Some(param) => fits_itself(alloc, param, scopes),
            None => Ok("no parameter"),
        },
        _ => Ok("no definition"),
    }
}

fn first_fits(alloc: Global, text: &str, scopes: &Scopes) -> Result<&'static str, Fault>
    requires { length text.now < 2 ^ 32 }
{
    let manifest = manifest_of(alloc, text)?;
    first_param_fits(alloc, manifest.items.as_slice(), scopes)
}

fn told(alloc: Global, answer: Result<&'static str, Fault>) -> Result<String, NoMemory> {
    match answer {
        Ok(word) => joined(alloc, &[word]),
        Err(fault) => refused(alloc, &fault),
    }
}

/// Whether the default of the first parameter that a text defines fits its type.
fn answer_in(alloc: Global, text: &str, scopes: &Scopes) -> Result<String, NoMemory>
    requires { length text.now < 2 ^ 32 }
{
    told(alloc, first_fits(alloc, text, scopes))
}

/// The same under `FACTS`.
fn answer_under(alloc: Global, text: &str) -> Result<String, Fault>
    requires { length text.now < 2 ^ 32 }
{
    let scopes = scopes_of(alloc, FACTS)?;
    Ok(answer_in(alloc, text, &scopes)?)
}

fn answer(alloc: Global, text: &str) -> Result<String, Fail> {
    if text.len() > 1_000 {
        return Err(Fail::from("a long text"));
    }
    Ok(answer_under(alloc, text)?)
}

fn answer_of(alloc: Global, kind: &str, value: &str) -> Result<String, Fail> {
    let text = joined(alloc, &["define d(", kind, " $p = ", value, ") { }"])?;
    answer(alloc, text.as_str())
}

fn is_answered(alloc: Global, kind: &str, value: &str, want: &str) -> Result<(), Fail> {
    let told = answer_of(alloc, kind, value)?;
    same_of(alloc, &[kind, " ", value], told.as_str(), want)
}

/// Each row: a type, a default, and whether that fits.
fn are_answered(alloc: Global, rows: &[(&str, &str, &str)]) -> Result<(), Fail> {
    for (kind, value, want) in rows {
        is_answered(alloc, *kind, *value, *want)?;
    }
    Ok(())
}

#[test]
fn types_bound_values(rt: HostRuntime) -> Result<(), Fail> {
    are_answered(
        rt.alloc(),
        &[
            ("Integer[1, 3]", "3", "fits"),
            ("Integer[1, 3]", "4", "doesn't"),
            ("Integer[1, 3]", "0", "doesn't"),
            ("Integer", "'1'", "doesn't"),
            ("String[2, 2]", "'é1'", "fits"),
            ("String[3]", "'é1'", "doesn't"),
            ("String", "1", "doesn't"),
            ("Boolean", "false", "fits"),
            ("Boolean", "undef", "doesn't"),
            ("Hash", "{}", "fits"),
            ("Hash", "[]", "doesn't"),
            ("Array", "[1, 'a']", "fits"),
            ("Array[Integer]", "[1, 2]", "fits"),
            ("Array[Integer]", "[1, 'a']", "doesn't"),
            ("Array[Any]", "[$load]", "fits"),
        ],
    )
}

#[test]
fn types_leave_a_choice(rt: HostRuntime) -> Result<(), Fail> {
    are_answered(
        rt.alloc(),
        &[
            ("Optional[Integer]", "undef", "fits"),
            ("Optional[Integer]", "'a'", "doesn't"),
            ("Optional[Any]", "$load", "fits"),
            ("Enum['a', 'b']", "'b'", "fits"),
            ("Enum['a', 'b']", "'B'", "doesn't"),
            ("Variant[Integer, Boolean]", "true", "fits"),
            ("Variant[Integer, Boolean]", "'a'", "doesn't"),
            ("Variant[Integer, Any]", "$load", "fits"),
            ("Integer", "$load", "doesn't"),
            ("Any", "$load", "fits"),
            ("Any", "File['/a']", "fits"),
        ],
    )
}
