//! Which references a text lists, and their text.

use order_text::{order_from_json, order_to_json};
use rh_base::{Seq, Text};
use std::alloc::Global;
use std::test::Fail;
use test_rows::{refused, same};

/// The references that a text lists, each with `;` behind it; or the refusal.
const TEXTS: &[(&str, &str)] = &[
    ("[]", ""),
    (r#"["File[/x]"]"#, "File[/x];"),
    (
        r#" [ "Package[ntp]" , "File[/a b]" ] "#,
        "Package[ntp];File[/a b];",
    ),
    ("", "63 at 0: order"),
    ("{}", "63 at 0: order"),
    (r#"["File[/x]",1]"#, "63 at 0: order"),
    (r#"["File[/x]",null]"#, "63 at 0: order"),
    (r#"["File[/x]"]]"#, "63 at 0: order"),
    (r#"["File[/x]""#, "63 at 0: order"),
    (r#"[["File[/x]"]]"#, "63 at 0: order"),
    (r#""File[/x]""#, "63 at 0: order"),
];

/// Texts of orders, and each as it is written.
const WRITTEN: &[(&str, &str)] = &[
    (" [ ] ", "[]"),
    (r#"["File[/x]"]"#, r#"["File[/x]"]"#),
    (
        r#" [ "Package[ntp]" , "File[/a b]" ] "#,
        r#"["Package[ntp]","File[/a b]"]"#,
    ),
    (r#"["b","a","b",""]"#, r#"["b","a","b",""]"#),
    (
        r#"["File[\/a\"b\\c]","\u0041\n"]"#,
        r#"["File[/a\"b\\c]","A\n"]"#,
    ),
];

fn joined(alloc: Global, texts: &Seq<Text>) -> Result<String, Fail> {
    let mut shown = String::new(alloc);
    for text in texts.as_slice() {
        shown.push_str(text.as_str())?;
        shown.push(';')?;
    }
    Ok(shown)
}

fn listed(alloc: Global, text: &str) -> Result<String, Fail> {
    match order_from_json(alloc, text.as_bytes()) {
        Ok(texts) => joined(alloc, &texts),
        Err(fault) => Ok(refused(alloc, &fault)?),
    }
}

fn written(alloc: Global, texts: &[Text]) -> Result<String, Fail> {
    let mut bytes = Vec::new(alloc);
    order_to_json(alloc, texts, &mut bytes)?;
    Ok(String::from_utf8(bytes)?)
}

/// What a text lists, as it is written; or the refusal.
fn rewritten(alloc: Global, text: &str) -> Result<String, Fail> {
    match order_from_json(alloc, text.as_bytes()) {
        Ok(texts) => written(alloc, texts.as_slice()),
        Err(fault) => Ok(refused(alloc, &fault)?),
    }
}

fn is_listed(alloc: Global, text: &str, want: &str) -> Result<(), Fail> {
    let found = listed(alloc, text)?;
    same(alloc, text, found.as_str(), want)
}

/// The text of each row lists the references beside it, or is refused.
fn are_listed(alloc: Global, rows: &[(&str, &str)]) -> Result<(), Fail> {
    for (text, want) in rows {
        is_listed(alloc, *text, *want)?;
    }
    Ok(())
}

#[test]
fn references_that_are_listed(rt: HostRuntime) -> Result<(), Fail> {
    are_listed(rt.alloc(), TEXTS)
}

fn is_written(alloc: Global, text: &str, want: &str) -> Result<(), Fail> {
    let found = rewritten(alloc, text)?;
    same(alloc, text, found.as_str(), want)
}

/// The text of each row is written as it stands beside it.
fn are_written(alloc: Global, rows: &[(&str, &str)]) -> Result<(), Fail> {
    for (text, want) in rows {
        is_written(alloc, *text, *want)?;
    }
    Ok(())
}

#[test]
fn orders_that_are_written(rt: HostRuntime) -> Result<(), Fail> {
    are_written(rt.alloc(), WRITTEN)
}

/// What a text lists once it is written.
fn listed_again(alloc: Global, text: &str) -> Result<String, Fail> {
    let again = rewritten(alloc, text)?;
    listed(alloc, again.as_str())
}

/// What a text lists is listed again once it is written.
fn is_read_back(alloc: Global, text: &str) -> Result<(), Fail> {
    let again = listed_again(alloc, text)?;
    is_listed(alloc, text, again.as_str())
}

/// What the text of each row lists is listed again once it is written.
fn are_read_back(alloc: Global, rows: &[(&str, &str)]) -> Result<(), Fail> {
    for (text, _) in rows {
        is_read_back(alloc, *text)?;
    }
    Ok(())
}

#[test]
fn written_orders_are_read_back(rt: HostRuntime) -> Result<(), Fail> {
    are_read_back(rt.alloc(), WRITTEN)
}
