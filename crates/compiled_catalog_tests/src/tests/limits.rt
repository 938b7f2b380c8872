//! How many resources there may be, and how large their attributes.

use super::answers::{Part, is_answered, is_related};
use host_limits::Limits;
use std::alloc::Global;
use std::test::Fail;
use test_rows::joined;

/// Adds a resource with a number for its title, behind a comma if it isn't the first.
fn add_resource(
    alloc: Global,
    i: usize,
    front: &str,
    parameters: &str,
    text: &mut String,
) -> Result<(), Fail> {
    let comma = if i > 0 { "," } else { "" };
    let one = format!(in alloc;
        r#"{comma}{{{front},"title":"/{i}","parameters":{{{parameters}}}}}"#
    )?;
    text.push_str(one.as_str())?;
    Ok(())
}

/// So many resources of a type and a kind, each with these parameters.
fn resources(alloc: Global, count: usize, front: &str, parameters: &str) -> Result<String, Fail> {
    let mut text = String::new(alloc);
    for i in 0..count {
        add_resource(alloc, i, front, parameters, &mut text)?;
    }
    Ok(text)
}

const NATIVE: &str = r#""type":"Notify","kind":"compilable_type""#;

const CONTAINER: &str = r#""type":"D","kind":"defined_type""#;

/// How many of which, the limits, and the refusal.
const COUNTS: &[(usize, &str, Limits, &str)] = &[
    (256, NATIVE, Limits::Usual, ""),
    (257, NATIVE, Limits::Usual, "32 at 0: resources"),
    (1_024, NATIVE, Limits::Host, ""),
    (1_025, NATIVE, Limits::Host, "32 at 0: resources"),
    (4_096, CONTAINER, Limits::Usual, ""),
    (4_097, CONTAINER, Limits::Usual, "32 at 0: declared"),
    (4_097, NATIVE, Limits::Usual, "32 at 0: declared"),
    (4_097, CONTAINER, Limits::Host, ""),
];

/// This is answered of so many within these limits.
fn is_counted(
    alloc: Global,
    count: usize,
    front: &str,
    limits: Limits,
    want: &str,
) -> Result<(), Fail> {
    let text = resources(alloc, count, front, "")?;
    is_answered(alloc, Part::Relations, limits, text.as_str(), "", want)
}

/// The same of each row.
fn are_counted(alloc: Global, rows: &[(usize, &str, Limits, &str)]) -> Result<(), Fail> {
    for (count, front, limits, want) in rows {
        is_counted(alloc, *count, *front, *limits, *want)?;
    }
    Ok(())
}

#[test]
fn counts_are_limited(rt: HostRuntime) -> Result<(), Fail> {
    are_counted(rt.alloc(), COUNTS)
}

/// How many dots make a text of the size of a value's limit, or of one more.
fn dots_of(is_large: bool) -> usize {
    // a text is larger by one than its bytes
    if is_large { 262_144 } else { 262_143 }
}

/// A text in JSON of so many dots.
fn text(alloc: Global, count: usize) -> Result<String, Fail> {
    let dots = ".".repeat(alloc, count)?;
    Ok(joined(alloc, &[r#""message":""#, dots.as_str(), r#"""#])?)
}

/// So many resources, each with a text of so many dots.
fn with_texts(alloc: Global, dots: usize, count: usize) -> Result<String, Fail> {
    let parameters = text(alloc, dots)?;
    resources(alloc, count, NATIVE, parameters.as_str())
}

/// This is answered where so many resources have such a text.
fn is_sized(alloc: Global, is_large: bool, count: usize, want: &str) -> Result<(), Fail> {
    let text = with_texts(alloc, dots_of(is_large), count)?;
    is_related(alloc, text.as_str(), want)
}

/// Whether a text is too large, how many resources have it, and the refusal.
const SIZES: &[(bool, usize, &str)] = &[
    (false, 1, ""),
    (true, 1, "32 at 0: Notify[/0] message"),
    // all values together
    (false, 64, ""),
    (false, 65, "32 at 0: attributes"),
];

/// The same of each row.
fn are_sized(alloc: Global, rows: &[(bool, usize, &str)]) -> Result<(), Fail> {
    for (is_large, count, want) in rows {
        is_sized(alloc, *is_large, *count, *want)?;
    }
    Ok(())
}

#[test]
fn values_are_limited(rt: HostRuntime) -> Result<(), Fail> {
    are_sized(rt.alloc(), SIZES)
}
