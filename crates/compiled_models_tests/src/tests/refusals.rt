//! Native resources that are refused.

use super::answers::{answer, are_answered};
use std::alloc::Global;
use std::test::Fail;
use test_rows::{joined, same_at};

/// Resources, members of assumptions, and what is answered.
const REFUSED: &[(&str, &str, &str)] = &[
    // the line of the manifest
    (
        r#"{"type":"Exec","title":"apt-get update","kind":"compilable_type","file":"/m/apt.pp","line":7}"#,
        "",
        "50 at 0: Exec[apt-get update] (/m/apt.pp:7)",
    ),
    (
        r#"{"type":"File","title":"/a","kind":"compilable_type","file":"/m/a.pp","line":3,"parameters":{"schedule":"night"}}"#,
        "",
        "51 at 0: File[/a] schedule (/m/a.pp:3)",
    ),
    (
        r#"{"type":"File","title":"/a","kind":"compilable_type","file":"/m/a.pp","line":null,"parameters":{"schedule":"night"}}"#,
        "",
        "51 at 0: File[/a] schedule",
    ),
    // a link with `replace` false, at the place of `replace` among the attributes
    (
        r#"{"type":"File","title":"/a","kind":"compilable_type","parameters":{"ensure":"link","target":"/b","replace":false}}"#,
        "",
        "51 at 0: File[/a] replace",
    ),
    (
        r#"{"type":"File","title":"/a","kind":"compilable_type","parameters":{"ensure":"/b","replace":false,"source":"/s"}}"#,
        "",
        "51 at 0: File[/a] replace",
    ),
    (
        r#"{"type":"File","title":"/a","kind":"compilable_type","parameters":{"content":"x","replace":"maybe"}}"#,
        "",
        "51 at 0: File[/a] replace",
    ),
    // the first resource, and of one the states, then attributes, then names
    (
        r#"{"type":"File","title":"a","kind":"compilable_type","parameters":{"ensure":"maybe","recurse":true,"purge":true}}"#,
        "",
        "55 at 0: File[a]",
    ),
    (
        r#"{"type":"File","title":"a","kind":"compilable_type","parameters":{"recurse":true,"purge":true}}"#,
        "",
        "51 at 0: File[a] purge",
    ),
    (
        r#"{"type":"File","title":"a","kind":"compilable_type"}"#,
        "",
        "52 at 0: File[a]",
    ),
    (
        r#"{"type":"File","title":"/.rehearsal/a","kind":"compilable_type"}"#,
        "",
        "53 at 0: File[/.rehearsal/a]",
    ),
    (
        r#"{"type":"File","title":"/a","kind":"compilable_type","parameters":{"source":"/.rehearsal/a"}}"#,
        "",
        "53 at 0: File[/a]",
    ),
    (
        r#"{"type":"Package","title":"q","kind":"compilable_type"}"#,
        "",
        "54 at 0: Package[q]",
    ),
    (
        r#"{"type":"Package","title":"q","kind":"compilable_type"},{"type":"Exec","title":"e","kind":"compilable_type"}"#,
        "",
        "54 at 0: Package[q]",
    ),
    // one path twice, which counts of models only
    (
        r#"{"type":"File","title":"/a","kind":"compilable_type"},{"type":"File","title":"b","kind":"compilable_type","parameters":{"path":"//a/"}}"#,
        "",
        "56 at 0: File[b]",
    ),
    (
        r#"{"type":"File","title":"/a","kind":"compilable_type"},{"type":"File","title":"b","kind":"compilable_type","parameters":{"path":"/a","noop":true}}"#,
        "",
        "id\nid\n",
    ),
    (
        r#"{"type":"File","title":"/a","kind":"compilable_type","parameters":{"noop":true}},{"type":"File","title":"b","kind":"compilable_type","parameters":{"path":"/a"}}"#,
        "",
        "id\nid\n",
    ),
    (
        r#"{"type":"File","title":"/a","kind":"compilable_type"},{"type":"File","title":"b","kind":"compilable_type","parameters":{"path":"/a"}}"#,
        r#""File[b]":"none""#,
        "id\n* id\n",
    ),
    (
        r#"{"type":"File","title":"/a","kind":"compilable_type"},{"type":"File","title":"b","kind":"compilable_type","parameters":{"path":"/a"}}"#,
        r#""File[/a]":{"needs":["/c"]}"#,
        "* if file?(\"/c\") then id else err\nid\n",
    ),
];

#[test]
fn resources_are_refused(rt: HostRuntime) -> Result<(), Fail> {
    are_answered(rt.alloc(), REFUSED)
}

/// How long the title of an `Exec` is, what is assumed of it, and whether it has a program.
const NAMED: &[(usize, &str, bool)] = &[
    (249, r#""exec":{"makes":["/m"]}"#, true),
    (250, r#""exec":{"makes":["/m"]}"#, false),
    (250, r#""exec":{"edits":["/m"]}"#, false),
    (250, r#""exec":{"needs":["/m"],"makes":[]}"#, true),
    (250, r#""exec":"none""#, true),
];

/// An `Exec` of such a title.
fn titled(alloc: Global, count: usize) -> Result<String, Fail> {
    let title = "x".repeat(alloc, count)?;
    Ok(joined(
        alloc,
        &[
            r#"{"type":"Exec","title":""#,
            title.as_str(),
            r#"","kind":"compilable_type"}"#,
        ],
    )?)
}

fn word(accepted: bool) -> &'static str {
    if accepted { "accepted" } else { "refused" }
}

/// Whether a resource has a program, or is refused because of its name.
fn accepted_in(alloc: Global, resources: &str, assumed: &str) -> Result<bool, Fail> {
    let told = answer(alloc, resources, assumed)?;
    Ok(!told.starts_with("52 at 0: Exec[xx"))
}

/// The same of an `Exec` whose title is so long.
fn accepted_of(alloc: Global, count: usize, assumed: &str) -> Result<bool, Fail> {
    let resources = titled(alloc, count)?;
    accepted_in(alloc, resources.as_str(), assumed)
}

fn is_accepted(alloc: Global, count: usize, assumed: &str, want: bool) -> Result<(), Fail> {
    let accepted = accepted_of(alloc, count, assumed)?;
    same_at(alloc, count as u64, assumed, word(accepted), word(want))
}

/// The same of each row's title and assumption.
fn are_accepted(alloc: Global, rows: &[(usize, &str, bool)]) -> Result<(), Fail> {
    for (count, assumed, want) in rows {
        is_accepted(alloc, *count, *assumed, *want)?;
    }
    Ok(())
}

#[test]
fn long_references_make_nothing(rt: HostRuntime) -> Result<(), Fail> {
    are_accepted(rt.alloc(), NAMED)
}
