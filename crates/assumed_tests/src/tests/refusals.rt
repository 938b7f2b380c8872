//! Texts that are no assumptions.

use super::answers::{REFUSED, answer_of, are_refused, is_refused, text_of};
use std::alloc::Global;
use std::test::Fail;
use test_rows::{joined, numbered, same_at};

/// Texts of another form.
const FORMS: &[&str] = &[
    "",
    "null",
    "[]",
    "{}",
    r#""none""#,
    r#"{"version":1,"resources":{}"#,
    r#"{"version":1,"resources":{}}}"#,
    r#"{"version":1}"#,
    r#"{"resources":{}}"#,
    r#"{"version":1,"resources":{},"more":1}"#,
    r#"{"version":1,"Resources":{}}"#,
    r#"{"version":0,"resources":{}}"#,
    r#"{"version":2,"resources":{}}"#,
    r#"{"version":1.0,"resources":{}}"#,
    r#"{"version":-1,"resources":{}}"#,
    r#"{"version":"1","resources":{}}"#,
    r#"{"version":null,"resources":{}}"#,
    r#"{"version":1,"resources":null}"#,
    r#"{"version":1,"resources":[]}"#,
    r#"{"version":1,"resources":"none"}"#,
    // the last of equal keys counts
    r#"{"version":1,"resources":{},"version":2}"#,
];

/// Keys that are neither references nor types.
const KEYS: &[&str] = &[
    "",
    "1exec",
    "_exec",
    "my-exec",
    "exec ",
    " exec",
    "éxec",
    "a:b",
    "a::",
    "::a",
    "a:::b",
    "exec]",
    "[",
    "[]",
    "[x]",
    "Exec[",
    "Exec[]",
    "Exec[x",
    "Exec[x] ",
    "Exec [x]",
    "::Exec[x]",
    "My-exec[x]",
    "Exec[x]]y",
];

/// What is no assumption.
const ASSUMED: &[&str] = &[
    "null",
    "true",
    "1",
    "[]",
    r#"["none"]"#,
    r#""""#,
    r#""None""#,
    r#""nothing""#,
    r#""refused ""#,
    r#""file""#,
    // no key of paths
    "{}",
    r#"{"creates":"/c"}"#,
    r#"{"none":[]}"#,
    // another key
    r#"{"needs":["/a"],"more":[]}"#,
    r#"{"needs":["/a"],"Makes":["/b"]}"#,
    r#"{"needs":["/a"],"":"/b"}"#,
    // no arrays of path texts
    r#"{"needs":null}"#,
    r#"{"needs":"/a"}"#,
    r#"{"needs":{}}"#,
    r#"{"needs":[1]}"#,
    r#"{"needs":[null]}"#,
    r#"{"needs":[["/a"]]}"#,
    r#"{"needs":["/a",5]}"#,
    r#"{"needs":["/a"],"folders":"/b"}"#,
    r#"{"needs":["/a"],"makes":"/b"}"#,
    r#"{"needs":["/a"],"edits":"/b"}"#,
    r#"{"needs":["/a"],"removes":"/b"}"#,
    // `creates` is no path text
    r#"{"needs":["/a"],"creates":null}"#,
    r#"{"needs":["/a"],"creates":["/c"]}"#,
    r#"{"needs":["/a"],"creates":""}"#,
    r#"{"needs":["/a"],"creates":"c"}"#,
];

/// Texts that are no paths, the root, and paths at or under `/.rehearsal`.
const PATHS: &[&str] = &[
    "",
    "a",
    "./a",
    "/a/./b",
    "/a/../b",
    "/..",
    "C:/a",
    "/",
    "//",
    "/.rehearsal",
    "/.rehearsal/",
    "/.rehearsal/edit",
    "//.rehearsal/a/b",
];

/// One path twice.
const TWICE: &[&str] = &[
    r#"{"needs":["/a","/a"]}"#,
    r#"{"needs":["/a","/b","/a"]}"#,
    r#"{"needs":["/a","//a/"]}"#,
    r#"{"folders":["/a","/a"]}"#,
    r#"{"makes":["/a","/a"]}"#,
    r#"{"edits":["/a","/a"]}"#,
    r#"{"removes":["/a","/a"]}"#,
    r#"{"needs":["/a"],"folders":["/a"]}"#,
    r#"{"needs":["/a"],"makes":["/b","/a"]}"#,
    r#"{"folders":["/a"],"edits":["/a"]}"#,
    r#"{"makes":["/a"],"removes":["/a"]}"#,
    r#"{"edits":["/a"],"removes":["/b","/a"]}"#,
    r#"{"needs":["/a"],"removes":["/a"],"creates":"/c"}"#,
];

#[test]
fn other_forms_are_refused(rt: HostRuntime) -> Result<(), Fail> {
    are_refused(rt.alloc(), FORMS)
}

/// A text with a member of this key and of what is assumed.
fn text_with(alloc: Global, key: &str, assumed: &str) -> Result<String, Fail> {
    let member = joined(alloc, &[r#""File[/ok]":"none",""#, key, r#"":"#, assumed])?;
    text_of(alloc, member.as_str())
}

/// A member of this key and of what is assumed is refused.
fn is_refused_member(alloc: Global, key: &str, assumed: &str) -> Result<(), Fail> {
    let text = text_with(alloc, key, assumed)?;
    is_refused(alloc, text.as_str(), text.as_bytes())
}

/// A member of each key is refused.
fn are_refused_keys(alloc: Global, keys: &[&str]) -> Result<(), Fail> {
    for key in keys {
        is_refused_member(alloc, *key, r#""none""#)?;
    }
    Ok(())
}

#[test]
fn other_keys_are_refused(rt: HostRuntime) -> Result<(), Fail> {
    are_refused_keys(rt.alloc(), KEYS)
}

/// Under a key each of what is assumed is refused.
fn are_refused_members(alloc: Global, key: &str, rows: &[&str]) -> Result<(), Fail> {
    for assumed in rows {
        is_refused_member(alloc, key, *assumed)?;
    }
    Ok(())
}

#[test]
fn other_assumptions_are_refused(rt: HostRuntime) -> Result<(), Fail> {
    are_refused_members(rt.alloc(), "Exec[x]", ASSUMED)
}

#[test]
fn paths_stand_once(rt: HostRuntime) -> Result<(), Fail> {
    are_refused_members(rt.alloc(), "exec", TWICE)
}

/// The keys under which paths stand, with what stands before and behind a path.
const PARTS: &[(&str, &str)] = &[
    (r#"{"needs":[""#, r#""]}"#),
    (r#"{"folders":["/ok",""#, r#""]}"#),
    (r#"{"makes":[""#, r#""]}"#),
    (r#"{"edits":[""#, r#""]}"#),
    (r#"{"removes":[""#, r#""]}"#),
    (r#"{"needs":[],"creates":""#, r#""}"#),
];

/// A path is refused between what stands before and behind it.
fn is_refused_between(alloc: Global, before: &str, path: &str, behind: &str) -> Result<(), Fail> {
    let assumed = joined(alloc, &[before, path, behind])?;
    is_refused_member(alloc, "exec", assumed.as_str())
}

/// A path is refused in each of these parts.
fn is_refused_path(alloc: Global, parts: &[(&str, &str)], path: &str) -> Result<(), Fail> {
    for (before, behind) in parts {
        is_refused_between(alloc, *before, path, *behind)?;
    }
    Ok(())
}

/// Each path is refused in each of these parts.
fn are_refused_paths(alloc: Global, parts: &[(&str, &str)], paths: &[&str]) -> Result<(), Fail> {
    for path in paths {
        is_refused_path(alloc, parts, *path)?;
    }
    Ok(())
}

#[test]
fn other_paths_are_refused(rt: HostRuntime) -> Result<(), Fail> {
    are_refused_paths(rt.alloc(), PARTS, PATHS)
}

fn push_path(alloc: Global, front: &str, i: usize, text: &mut String) -> Result<(), Fail> {
    let path = numbered(alloc, front, i as u64, r#"",""#)?;
    Ok(text.push_str(path.as_str())?)
}

/// All but the last of so many paths: the same front, and numbers behind it.
fn paths(alloc: Global, front: &str, count: usize) -> Result<String, Fail> {
    let mut text = String::new(alloc);
    for i in 1..count {
        push_path(alloc, front, i, &mut text)?;
    }
    Ok(text)
}

/// A behavior of paths that it needs, and so many that it removes.
fn with_needs(alloc: Global, needs: &str, removes: usize) -> Result<String, Fail> {
    let removes = paths(alloc, "/r", removes)?;
    Ok(joined(
        alloc,
        &[
            r#""exec":{"needs":[""#,
            needs,
            r#"/n"],"removes":[""#,
            removes.as_str(),
            r#"/r"],"creates":"/c"}"#,
        ],
    )?)
}

/// A behavior of so many paths that it needs, and so many that it removes.
fn of_paths(alloc: Global, needs: usize, removes: usize) -> Result<String, Fail> {
    let needs = paths(alloc, "/n", needs)?;
    with_needs(alloc, needs.as_str(), removes)
}

/// What is answered of such a behavior.
fn told_of_paths(alloc: Global, needs: usize, removes: usize) -> Result<String, Fail> {
    let member = of_paths(alloc, needs, removes)?;
    answer_of(alloc, member.as_str())
}

fn word(read: bool) -> &'static str {
    if read { "read" } else { "refused" }
}

/// Such a behavior is read or not.
fn is_read(alloc: Global, needs: usize, removes: usize, want: bool) -> Result<(), Fail> {
    let told = told_of_paths(alloc, needs, removes)?;
    let read = told.as_str() != REFUSED;
    same_at(alloc, needs as u64, "needed paths", word(read), word(want))
}

/// A behavior of each row, so many paths that it needs and that it removes, is read or not.
fn are_read(alloc: Global, rows: &[(usize, usize, bool)]) -> Result<(), Fail> {
    for (needs, removes, want) in rows {
        is_read(alloc, *needs, *removes, *want)?;
    }
    Ok(())
}

#[test]
fn a_behavior_has_64_paths(rt: HostRuntime) -> Result<(), Fail> {
    are_read(
        rt.alloc(),
        &[
            (1, 63, true),
            (32, 32, true),
            (63, 2, false),
            (33, 32, false),
        ],
    )
}

#[test]
fn other_bytes_are_refused(rt: HostRuntime) -> Result<(), Fail> {
    is_refused(rt.alloc(), "no text", &[b'{', 255, b'}'])
}
