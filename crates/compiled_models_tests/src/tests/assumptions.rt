//! What is assumed of native resources.

use super::answers::{assumed_of, is_answered};
use std::alloc::Global;
use std::test::Fail;
use test_rows::same_number;

/// Resources of several types.
const RESOURCES: &str = concat!(
    r#"{"type":"Class","title":"main","kind":"unknown"},"#,
    r#"{"type":"Exec","title":"a","kind":"compilable_type","parameters":{"alias":"b"}},"#,
    r#"{"type":"Exec","title":"c","kind":"compilable_type","parameters":{"noop":true}},"#,
    r#"{"type":"Concat_file","title":"f","kind":"compilable_type","parameters":{"path":"/f"}},"#,
    r#"{"type":"Anchor","title":"s","kind":"compilable_type"}"#,
);

/// Members of assumptions, what those resources do then, and how many of them are assumed.
const ASSUMED: &[(&str, &str, usize)] = &[
    // an assumption of a resource wins over that of its type
    (
        r#""exec":{"needs":["/n"]},"Exec[a]":"none","anchor":{"removes":["/r"]}"#,
        "* id\n* if file?(\"/n\") then id else err\nif file?(\"/f\") then [rm(\"/f\"); creat(\"/f\",\"concat:[null,null]\")] else creat(\"/f\",\"concat:[null,null]\")\n* if file?(\"/r\") then rm(\"/r\") else id\n",
        3,
    ),
    // a resource is taken out of what its type has
    (
        r#""exec":"none","Exec[a]":"refused""#,
        "50 at 0: Exec[a]",
        1,
    ),
    (
        r#""exec":"none","Exec[c]":"refused","file":"none""#,
        "* id\nid\n* id\nid\n",
        2,
    ),
    // found by an alias, and by the path of what is put together
    (
        r#""Exec[b]":"none","File[//f/]":"none""#,
        "* id\nid\n* id\nid\n",
        2,
    ),
    // of two keys for one resource the first in the order of bytes
    (
        r#""exec[a]":"refused","Exec[b]":"none","Concat_file[f]":"none""#,
        "* id\nid\n* id\nid\n",
        2,
    ),
    // what is put together of fragments has the type of files
    (
        r#""exec":"none","concat_file":"none""#,
        "* id\n* id\nif file?(\"/f\") then [rm(\"/f\"); creat(\"/f\",\"concat:[null,null]\")] else creat(\"/f\",\"concat:[null,null]\")\nid\n",
        2,
    ),
    // what finds no native resource means nothing
    (
        r#""Class[main]":{"needs":["/n"]},"Exec[z]":"none","exec":"none","file":"none","class":"none""#,
        "* id\n* id\n* id\nid\n",
        3,
    ),
];

/// With each row's assumptions those resources have the programs beside them.
fn are_assumed(alloc: Global, rows: &[(&str, &str, usize)]) -> Result<(), Fail> {
    for (assumed, want, _) in rows {
        is_answered(alloc, RESOURCES, *assumed, *want)?;
    }
    Ok(())
}

#[test]
fn programs_are_assumed(rt: HostRuntime) -> Result<(), Fail> {
    are_assumed(rt.alloc(), ASSUMED)
}

/// With these assumptions so many of those resources are assumed.
fn is_counted(alloc: Global, assumed: &str, count: usize) -> Result<(), Fail> {
    let found = assumed_of(alloc, RESOURCES, assumed)?;
    same_number(alloc, assumed, found as u64, count as u64)
}

/// The same of each row's assumptions.
fn are_counted(alloc: Global, rows: &[(&str, &str, usize)]) -> Result<(), Fail> {
    for (assumed, _, count) in rows {
        is_counted(alloc, *assumed, *count)?;
    }
    Ok(())
}

#[test]
fn assumed_resources_are_counted(rt: HostRuntime) -> Result<(), Fail> {
    are_counted(rt.alloc(), ASSUMED)
}
