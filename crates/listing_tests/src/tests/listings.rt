//! Listings from texts, and as they are written.

use super::answers::is_answered;
use std::alloc::Global;
use std::test::Fail;

/// Each row: a text, and its listing as it is written.
fn are_written(alloc: Global, rows: &[(&str, &str)]) -> Result<(), Fail> {
    for (text, want) in rows {
        is_answered(alloc, *text, *want)?;
    }
    Ok(())
}

#[test]
fn listings_that_are_read(rt: HostRuntime) -> Result<(), Fail> {
    are_written(
        rt.alloc(),
        &[
            (
                r#"{"version":1,"packages":{"ntp":{"files":["/etc/ntp.conf"],"folders":[]}}}"#,
                r#"{"packages":{"ntp":{"files":[["/etc/ntp.conf",null]],"folders":[]}},"version":2}"#,
            ),
            (
                r#"{"packages":{},"version":2}"#,
                r#"{"packages":{},"version":2}"#,
            ),
            (
                r#"{"version":2,"packages":{"b":{"folders":["//o/"],"files":[["/x","d"],["/y","d"]]},"a":{"files":[],"folders":[]}}}"#,
                r#"{"packages":{"a":{"files":[],"folders":[]},"b":{"files":[["/x","d"],["/y","d"]],"folders":["/o"]}},"version":2}"#,
            ),
            (
                r#"{"version":3,"version":1,"packages":{"":{"files":[],"folders":[]}}}"#,
                r#"{"packages":{"":{"files":[],"folders":[]}},"version":2}"#,
            ),
            (
                r#" {"version": 1, "packages": {"a": {"files": ["//a//b/", "/c"], "folders": ["/d/"]}}} "#,
                r#"{"packages":{"a":{"files":[["/a/b",null],["/c",null]],"folders":["/d"]}},"version":2}"#,
            ),
            // a path may stand in two packages
            (
                r#"{"version":2,"packages":{"b":{"files":[["/x","d1"]],"folders":[]},"a":{"files":[["/x","d2"]],"folders":[]}}}"#,
                r#"{"packages":{"a":{"files":[["/x","d2"]],"folders":[]},"b":{"files":[["/x","d1"]],"folders":[]}},"version":2}"#,
            ),
            (
                r#"{"version":2,"packages":{"b":{"files":[["/b",null],["/a","\n"]],"folders":[]},"B":{"files":[],"folders":["/a/b","/a"]},"\"":{"files":[],"folders":[]}}}"#,
                r#"{"packages":{"\"":{"files":[],"folders":[]},"B":{"files":[],"folders":["/a/b","/a"]},"b":{"files":[["/b",null],["/a","\n"]],"folders":[]}},"version":2}"#,
            ),
        ],
    )
}

/// Each text is refused.
fn are_refused(alloc: Global, texts: &[&str]) -> Result<(), Fail> {
    for text in texts {
        is_answered(alloc, *text, "61 at 0: packages")?;
    }
    Ok(())
}

#[test]
fn texts_of_another_shape(rt: HostRuntime) -> Result<(), Fail> {
    are_refused(
        rt.alloc(),
        &[
            "",
            "[]",
            "{}",
            "null",
            r#"{"version":1,"packages":{}"#,
            r#"{"version":1,"packages":{}}]"#,
            r#"{"packages":{}}"#,
        ],
    )
}

#[test]
fn other_versions_are_refused(rt: HostRuntime) -> Result<(), Fail> {
    are_refused(
        rt.alloc(),
        &[
            r#"{"version":0,"packages":{}}"#,
            r#"{"version":3,"packages":{}}"#,
            r#"{"version":1,"version":3,"packages":{}}"#,
            r#"{"version":1.0,"packages":{}}"#,
            r#"{"version":"1","packages":{}}"#,
            r#"{"version":null,"packages":{}}"#,
        ],
    )
}

#[test]
fn listings_of_other_members(rt: HostRuntime) -> Result<(), Fail> {
    are_refused(
        rt.alloc(),
        &[
            r#"{"version":1}"#,
            r#"{"version":1,"packages":[]}"#,
            r#"{"version":2,"packages":null}"#,
            r#"{"version":1,"packages":{},"more":1}"#,
            r#"{"version":2,"packages":{},"more":1}"#,
        ],
    )
}

#[test]
fn packages_of_another_shape(rt: HostRuntime) -> Result<(), Fail> {
    are_refused(
        rt.alloc(),
        &[
            r#"{"version":1,"packages":{"a":[]}}"#,
            r#"{"version":1,"packages":{"a":{"files":[]}}}"#,
            r#"{"version":1,"packages":{"a":{"folders":[]}}}"#,
            r#"{"version":1,"packages":{"a":{"files":[],"folders":[],"more":1}}}"#,
            r#"{"version":1,"packages":{"a":{"files":{},"folders":[]}}}"#,
            r#"{"version":1,"packages":{"a":{"files":[],"folders":{}}}}"#,
            r#"{"version":1,"packages":{"a":{"files":[1],"folders":[]}}}"#,
            r#"{"version":1,"packages":{"a":{"files":[],"folders":[null]}}}"#,
        ],
    )
}

#[test]
fn files_of_another_shape(rt: HostRuntime) -> Result<(), Fail> {
    are_refused(
        rt.alloc(),
        &[
            r#"{"version":1,"packages":{"a":{"files":[["/a",null]],"folders":[]}}}"#,
            r#"{"version":2,"packages":{"a":{"files":["/a"],"folders":[]}}}"#,
            r#"{"version":2,"packages":{"a":{"files":[],"folders":[["/a",null]]}}}"#,
            r#"{"version":2,"packages":{"a":{"files":[[]],"folders":[]}}}"#,
            r#"{"version":2,"packages":{"a":{"files":[["/a"]],"folders":[]}}}"#,
            r#"{"version":2,"packages":{"a":{"files":[["/a",null,1]],"folders":[]}}}"#,
            r#"{"version":2,"packages":{"a":{"files":[[null,"/a"]],"folders":[]}}}"#,
            r#"{"version":2,"packages":{"a":{"files":[["/a",1]],"folders":[]}}}"#,
            r#"{"version":2,"packages":{"a":{"files":[["/a",""]],"folders":[]}}}"#,
        ],
    )
}

#[test]
fn paths_that_may_not_be_managed(rt: HostRuntime) -> Result<(), Fail> {
    are_refused(
        rt.alloc(),
        &[
            r#"{"version":1,"packages":{"a":{"files":[""],"folders":[]}}}"#,
            r#"{"version":1,"packages":{"a":{"files":["a"],"folders":[]}}}"#,
            r#"{"version":1,"packages":{"a":{"files":[],"folders":["a"]}}}"#,
            r#"{"version":1,"packages":{"a":{"files":["/"],"folders":[]}}}"#,
            r#"{"version":1,"packages":{"a":{"files":[],"folders":["//"]}}}"#,
            r#"{"version":1,"packages":{"a":{"files":["/a/../b"],"folders":[]}}}"#,
            r#"{"version":1,"packages":{"a":{"files":["/a/./b"],"folders":[]}}}"#,
            r#"{"version":1,"packages":{"a":{"files":["/a\u0000"],"folders":[]}}}"#,
            r#"{"version":1,"packages":{"a":{"files":["/.rehearsal"],"folders":[]}}}"#,
            r#"{"version":1,"packages":{"a":{"files":["/.rehearsal/x"],"folders":[]}}}"#,
            r#"{"version":1,"packages":{"a":{"files":[],"folders":["/.rehearsal"]}}}"#,
            r#"{"version":1,"packages":{"a":{"files":[],"folders":["//.rehearsal//x"]}}}"#,
        ],
    )
}

#[test]
fn paths_that_stand_twice(rt: HostRuntime) -> Result<(), Fail> {
    are_refused(
        rt.alloc(),
        &[
            r#"{"version":1,"packages":{"a":{"files":["/a"],"folders":["/a/"]}}}"#,
            r#"{"version":1,"packages":{"a":{"files":["/a","//a"],"folders":[]}}}"#,
            r#"{"version":1,"packages":{"a":{"files":[],"folders":["/a","/b","/a"]}}}"#,
        ],
    )
}

#[test]
fn paths_with_digests(rt: HostRuntime) -> Result<(), Fail> {
    are_refused(
        rt.alloc(),
        &[
            r#"{"version":2,"packages":{"a":{"files":[["a",null]],"folders":[]}}}"#,
            r#"{"version":2,"packages":{"a":{"files":[["/","d"]],"folders":[]}}}"#,
            r#"{"version":2,"packages":{"a":{"files":[["/.rehearsal/x","d"]],"folders":[]}}}"#,
            r#"{"version":2,"packages":{"a":{"files":[["/a","d"],["/a/","e"]],"folders":[]}}}"#,
            r#"{"version":2,"packages":{"a":{"files":[["/a",null]],"folders":["/a"]}}}"#,
            r#"{"version":2,"packages":{"a":{"files":[["/a",null]],"folders":[]},"b":{"files":[["b",null]],"folders":[]}}}"#,
        ],
    )
}
