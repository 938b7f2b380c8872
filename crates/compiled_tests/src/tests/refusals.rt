//! Texts that are no compiled catalogs.

use super::answers::{answer, is_answered};
use rh_base::NoMemory;
use std::alloc::Global;
use std::test::Fail;
use test_hosts::catalog_of;
use test_rows::{joined, nested, same};

fn is_refused(alloc: Global, row: &str, bytes: &[u8]) -> Result<(), Fail> {
    is_answered(alloc, row, bytes, "65 at 0: compiled")
}

/// Each text is refused.
fn are_refused(alloc: Global, texts: &[&str]) -> Result<(), Fail> {
    for text in texts {
        is_refused(alloc, *text, text.as_bytes())?;
    }
    Ok(())
}

#[test]
fn texts_of_another_form(rt: HostRuntime) -> Result<(), Fail> {
    are_refused(
        rt.alloc(),
        &[
            "",
            "null",
            "[]",
            "{}",
            "{\"catalog_format\":2,",
            "Notice: compiled\n{\"catalog_format\":2,\"resources\":[],\"edges\":[]}",
        ],
    )
}

#[test]
fn other_formats(rt: HostRuntime) -> Result<(), Fail> {
    are_refused(
        rt.alloc(),
        &[
            r#"{"resources":[],"edges":[]}"#,
            r#"{"catalog_format":1,"resources":[],"edges":[]}"#,
            r#"{"catalog_format":3,"resources":[],"edges":[]}"#,
            r#"{"catalog_format":-2,"resources":[],"edges":[]}"#,
            r#"{"catalog_format":2.0,"resources":[],"edges":[]}"#,
            r#"{"catalog_format":"2","resources":[],"edges":[]}"#,
            r#"{"catalog_format":null,"resources":[],"edges":[]}"#,
        ],
    )
}

#[test]
fn texts_without_a_list(rt: HostRuntime) -> Result<(), Fail> {
    are_refused(
        rt.alloc(),
        &[
            r#"{"catalog_format":2,"edges":[]}"#,
            r#"{"catalog_format":2,"resources":[]}"#,
            r#"{"catalog_format":2,"resources":null,"edges":[]}"#,
            r#"{"catalog_format":2,"resources":{},"edges":[]}"#,
            r#"{"catalog_format":2,"resources":[],"edges":{}}"#,
            r#"{"catalog_format":2,"resources":[],"edges":null}"#,
        ],
    )
}

fn both_are_refused(alloc: Global, resources: &str, edges: &str) -> Result<(), Fail> {
    let text = catalog_of(alloc, resources, edges)?;
    is_refused(alloc, text.as_str(), text.as_bytes())
}

/// Each row: resources that are refused.
fn are_no_resources(alloc: Global, rows: &[&str]) -> Result<(), Fail> {
    for resources in rows {
        both_are_refused(alloc, *resources, "")?;
    }
    Ok(())
}

#[test]
fn other_resources_are_refused(rt: HostRuntime) -> Result<(), Fail> {
    are_no_resources(
        rt.alloc(),
        &[
            "null",
            "[]",
            r#""File[/a]""#,
            "{}",
            r#"{"title":"/a","kind":"compilable_type"}"#,
            r#"{"type":1,"title":"/a","kind":"compilable_type"}"#,
        ],
    )
}

#[test]
fn other_types_are_refused(rt: HostRuntime) -> Result<(), Fail> {
    are_no_resources(
        rt.alloc(),
        &[
            r#"{"type":"","title":"/a","kind":"compilable_type"}"#,
            r#"{"type":"1file","title":"/a","kind":"compilable_type"}"#,
            r#"{"type":"_file","title":"/a","kind":"compilable_type"}"#,
            r#"{"type":"my-file","title":"/a","kind":"compilable_type"}"#,
            r#"{"type":"file ","title":"/a","kind":"compilable_type"}"#,
            r#"{"type":"filé","title":"/a","kind":"compilable_type"}"#,
            r#"{"type":"a:b","title":"/a","kind":"compilable_type"}"#,
            r#"{"type":"a::","title":"/a","kind":"compilable_type"}"#,
            r#"{"type":"a:","title":"/a","kind":"compilable_type"}"#,
            r#"{"type":"::a","title":"/a","kind":"compilable_type"}"#,
            r#"{"type":"a:::b","title":"/a","kind":"compilable_type"}"#,
            r#"{"type":"a::1","title":"/a","kind":"compilable_type"}"#,
        ],
    )
}

#[test]
fn other_titles_and_kinds_are_refused(rt: HostRuntime) -> Result<(), Fail> {
    are_no_resources(
        rt.alloc(),
        &[
            r#"{"type":"File","kind":"compilable_type"}"#,
            r#"{"type":"File","title":"","kind":"compilable_type"}"#,
            r#"{"type":"File","title":null,"kind":"compilable_type"}"#,
            r#"{"type":"File","title":5,"kind":"compilable_type"}"#,
            r#"{"type":"Class","title":"","kind":"unknown"}"#,
            r#"{"type":"Class","title":"::","kind":"unknown"}"#,
            r#"{"type":"File","title":"/a"}"#,
            r#"{"type":"File","title":"/a","kind":null}"#,
            r#"{"type":"File","title":"/a","kind":1}"#,
        ],
    )
}

#[test]
fn other_parameters_and_places_are_refused(rt: HostRuntime) -> Result<(), Fail> {
    are_no_resources(
        rt.alloc(),
        &[
            r#"{"type":"File","title":"/a","kind":"compilable_type","parameters":null}"#,
            r#"{"type":"File","title":"/a","kind":"compilable_type","parameters":[]}"#,
            r#"{"type":"File","title":"/a","kind":"compilable_type","parameters":"x"}"#,
            r#"{"type":"File","title":"/a","kind":"compilable_type","file":1}"#,
            r#"{"type":"File","title":"/a","kind":"compilable_type","file":["a"]}"#,
            r#"{"type":"File","title":"/a","kind":"compilable_type","line":"1"}"#,
            r#"{"type":"File","title":"/a","kind":"compilable_type","line":1.5}"#,
            r#"{"type":"File","title":"/a","kind":"compilable_type","line":9223372036854775808}"#,
            // the last of equal keys counts
            r#"{"type":"File","title":"/a","title":"","kind":"compilable_type"}"#,
        ],
    )
}

#[test]
fn resources_that_stand_twice_are_refused(rt: HostRuntime) -> Result<(), Fail> {
    are_no_resources(
        rt.alloc(),
        &[
            // two of one type and title
            r#"{"type":"File","title":"/a","kind":"compilable_type"},{"type":"file","title":"/a","kind":"compilable_type"}"#,
            r#"{"type":"Class","title":"a","kind":"unknown"},{"type":"File","title":"/a","kind":"compilable_type"},{"type":"Class","title":"::A","kind":"unknown"}"#,
            r#"{"type":"File","title":"/a","kind":"compilable_type"},{"type":"Concat_file","title":"/a","kind":"compilable_type"}"#,
            r#"{"type":"Concat_file","title":"x","kind":"compilable_type","parameters":{"path":"/a"}},{"type":"File","title":"/a","kind":"compilable_type","parameters":{"path":"/b"}}"#,
            r#"{"type":"Concat_file","title":"x","kind":"compilable_type","parameters":{"path":{"__ptype":"Sensitive","__pvalue":"/a"}}},{"type":"File","title":"/a","kind":"compilable_type"}"#,
            r#"{"type":"Concat_file","title":"x","kind":"compilable_type","parameters":{"path":"/a"}},{"type":"Concat_file","title":"y","kind":"compilable_type","parameters":{"path":"/a"}}"#,
            r#"{"type":"Concat_file","title":"x","kind":"compilable_type","parameters":{"path":"/a"}},{"type":"concat_file","title":"x","kind":"compilable_type","parameters":{"path":"/b"}}"#,
        ],
    )
}

/// A stage, a class, a defined resource, two files, and one that is put together of fragments.
const SIX: &str =
    r#"{"type":"Stage","title":"main","kind":"compilable_type"},{"type":"Class","title":"a","kind":"unknown"},{"type":"D","title":"x","kind":"defined_type"},{"type":"File","title":"/f","kind":"compilable_type"},{"type":"File","title":"/g","kind":"compilable_type"},{"type":"Concat_file","title":"c","kind":"compilable_type","parameters":{"path":"/c"}}"#;

/// Each row: edges among these resources that are refused.
fn are_no_edges(alloc: Global, rows: &[&str]) -> Result<(), Fail> {
    for edges in rows {
        both_are_refused(alloc, SIX, *edges)?;
    }
    Ok(())
}

#[test]
fn other_edges_are_refused(rt: HostRuntime) -> Result<(), Fail> {
    are_no_edges(
        rt.alloc(),
        &[
            "null",
            "[]",
            "{}",
            r#"{"source":"Class[a]"}"#,
            r#"{"target":"File[/f]"}"#,
            r#"{"source":null,"target":"File[/f]"}"#,
            r#"{"source":"Class[a]","target":3}"#,
        ],
    )
}

#[test]
fn edges_without_references_are_refused(rt: HostRuntime) -> Result<(), Fail> {
    are_no_edges(
        rt.alloc(),
        &[
            // no references
            r#"{"source":"","target":"File[/f]"}"#,
            r#"{"source":"Class","target":"File[/f]"}"#,
            r#"{"source":"Class[a","target":"File[/f]"}"#,
            r#"{"source":"Class a]","target":"File[/f]"}"#,
            r#"{"source":"[a]","target":"File[/f]"}"#,
            r#"{"source":"Class[]","target":"File[/f]"}"#,
            r#"{"source":"Class[a] ","target":"File[/f]"}"#,
            r#"{"source":"::Class[a]","target":"File[/f]"}"#,
            r#"{"source":"Class[a]","target":"File [/f]"}"#,
        ],
    )
}

#[test]
fn edges_that_name_nothing_are_refused(rt: HostRuntime) -> Result<(), Fail> {
    are_no_edges(
        rt.alloc(),
        &[
            // they name nothing
            r#"{"source":"Class[b]","target":"File[/f]"}"#,
            r#"{"source":"Class[::]","target":"File[/f]"}"#,
            r#"{"source":"Class[a]","target":"File[/F]"}"#,
            r#"{"source":"Class[a]","target":"File[/h]"}"#,
            r#"{"source":"D[X]","target":"File[/f]"}"#,
            r#"{"source":"Class[a]","target":"File[/c]"}"#,
        ],
    )
}

#[test]
fn edges_of_no_container_and_of_several_are_refused(rt: HostRuntime) -> Result<(), Fail> {
    are_no_edges(
        rt.alloc(),
        &[
            // the source is no container
            r#"{"source":"File[/f]","target":"File[/g]"}"#,
            r#"{"source":"Concat_file[c]","target":"File[/g]"}"#,
            // what isn't a class is contained twice
            r#"{"source":"Class[a]","target":"File[/f]"},{"source":"D[x]","target":"File[/f]"}"#,
            r#"{"source":"Class[a]","target":"File[/f]"},{"source":"Class[a]","target":"File[/f]"}"#,
            r#"{"source":"Class[a]","target":"D[x]"},{"source":"Class[a]","target":"File[/f]"},{"source":"Stage[main]","target":"D[x]"}"#,
            r#"{"source":"Stage[main]","target":"Stage[main]"},{"source":"Class[a]","target":"Stage[main]"}"#,
        ],
    )
}

#[test]
fn other_bytes_are_refused(rt: HostRuntime) -> Result<(), Fail> {
    is_refused(rt.alloc(), "no text", &[b'{', 255, b'}'])
}

/// A front, and so many lists within one another.
fn lists_behind(alloc: Global, lists: usize) -> Result<String, NoMemory> {
    let front = r#"{"catalog_format":2,"resources":[],"edges":[],"more":"#;
    nested(alloc, &(front, "[", "", "]"), lists)
}

/// A text of which a key that doesn't count has so many lists within one another.
fn with_lists(alloc: Global, lists: usize) -> Result<String, NoMemory> {
    let text = lists_behind(alloc, lists)?;
    joined(alloc, &[text.as_str(), "}"])
}

/// The word for a text that is read, and for one that isn't.
fn word(is_read: bool) -> &'static str {
    if is_read { "read" } else { "refused" }
}

fn text_is_read(alloc: Global, text: &str, want: bool) -> Result<(), Fail> {
    let told = answer(alloc, text.as_bytes())?;
    same(alloc, text, word(told.is_empty()), word(want))
}

fn is_read_with(alloc: Global, lists: usize, want: bool) -> Result<(), Fail> {
    let text = with_lists(alloc, lists)?;
    text_is_read(alloc, text.as_str(), want)
}

/// Each row: how many lists are within one another, and whether the text is read.
fn are_read(alloc: Global, rows: &[(usize, bool)]) -> Result<(), Fail> {
    for (lists, want) in rows {
        is_read_with(alloc, *lists, *want)?;
    }
    Ok(())
}

#[test]
fn json_nests_127_levels(rt: HostRuntime) -> Result<(), Fail> {
    // the object around them is one level
    are_read(
        rt.alloc(),
        &[(1, true), (126, true), (127, false), (4000, false)],
    )
}
