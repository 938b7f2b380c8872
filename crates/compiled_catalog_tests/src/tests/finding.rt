//! What references find, and the values of relations.

use super::texts::compiled;
use compiled_relations::{Index, are_references, related_to};
use compiled_text::{CompiledCatalog, CompiledResource};
use pp_value::{Ref, Value, show, shown_ref};
use rh_base::{Boxed, Fault};
use std::alloc::Global;
use std::test::Fail;
use test_rows::{joined, refused, same};

/// Two files, of which the first has an alias, a package with aliases, a class, files with paths of their own, and files that are put
/// together of fragments.
const RESOURCES: &str = concat!(
    r#"{"type":"File","title":"/a","kind":"compilable_type","parameters":{"alias":"first"}},"#,
    r#"{"type":"File","title":"/b/","kind":"compilable_type"},"#,
    r#"{"type":"Package","title":"web","kind":"compilable_type","parameters":{"alias":["www","/a",7,["deep"]]}},"#,
    r#"{"type":"Package","title":"www2","kind":"compilable_type","parameters":{"alias":["www","web","www3"]}},"#,
    r#"{"type":"Class","title":"Main","kind":"unknown","parameters":{"alias":["","all"]}},"#,
    r#"{"type":"File","title":"conf","kind":"compilable_type","parameters":{"path":"//etc/conf","alias":"/b/"}},"#,
    r#"{"type":"File","title":"odd","kind":"compilable_type","parameters":{"path":5}},"#,
    r#"{"type":"File","title":"/undef","kind":"compilable_type","parameters":{"path":null}},"#,
    r#"{"type":"Concat_file","title":"frag","kind":"compilable_type","parameters":{"path":"/etc/frag/","alias":"pieces"}},"#,
    r#"{"type":"Concat_file","title":"/whole","kind":"compilable_type"},"#,
    r#"{"type":"File","title":"again","kind":"compilable_type","parameters":{"path":"/etc/conf/"}},"#,
    r#"{"type":"My::Type","title":"x","kind":"defined_type","parameters":{"alias":"y"}}"#,
);

/// References, and what they find; a dash for nothing.
const FOUND: &[(&str, &str)] = &[
    ("File[/a]", "File[/a]"),
    ("FILE[/a]", "File[/a]"),
    ("File[/A]", "-"),
    // by alias, and then by path
    ("File[first]", "File[/a]"),
    ("File[/b/]", "File[/b/]"),
    ("File[/b]", "File[/b/]"),
    ("File[//b]", "File[/b/]"),
    ("File[//a//]", "File[/a]"),
    ("File[/etc/conf]", "File[conf]"),
    ("File[/etc//conf/]", "File[conf]"),
    ("File[conf]", "File[conf]"),
    ("File[odd]", "File[odd]"),
    ("File[/undef]", "File[/undef]"),
    ("File[/undef/]", "File[/undef]"),
    ("File[again]", "File[again]"),
    // no paths
    ("File[/a/.]", "-"),
    ("File[a]", "-"),
    // a list of aliases: the first resource that has it, but a title goes ahead
    ("Package[www]", "Package[web]"),
    ("Package[web]", "Package[web]"),
    ("Package[www3]", "Package[www2]"),
    ("Package[/a]", "Package[web]"),
    ("Package[7]", "-"),
    ("Package[deep]", "-"),
    ("Package[first]", "-"),
    // classes
    ("Class[main]", "Class[main]"),
    ("Class[::MAIN]", "Class[main]"),
    ("Class[All]", "Class[main]"),
    ("Class[::]", "-"),
    // what is put together of fragments counts as the file at its path
    ("Concat_file[frag]", "File[/etc/frag/]"),
    ("Concat_file[pieces]", "File[/etc/frag/]"),
    ("Concat_file[/etc/frag/]", "-"),
    ("File[/etc/frag/]", "File[/etc/frag/]"),
    ("File[/etc/frag]", "File[/etc/frag/]"),
    ("File[frag]", "-"),
    ("File[pieces]", "-"),
    ("Concat_file[/whole]", "File[/whole]"),
    ("File[/whole]", "File[/whole]"),
    ("File[//whole]", "File[/whole]"),
    ("Concat_file[/whole/]", "-"),
    ("my::type[x]", "My::Type[x]"),
    ("My::Type[y]", "My::Type[x]"),
    ("My::Type[X]", "-"),
    // no references
    ("/a", "-"),
    ("File[/a", "-"),
    ("File[]", "-"),
    ("", "-"),
];

/// What is found, or a dash.
fn found_shown(alloc: Global, found: &Option<Ref>) -> Result<String, Fail> {
    match found {
        Some(r) => Ok(shown_ref(alloc, r)?.into_string()),
        None => Ok(String::from_str(alloc, "-")?),
    }
}

fn found(alloc: Global, index: &Index, text: &str) -> Result<String, Fail> {
    let found = index.found_by(alloc, text)?;
    found_shown(alloc, &found)
}

/// A reference finds this.
fn is_found(alloc: Global, index: &Index, text: &str, want: &str) -> Result<(), Fail> {
    let told = found(alloc, index, text)?;
    same(alloc, text, told.as_str(), want)
}

/// Each reference finds what its row has.
fn are_found(alloc: Global, index: &Index, rows: &[(&str, &str)]) -> Result<(), Fail> {
    for (text, want) in rows {
        is_found(alloc, index, *text, *want)?;
    }
    Ok(())
}

/// The same among these resources.
fn are_found_in(
    alloc: Global,
    resources: &[CompiledResource],
    rows: &[(&str, &str)],
) -> Result<(), Fail> {
    let index = Index::new(alloc, resources)?;
    are_found(alloc, &index, rows)
}

#[test]
fn references_find(rt: HostRuntime) -> Result<(), Fail> {
    let compiled = compiled(rt.alloc(), RESOURCES, "")?;
    are_found_in(rt.alloc(), compiled.resources(), FOUND)
}

/// A value in JSON, and what it is as a relation of a resource.
const VALUES: &[(&str, &str)] = &[
    (r#""File[/a]""#, "File[/a]"),
    (r#"[]"#, "[]"),
    (r#"["File[//a]"]"#, "[File[/a]]"),
    (
        r#"["file[first]",null,["CLASS[main]",[null,[]]],"Concat_file[frag]"]"#,
        "[File[/a], [Class[main], [[]]], File[/etc/frag/]]",
    ),
    // no references
    (r#""file""#, "29"),
    (r#""""#, "29"),
    (r#"null"#, "29"),
    (r#"true"#, "29"),
    (r#"7"#, "29"),
    (r#"1.5"#, "29"),
    (r#"{"a":"File[/a]"}"#, "29"),
    (r#"{"__ptype":"Regexp","__pvalue":"File[/a]"}"#, "29"),
    (r#"["File[/a]",["File[/a]",false]]"#, "29"),
    (r#"["File[/none]","file"]"#, "29"),
    // what a sensitive value keeps
    (
        r#"{"__ptype":"Sensitive","__pvalue":"File[/a]"}"#,
        "File[/a]",
    ),
    (r#"[{"__ptype":"Sensitive"}]"#, "[]"),
    // references that find nothing, as they are written
    (r#""FILE[/none]""#, "40 at 0: FILE[/none] (/m/a.pp:7)"),
    (r#""Class[::]""#, "40 at 0: Class[::] (/m/a.pp:7)"),
    (
        r#"["File[/a]",["file[/none]"],"Package[none]"]"#,
        "40 at 0: file[/none] (/m/a.pp:7)",
    ),
];

fn text_of(alloc: Global, value: &Value) -> Result<String, Fail> {
    Ok(show(alloc, value)?.into_string())
}

/// A value as it is shown, or the refusal.
fn shown(alloc: Global, related: &Result<Value, Fault>) -> Result<String, Fail> {
    match related {
        Ok(value) => text_of(alloc, value),
        Err(fault) => Ok(refused(alloc, fault)?),
    }
}

/// What a value is as a relation of a resource.
fn value_shown(
    alloc: Global,
    index: &Index,
    r: &CompiledResource,
    value: &Value,
) -> Result<String, Fail> {
    let related = Boxed::new(alloc, related_to(alloc, index, r, value))?;
    shown(alloc, related.get())
}

/// The same of what a resource requires, if that is a reference or references.
fn related(alloc: Global, index: &Index, r: &CompiledResource) -> Result<String, Fail> {
    let Some(value) = r.parameters.find("require") else {
        return Err(Fail::from("a resource that requires"));
    };
    if !are_references(alloc, value)? {
        return Ok(String::from_str(alloc, "29")?);
    }
    value_shown(alloc, index, r, value)
}

/// The same of the last of these resources.
fn related_last(alloc: Global, resources: &[CompiledResource]) -> Result<String, Fail> {
    let index = Index::new(alloc, resources)?;
    match resources.last() {
        Some(r) => related(alloc, &index, r),
        None => Err(Fail::from("a last resource")),
    }
}

/// The resources, and one that requires a value.
fn requiring(alloc: Global, value: &str) -> Result<CompiledCatalog, Fail> {
    let resources = joined(
        alloc,
        &[
            RESOURCES,
            r#",{"type":"Exec","title":"e","kind":"compilable_type","file":"/m/a.pp","line":7,"parameters":{"require":"#,
            value,
            r#"}}"#,
        ],
    )?;
    compiled(alloc, resources.as_str(), "")
}

/// What a value is as a relation of the resource that requires it.
fn related_shown(alloc: Global, value: &str) -> Result<String, Fail> {
    let compiled = requiring(alloc, value)?;
    related_last(alloc, compiled.resources())
}

/// A value is this as a relation.
fn is_relation(alloc: Global, value: &str, want: &str) -> Result<(), Fail> {
    let told = related_shown(alloc, value)?;
    same(alloc, value, told.as_str(), want)
}

/// The value of each row is as a relation what stands beside it.
fn are_relations(alloc: Global, rows: &[(&str, &str)]) -> Result<(), Fail> {
    for (value, want) in rows {
        is_relation(alloc, *value, *want)?;
    }
    Ok(())
}

#[test]
fn values_of_relations(rt: HostRuntime) -> Result<(), Fail> {
    are_relations(rt.alloc(), VALUES)
}
