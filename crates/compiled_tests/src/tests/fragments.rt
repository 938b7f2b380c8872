//! Files that are put together of fragments, and containers.

use super::told::told_of;
use rh_base::NoMemory;
use std::alloc::Global;
use std::test::Fail;
use test_rows::{joined, same};

fn is_gathered(alloc: Global, resources: &str, want: &str) -> Result<(), Fail> {
    let told = told_of(alloc, resources)?;
    same(alloc, resources, told.as_str(), want)
}

/// Each row: resources, and the attributes of each.
fn are_gathered(alloc: Global, rows: &[(&str, &str)]) -> Result<(), Fail> {
    for (resources, want) in rows {
        is_gathered(alloc, *resources, *want)?;
    }
    Ok(())
}

#[test]
fn fragments_that_are_gathered(rt: HostRuntime) -> Result<(), Fail> {
    are_gathered(
        rt.alloc(),
        &[
            // in the byte order of orders
            (
                r#"{"type":"Concat_file","title":"/etc/f","kind":"compilable_type"},{"type":"Concat_fragment","title":"a","kind":"compilable_type","parameters":{"target":"/etc/f","order":"02","content":"x"}},{"type":"Concat_fragment","title":"b","kind":"compilable_type","parameters":{"target":"/etc/f","order":"01","content":"y"}}"#,
                "Concat_file[/etc/f] content=concat:[null,null][\"01\",\"b\",\"y\"][\"02\",\"a\",\"x\"]\nConcat_fragment[a] content=x order=02 target=/etc/f\nConcat_fragment[b] content=y order=01 target=/etc/f\n",
            ),
            // without any
            (
                r#"{"type":"Concat_file","title":"f","kind":"compilable_type","parameters":{"path":"/etc/f","order":"numeric","ensure_newline":true}}"#,
                "Concat_file[f] content=concat:[\"numeric\",true]\n",
            ),
            (
                r#"{"type":"Concat_file","title":"f","kind":"compilable_type","parameters":{"order":null,"ensure_newline":[1,{"b":null,"a":"\"\n"}]}}"#,
                "Concat_file[f] content=concat:[null,[1,{\"a\":\"\\\"\\n\",\"b\":null}]]\n",
            ),
            // of the path and of the title, by the order, which is 10 where it isn't given, and then by the title
            (
                r#"{"type":"Concat_file","title":"f","kind":"compilable_type","parameters":{"path":"/f","order":"alpha","ensure_newline":false}},{"type":"Concat_fragment","title":"b","kind":"compilable_type","parameters":{"target":"f","content":"1"}},{"type":"Concat_fragment","title":"a","kind":"compilable_type","parameters":{"target":"/f","content":"2","order":null}},{"type":"Concat_fragment","title":"c","kind":"compilable_type","parameters":{"target":"f","content":"3","order":5}},{"type":"Concat_fragment","title":"d","kind":"compilable_type","parameters":{"target":"/f","content":"4","order":-1}}"#,
                "Concat_file[f] content=concat:[\"alpha\",false][\"-1\",\"d\",\"4\"][\"10\",\"a\",\"2\"][\"10\",\"b\",\"1\"][\"5\",\"c\",\"3\"]\nConcat_fragment[b] content=1 target=f\nConcat_fragment[a] content=2 target=/f\nConcat_fragment[c] content=3 order=5 target=f\nConcat_fragment[d] content=4 order=-1 target=/f\n",
            ),
            // not those of other targets, of other types and of containers
            (
                r#"{"type":"Concat_file","title":"/f","kind":"compilable_type"},{"type":"Concat_fragment","title":"a","kind":"compilable_type","parameters":{"target":"/F","content":"1"}},{"type":"Concat_fragment","title":"b","kind":"compilable_type","parameters":{"target":["/f"],"content":"2"}},{"type":"Concat_fragment","title":"c","kind":"defined_type","parameters":{"target":"/f","content":"3"}},{"type":"Notify","title":"d","kind":"compilable_type","parameters":{"target":"/f"}},{"type":"Concat_fragment","title":"/f","kind":"compilable_type","parameters":{"content":"4"}}"#,
                "Concat_file[/f] content=concat:[null,null]\nConcat_fragment[a] content=1 target=/F\nConcat_fragment[b] content=2 target=[/f]\nConcat_fragment[c]\nNotify[d] target=/f\nConcat_fragment[/f] content=4\n",
            ),
            // the title of one is the path of another
            (
                r#"{"type":"Concat_file","title":"/a","kind":"compilable_type","parameters":{"path":"/b"}},{"type":"Concat_file","title":"/b","kind":"compilable_type","parameters":{"path":"/c"}},{"type":"Concat_fragment","title":"x","kind":"compilable_type","parameters":{"target":"/b","content":"1"}},{"type":"Concat_fragment","title":"y","kind":"compilable_type","parameters":{"target":"/a","content":"2"}}"#,
                "Concat_file[/a] content=concat:[null,null][\"10\",\"x\",\"1\"][\"10\",\"y\",\"2\"]\nConcat_file[/b] content=concat:[null,null][\"10\",\"x\",\"1\"]\nConcat_fragment[x] content=1 target=/b\nConcat_fragment[y] content=2 target=/a\n",
            ),
            // a file with a few more attributes, as the file that it is taken for
            (
                r#"{"type":"Concat_file","title":"f","kind":"compilable_type","parameters":{"path":"/f","owner":"root","group":0,"mode":"0644","replace":false,"noop":false,"ensure":"present","format":"plain","backup":"puppet","show_diff":true,"tag":"f","schedule":"s","content":"own","source":"/s","target":"/t","force":true,"before":"File[/x]","require":["Class[a]",null],"notify":null}}"#,
                "Concat_file[f] before=File[/x] content=concat:[null,null] group=0 mode=0644 owner=root replace=false require=[Class[a], ]\n",
            ),
            (
                r#"{"type":"Concat_file","title":"/f","kind":"compilable_type","parameters":{"replace":true,"noop":"true","owner":null,"format":null}}"#,
                "Concat_file[/f] content=concat:[null,null] (noop)\n",
            ),
            (
                r#"{"type":"Concat_file","title":"/f","kind":"compilable_type","parameters":{"ensure":1.5,"path":1.5,"owner":1.5,"mode":1.5,"replace":1.5,"subscribe":1.5}}"#,
                "Concat_file[/f] content=concat:[null,null] ensure=opaque owner=opaque path=opaque subscribe=opaque\n",
            ),
            // absent, whatever its fragments are
            (
                r#"{"type":"Concat_file","title":"/f","kind":"compilable_type","parameters":{"ensure":"absent","owner":"root","format":"yaml"}},{"type":"Concat_fragment","title":"a","kind":"compilable_type","parameters":{"target":"/f"}}"#,
                "Concat_file[/f] ensure=absent owner=root\nConcat_fragment[a] target=/f\n",
            ),
            // a defined type of this name puts nothing together
            (
                r#"{"type":"Concat_file","title":"/f","kind":"defined_type","parameters":{"path":"/g","require":"File[/x]"}},{"type":"Concat_fragment","title":"a","kind":"compilable_type","parameters":{"target":"/f","content":"1"}}"#,
                "Concat_file[/f] require=File[/x]\nConcat_fragment[a] content=1 target=/f\n",
            ),
            // of a container its relations are kept
            (
                r#"{"type":"Class","title":"a","kind":"unknown","parameters":{"x":1,"subscribe":["File[/x]"],"before":1.5,"require":null,"notify":"Class[b]","alias":"c"}}"#,
                "Class[a] before=opaque notify=Class[b] subscribe=[File[/x]]\n",
            ),
        ],
    )
}

/// The parameters of a fragment of the file.
fn of_file(alloc: Global, parameters: &str) -> Result<String, NoMemory> {
    match parameters.strip_prefix("{") {
        Some("}") => joined(alloc, &[r#"{"target":"/f"}"#]),
        Some(rest) => joined(alloc, &[r#"{"target":"/f","#, rest]),
        None => Ok(String::new(alloc)),
    }
}

/// A file of these parameters, and two fragments of it: the first one's parameters are those of a fragment.
fn of_second(alloc: Global, file: &str, first: &str, second: &str) -> Result<String, NoMemory> {
    let second = of_file(alloc, second)?;
    joined(
        alloc,
        &[
            r#"{"type":"Concat_file","title":"/f","kind":"compilable_type","parameters":"#,
            file,
            r#"},{"type":"Concat_fragment","title":"x","kind":"compilable_type","parameters":"#,
            first,
            r#"},{"type":"Concat_fragment","title":"a","kind":"compilable_type","parameters":"#,
            second.as_str(),
            "}",
        ],
    )
}

/// A file of these parameters, and two fragments of it.
fn of_two(alloc: Global, file: &str, first: &str, second: &str) -> Result<String, NoMemory> {
    let first = of_file(alloc, first)?;
    of_second(alloc, file, first.as_str(), second)
}

fn first_line(told: &str) -> &str {
    match told.split_once('\n') {
        Some((line, _)) => line,
        None => told,
    }
}

fn is_first_line(alloc: Global, resources: &str, want: &str) -> Result<(), Fail> {
    let told = told_of(alloc, resources)?;
    same(alloc, resources, first_line(told.as_str()), want)
}

/// The first of these resources has no content because of an attribute.
fn has_no_content(alloc: Global, resources: &str, name: &str) -> Result<(), Fail> {
    let want = joined(alloc, &["Concat_file[/f] (no content: ", name, ")"])?;
    is_first_line(alloc, resources, want.as_str())
}

/// Parameters of a file, those of two fragments of it, and the attribute for which it has no content.
type Row = (&'static str, &'static str, &'static str, &'static str);

fn is_unfilled(alloc: Global, row: &Row) -> Result<(), Fail> {
    let resources = of_two(alloc, row.0, row.1, row.2)?;
    has_no_content(alloc, resources.as_str(), row.3)
}

/// Each row: a file and two fragments of it.
fn are_unfilled(alloc: Global, rows: &[Row]) -> Result<(), Fail> {
    for row in rows {
        is_unfilled(alloc, row)?;
    }
    Ok(())
}

#[test]
fn other_formats_and_orders(rt: HostRuntime) -> Result<(), Fail> {
    are_unfilled(
        rt.alloc(),
        &[
            (r#"{"format":"yaml"}"#, r#"{"order":true}"#, "{}", "format"),
            (r#"{"format":1}"#, "{}", "{}", "format"),
            (r#"{"format":"Plain"}"#, "{}", "{}", "format"),
            (
                r#"{"format":"plain"}"#,
                r#"{"content":"x","order":true}"#,
                r#"{"source":"/s"}"#,
                "order",
            ),
            ("{}", r#"{"content":"x","order":["1"]}"#, "{}", "order"),
            ("{}", r#"{"content":"x","order":1.5}"#, "{}", "order"),
            (
                "{}",
                r#"{"content":"x","order":9223372036854775808}"#,
                "{}",
                "order",
            ),
            ("{}", r#"{"order":true,"source":"/s"}"#, "{}", "order"),
        ],
    )
}

#[test]
fn fragments_without_content_of_their_own(rt: HostRuntime) -> Result<(), Fail> {
    are_unfilled(
        rt.alloc(),
        &[
            (
                "{}",
                r#"{"source":"/s","order":"1"}"#,
                r#"{"order":true}"#,
                "source",
            ),
            ("{}", r#"{"content":"x","source":["/s"]}"#, "{}", "source"),
            ("{}", r#"{"source":null}"#, r#"{"source":"/s"}"#, "content"),
            ("{}", r#"{"content":["x"]}"#, "{}", "content"),
            ("{}", r#"{"content":1.5}"#, "{}", "content"),
            (
                "{}",
                r#"{"content":"x","order":"9"}"#,
                r#"{"content":null,"order":"1"}"#,
                "content",
            ),
        ],
    )
}

#[test]
fn values_that_the_content_cannot_tell(rt: HostRuntime) -> Result<(), Fail> {
    are_unfilled(
        rt.alloc(),
        &[
            // what the content has to tell and can't
            (r#"{"order":1.5}"#, r#"{"order":true}"#, "{}", "order"),
            (
                r#"{"ensure_newline":[1,1.5]}"#,
                r#"{"order":true}"#,
                "{}",
                "ensure_newline",
            ),
            (
                r#"{"format":"yaml","order":1.5,"ensure_newline":1.5}"#,
                "{}",
                "{}",
                "format",
            ),
        ],
    )
}
