//! Resources and edges that are read.

use super::answers::is_answered;
use std::alloc::Global;
use std::test::Fail;
use test_hosts::catalog_of;

fn is_read(alloc: Global, resources: &str, edges: &str, want: &str) -> Result<(), Fail> {
    let text = catalog_of(alloc, resources, edges)?;
    is_answered(alloc, text.as_str(), text.as_bytes(), want)
}

/// Each row: resources, edges, and what they say: a line for each, a star for a container.
fn are_read(alloc: Global, rows: &[(&str, &str, &str)]) -> Result<(), Fail> {
    for (resources, edges, want) in rows {
        is_read(alloc, *resources, *edges, *want)?;
    }
    Ok(())
}

#[test]
fn types_titles_and_edges(rt: HostRuntime) -> Result<(), Fail> {
    are_read(
        rt.alloc(),
        &[
            ("", "", ""),
            (
                r#"{"type":"File","title":"/etc/motd","kind":"compilable_type","parameters":{"ensure":"file","content":"hi"}}"#,
                "",
                "File[/etc/motd] content=hi ensure=file\n",
            ),
            // types are compared in lower case, and so are titles of classes, without a leading `::`
            (
                r#"{"type":"Stage","title":"main","kind":"compilable_type"},{"type":"Class","title":"::A::B","kind":"unknown"}"#,
                r#"{"source":"STAGE[main]","target":"Class[a::b]"}"#,
                "Stage[main]*\nClass[a::b]*\n0 > 1\n",
            ),
            (
                r#"{"type":"fILE","title":"/A","kind":"compilable_type"},{"type":"File","title":"/a","kind":"compilable_type"}"#,
                "",
                "File[/A]\nFile[/a]\n",
            ),
            // a type of several segments, of any kind but that of the machine's own types, is a container
            (
                r#"{"type":"My::Type_2","title":"x","kind":"defined_type"},{"type":"My::Other","title":"x","kind":"compilable_type"}"#,
                r#"{"source":"My::Type_2[x]","target":"my::other[x]"}"#,
                "My::Type_2[x]*\nMy::Other[x]\n0 > 1\n",
            ),
            (
                r#"{"type":"File","title":"/a","kind":"unknown"},{"type":"Class","title":"a","kind":"compilable_type"}"#,
                "",
                "File[/a]*\nClass[a]*\n",
            ),
            // a class may be in several containers, and in one twice; edges stay in the text's order
            (
                r#"{"type":"Class","title":"a","kind":"unknown"},{"type":"Class","title":"b","kind":"unknown"},{"type":"File","title":"/f","kind":"compilable_type"}"#,
                r#"{"source":"Class[b]","target":"File[/f]"},{"source":"Class[a]","target":"Class[b]"},{"source":"Class[b]","target":"Class[b]"},{"source":"Class[a]","target":"Class[b]"}"#,
                "Class[a]*\nClass[b]*\nFile[/f]\n1 > 2\n0 > 1\n1 > 1\n0 > 1\n",
            ),
            // a title may hold brackets, blanks and anything else
            (
                r#"{"type":"Class","title":"a","kind":"unknown"},{"type":"Exec","title":"a[b] c]","kind":"compilable_type"},{"type":"Exec","title":"[","kind":"compilable_type"}"#,
                r#"{"source":"Class[A]","target":"Exec[a[b] c]]"},{"source":"Class[::a]","target":"Exec[[]"}"#,
                "Class[a]*\nExec[a[b] c]]\nExec[[]\n0 > 1\n0 > 2\n",
            ),
        ],
    )
}

#[test]
fn keys_and_values(rt: HostRuntime) -> Result<(), Fail> {
    are_read(
        rt.alloc(),
        &[
            // files and lines
            (
                r#"{"type":"Notify","title":"a","kind":"compilable_type","file":"/m/a.pp","line":7},{"type":"Notify","title":"b","kind":"compilable_type","file":null,"line":null,"parameters":{}},{"type":"Notify","title":"c","kind":"compilable_type","line":-1},{"type":"Notify","title":"d","kind":"compilable_type","file":""}"#,
                "",
                "Notify[a] /m/a.pp:7\nNotify[b]\nNotify[c]:-1\nNotify[d] \n",
            ),
            // other keys don't count, and of equal keys the last does
            (
                r#"{"type":"File","title":"/b","title":"/a","kind":"compilable_type","tags":["file"],"exported":false,"sensitive_parameters":["content"],"parameters":{"mode":"1","mode":"2"}}"#,
                "",
                "File[/a] mode=2\n",
            ),
            // values as facts have them
            (
                r#"{"type":"A","title":"a","kind":"unknown","parameters":{"a":null,"b":true,"c":-3,"d":"t","e":[1,[null,"x"]],"f":{"z":1,"y":2},"g":1.5,"h":9223372036854775808,"i":9223372036854775807}}"#,
                "",
                "A[a]* a= b=true c=-3 d=t e=[1, [, x]] f={y => 2, z => 1} g=opaque h=opaque i=9223372036854775807\n",
            ),
            // values that say a type of their own
            (
                r#"{"type":"A","title":"a","kind":"unknown","parameters":{"a":{"__ptype":"Sensitive","__pvalue":"pw"},"b":{"__ptype":"Sensitive"},"c":{"__ptype":"Timestamp","__pvalue":"2020"},"d":{"__ptype":"sensitive","__pvalue":1},"e":{"__ptype":null},"f":{"__pvalue":2}}}"#,
                "",
                "A[a]* a=pw b= c=opaque d=opaque e=opaque f={__pvalue => 2}\n",
            ),
            (
                r#"{"type":"A","title":"a","kind":"unknown","parameters":{"a":{"__ptype":"Sensitive","__pvalue":{"__ptype":"Sensitive","__pvalue":[1,{"__ptype":"Sensitive","__pvalue":2}]}},"b":{"x":{"__ptype":"Sensitive","__pvalue":"y"}},"c":["z",{"__ptype":"Regexp","__pvalue":"z"}]}}"#,
                "",
                "A[a]* a=[1, 2] b={x => y} c=opaque\n",
            ),
            // a key of the parameters is a parameter, whatever its name
            (
                r#"{"type":"A","title":"a","kind":"unknown","parameters":{"__ptype":"Sensitive","__pvalue":"x"}}"#,
                "",
                "A[a]* __ptype=Sensitive __pvalue=x\n",
            ),
        ],
    )
}

#[test]
fn files_of_fragments(rt: HostRuntime) -> Result<(), Fail> {
    are_read(
        rt.alloc(),
        &[
            // files that are put together of fragments, beside others
            (
                r#"{"type":"Concat_file","title":"/a","kind":"compilable_type","parameters":{"path":"/b"}},{"type":"File","title":"/a","kind":"compilable_type","parameters":{"path":"/c"}},{"type":"Concat_file","title":"/d","kind":"compilable_type","parameters":{"path":["/b"]}}"#,
                "",
                "Concat_file[/a] path=/b\nFile[/a] path=/c\nConcat_file[/d] path=[/b]\n",
            ),
            // a defined type of this name puts nothing together
            (
                r#"{"type":"Concat_file","title":"/a","kind":"defined_type","parameters":{"path":"/b"}},{"type":"File","title":"/b","kind":"compilable_type"}"#,
                "",
                "Concat_file[/a]* path=/b\nFile[/b]\n",
            ),
        ],
    )
}
