//! Files, those among them that are put only where nothing stands, and those that are put together of fragments.

use super::answers::is_answered;
use std::alloc::Global;
use std::test::Fail;
use test_rows::joined;

/// Resources, and their programs.
const FILES: &[(&str, &str)] = &[
    (
        r#"{"type":"File","title":"/a","kind":"compilable_type","parameters":{"content":"x"}}"#,
        "if file?(\"/a\") then [rm(\"/a\"); creat(\"/a\",\"x\")] else creat(\"/a\",\"x\")\n",
    ),
    (
        r#"{"type":"File","title":"/a","kind":"compilable_type","parameters":{"content":"x","replace":true}}"#,
        "if file?(\"/a\") then [rm(\"/a\"); creat(\"/a\",\"x\")] else creat(\"/a\",\"x\")\n",
    ),
    (
        r#"{"type":"File","title":"t","kind":"compilable_type","parameters":{"path":"/a","content":"x","replace":false}}"#,
        "if none?(\"/a\") then creat(\"/a\",\"x\") else id\n",
    ),
    (
        r#"{"type":"File","title":"/a","kind":"compilable_type","parameters":{"ensure":"present","source":"/s","replace":"false"}}"#,
        "if none?(\"/a\") then cp(\"/s\",\"/a\") else id\n",
    ),
    (
        r#"{"type":"File","title":"/a","kind":"compilable_type","parameters":{"ensure":"file","source":"puppet:///m/f","replace":false}}"#,
        "if none?(\"/a\") then creat(\"/a\",\"source:puppet:///m/f\") else id\n",
    ),
    (
        r#"{"type":"File","title":"/a","kind":"compilable_type","parameters":{"source":["puppet:///b","http://c"],"replace":false}}"#,
        "if none?(\"/a\") then creat(\"/a\",\"source:puppet:[\\\"puppet:///b\\\",\\\"http://c\\\"]\") else id\n",
    ),
    // what has nothing to put is as without `replace`
    (
        r#"{"type":"File","title":"/a","kind":"compilable_type","parameters":{"replace":false}}"#,
        "id\n",
    ),
    (
        r#"{"type":"File","title":"/a","kind":"compilable_type","parameters":{"ensure":"present","replace":false}}"#,
        "if none?(\"/a\") then creat(\"/a\",\"\") else id\n",
    ),
    (
        r#"{"type":"File","title":"/a","kind":"compilable_type","parameters":{"ensure":"file","replace":false}}"#,
        "if file?(\"/a\") then id else creat(\"/a\",\"\")\n",
    ),
    (
        r#"{"type":"File","title":"/a","kind":"compilable_type","parameters":{"ensure":"directory","replace":false}}"#,
        "if dir?(\"/a\") then id else mkdir(\"/a\")\n",
    ),
    (
        r#"{"type":"File","title":"/a","kind":"compilable_type","parameters":{"ensure":"absent","content":"x","replace":false}}"#,
        "if (file?(\"/a\") or link?(\"/a\")) then rm(\"/a\") else id\n",
    ),
];

/// The resources of each row have the programs beside them.
fn are_put(alloc: Global, rows: &[(&str, &str)]) -> Result<(), Fail> {
    for (resources, want) in rows {
        is_answered(alloc, *resources, "", *want)?;
    }
    Ok(())
}

#[test]
fn files_are_put(rt: HostRuntime) -> Result<(), Fail> {
    are_put(rt.alloc(), FILES)
}

/// Parameters of `Concat_file[f]`, those of a fragment of it, and what is answered.
const FILLED: &[(&str, &str, &str)] = &[
    (
        r#""path":"/f","order":"alpha""#,
        r#""target":"f","order":2,"content":"b""#,
        "if file?(\"/f\") then [rm(\"/f\"); creat(\"/f\",\"concat:[\\\"alpha\\\",null][\\\"2\\\",\\\"g\\\",\\\"b\\\"]\")] else creat(\"/f\",\"concat:[\\\"alpha\\\",null][\\\"2\\\",\\\"g\\\",\\\"b\\\"]\")\nid\n",
    ),
    (
        r#""path":"/f","replace":false"#,
        r#""target":"/f","content":"b""#,
        "if none?(\"/f\") then creat(\"/f\",\"concat:[null,null][\\\"10\\\",\\\"g\\\",\\\"b\\\"]\") else id\nid\n",
    ),
    (
        r#""path":"/f","ensure":"absent","format":"json""#,
        r#""target":"/f","source":"/s""#,
        "if (file?(\"/f\") or link?(\"/f\")) then rm(\"/f\") else id\nid\n",
    ),
    (
        r#""path":"/f","noop":true,"format":"json""#,
        r#""target":"/f","source":"/s""#,
        "id\nid\n",
    ),
    // what has no content is refused
    (
        r#""path":"/f","format":"json""#,
        r#""target":"/f","content":"b""#,
        "51 at 0: File[/f] format",
    ),
    (
        r#""path":"/f","format":"plain""#,
        r#""target":"/f","source":"/s""#,
        "51 at 0: File[/f] source",
    ),
    (
        r#""path":"/f","mode":"0644""#,
        r#""target":"/f","order":["1"],"content":"b""#,
        "51 at 0: File[/f] order",
    ),
    (
        r#""path":"/f""#,
        r#""target":"f""#,
        "51 at 0: File[/f] content",
    ),
    // and that behind its other attributes
    (
        r#""path":"/f","owner":true"#,
        r#""target":"f""#,
        "51 at 0: File[/f] owner",
    ),
];

/// A file that is put together, and a fragment.
fn put_together(alloc: Global, file: &str, fragment: &str) -> Result<String, Fail> {
    Ok(joined(
        alloc,
        &[
            r#"{"type":"Concat_file","title":"f","kind":"compilable_type","parameters":{"#,
            file,
            r#"}},{"type":"Concat_fragment","title":"g","kind":"compilable_type","parameters":{"#,
            fragment,
            r#"}}"#,
        ],
    )?)
}

/// This is answered of a file and a fragment of these parameters.
fn is_put_together(alloc: Global, file: &str, fragment: &str, want: &str) -> Result<(), Fail> {
    let resources = put_together(alloc, file, fragment)?;
    is_answered(alloc, resources.as_str(), "", want)
}

/// Of a file and a fragment of each row's parameters is answered what stands there.
fn are_put_together(alloc: Global, rows: &[(&str, &str, &str)]) -> Result<(), Fail> {
    for (file, fragment, want) in rows {
        is_put_together(alloc, *file, *fragment, *want)?;
    }
    Ok(())
}

#[test]
fn files_are_put_together(rt: HostRuntime) -> Result<(), Fail> {
    are_put_together(rt.alloc(), FILLED)
}
