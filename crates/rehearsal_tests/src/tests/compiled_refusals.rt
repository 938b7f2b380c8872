//! Catalogs that Puppet compiled, and what is refused of them.

use super::compiled::{Edge, Res, VERIFY, catalog, is_refused};
use std::alloc::Global;
use std::test::Fail;
use test_hosts::catalog_of;

const RESOURCES: &[&str] = &["--compiled", "c", "--ask", "graph"];

const USUAL: &[&str] = &["--compiled", "c", "--limits", "usual"];

/// The refusal of a text that is no compiled catalog.
const MALFORMED: &str = "65 at 0: compiled";

/// Texts of no compiled catalog.
const TEXTS: [&str; 17] = [
    "",
    "[]",
    "{}",
    "Notice: compiled\n{\"catalog_format\":2,\"resources\":[],\"edges\":[]}",
    r#"{"resources":[],"edges":[]}"#,
    r#"{"catalog_format":1,"resources":[],"edges":[]}"#,
    r#"{"catalog_format":2.0,"resources":[],"edges":[]}"#,
    r#"{"catalog_format":"2","resources":[],"edges":[]}"#,
    r#"{"catalog_format":2,"edges":[]}"#,
    r#"{"catalog_format":2,"resources":[]}"#,
    r#"{"catalog_format":2,"resources":{},"edges":[]}"#,
    r#"{"catalog_format":2,"resources":[],"edges":null}"#,
    r#"{"catalog_format":2,"resources":[1],"edges":[]}"#,
    r#"{"catalog_format":2,"resources":[],"edges":["File[/a]"]}"#,
    r#"{"catalog_format":2,"resources":[{"type":"File","title":"/a"}],"edges":[]}"#,
    r#"{"catalog_format":2,"resources":[{"title":"/a","kind":"compilable_type"}],"edges":[]}"#,
    "file { '/a': }",
];

/// Each text is refused.
fn texts_are_refused(alloc: Global, texts: &[&str]) -> Result<(), Fail> {
    for text in texts {
        is_refused(alloc, VERIFY, *text, "", MALFORMED)?;
    }
    Ok(())
}

#[test]
fn texts_of_no_compiled_catalog(rt: HostRuntime) -> Result<(), Fail> {
    texts_are_refused(rt.alloc(), &TEXTS)
}

/// Resources of another form, and resources that can't stand beside one another.
const FORMS: [&str; 14] = [
    r#"{"type":"my-file","title":"/a","kind":"compilable_type"}"#,
    r#"{"type":"File","title":"","kind":"compilable_type"}"#,
    r#"{"type":"File","title":7,"kind":"compilable_type"}"#,
    r#"{"type":"File","title":"/a","kind":null}"#,
    r#"{"type":"File","title":"/a","kind":"compilable_type","parameters":[]}"#,
    r#"{"type":"File","title":"/a","kind":"compilable_type","parameters":null}"#,
    r#"{"type":"File","title":"/a","kind":"compilable_type","file":7}"#,
    r#"{"type":"File","title":"/a","kind":"compilable_type","line":"7"}"#,
    r#"{"type":"File","title":"/a","kind":"compilable_type","line":1.5}"#,
    // a class without a title, once it is read
    r#"{"type":"Class","title":"::","kind":"unknown"}"#,
    // one reference twice, and what counts as one file
    r#"{"type":"File","title":"/a","kind":"compilable_type"},{"type":"file","title":"/a","kind":"compilable_type"}"#,
    r#"{"type":"Class","title":"A","kind":"unknown"},{"type":"Class","title":"::a","kind":"unknown"}"#,
    r#"{"type":"Concat_file","title":"a","kind":"compilable_type","parameters":{"path":"/a"}},{"type":"File","title":"/a","kind":"compilable_type"}"#,
    r#"{"type":"Concat_file","title":"a","kind":"compilable_type","parameters":{"path":"/a"}},{"type":"Concat_file","title":"b","kind":"compilable_type","parameters":{"path":"/a"}}"#,
];

/// These resources, as they stand in JSON, are refused.
fn form_is_refused(alloc: Global, resources: &str) -> Result<(), Fail> {
    let text = catalog_of(alloc, resources, "")?;
    is_refused(alloc, VERIFY, text.as_str(), "", MALFORMED)
}

/// Each of these resources, as they stand in JSON, is refused.
fn forms_are_refused(alloc: Global, forms: &[&str]) -> Result<(), Fail> {
    for resources in forms {
        form_is_refused(alloc, *resources)?;
    }
    Ok(())
}

#[test]
fn resources_of_no_compiled_catalog(rt: HostRuntime) -> Result<(), Fail> {
    forms_are_refused(rt.alloc(), &FORMS)
}

/// A class and two files, of which one is in a defined resource, and edges that can't stand there.
const HELD: &[Res] = &[
    ("Class", "main", "", ""),
    ("My::D", "d", "", r#","kind":"defined_type""#),
    ("File", "/a", "", ""),
    ("Concat_file", "b", r#""path":"/b""#, ""),
];

const EDGES: [&[Edge]; 9] = [
    &[("File[/a]", "Concat_file[b]")],
    &[("Class[none]", "File[/a]")],
    &[("Class[main]", "File[/none]")],
    &[("Class[main]", "File")],
    &[("main", "File[/a]")],
    &[("Class[main]", "")],
    // what is no class is contained once
    &[("Class[main]", "File[/a]"), ("My::D[d]", "File[/a]")],
    &[("Class[main]", "File[/a]"), ("Class[main]", "file[/a]")],
    // in an edge it has its own type
    &[("Class[main]", "File[/b]")],
];

/// The class and the files are refused with these edges.
fn is_refused_with(alloc: Global, held: &[Edge]) -> Result<(), Fail> {
    let text = catalog(alloc, HELD, held)?;
    is_refused(alloc, RESOURCES, text.as_str(), "", MALFORMED)
}

/// The class and the files are refused with each of these edges.
fn edges_are_refused(alloc: Global, rows: &[&[Edge]]) -> Result<(), Fail> {
    for held in rows {
        is_refused_with(alloc, *held)?;
    }
    Ok(())
}

#[test]
fn edges_of_no_compiled_catalog(rt: HostRuntime) -> Result<(), Fail> {
    edges_are_refused(rt.alloc(), &EDGES)
}

/// Where a resource is declared.
const AT: &str = r#","file":"/m/a.pp","line":7"#;

/// The words, the resources, and the refusal.
type Row = (&'static [&'static str], &'static [Res], &'static str);

/// What is refused of the catalog and of its graph.
const CATALOGS: [Row; 17] = [
    (
        RESOURCES,
        &[("File", "/a", r#""require":"/b""#, AT)],
        "29 at 0: File[/a] require (/m/a.pp:7)",
    ),
    (
        RESOURCES,
        &[("Exec", "e", r#""notify":{"File":"/b"}"#, "")],
        "29 at 0: Exec[e] notify",
    ),
    (
        RESOURCES,
        &[("Class", "a", r#""before":["Class[a]",true]"#, AT)],
        "29 at 0: Class[a] before (/m/a.pp:7)",
    ),
    // a value that isn't known
    (
        RESOURCES,
        &[("File", "/a", r#""content":1.5"#, AT)],
        "29 at 0: File[/a] content (/m/a.pp:7)",
    ),
    (
        RESOURCES,
        &[(
            "File",
            "/a",
            r#""content":{"__ptype":"Timestamp","__pvalue":"x"},"noop":true"#,
            "",
        )],
        "29 at 0: File[/a] content",
    ),
    (
        RESOURCES,
        &[("File", "/a", r#""require":"File[/b]""#, AT)],
        "40 at 0: File[/b] (/m/a.pp:7)",
    ),
    (
        RESOURCES,
        &[("File", "/a", r#""require":["file[/a/b]"]"#, "")],
        "40 at 0: file[/a/b]",
    ),
    (
        RESOURCES,
        &[("File", "/a", r#""subscribe":"Class[::]""#, AT)],
        "40 at 0: Class[::] (/m/a.pp:7)",
    ),
    // a place needs a file and a line
    (
        RESOURCES,
        &[(
            "File",
            "/a",
            r#""before":"Exec[x]""#,
            r#","file":"/m/a.pp","line":null"#,
        )],
        "40 at 0: Exec[x]",
    ),
    (
        RESOURCES,
        &[(
            "File",
            "/a",
            r#""before":"Exec[x]""#,
            r#","file":null,"line":7"#,
        )],
        "40 at 0: Exec[x]",
    ),
    // of one resource all 29 come first, in the order of attributes, and then all 40
    (
        RESOURCES,
        &[(
            "File",
            "/a",
            r#""before":"File[/b]","require":7,"content":1.5"#,
            "",
        )],
        "29 at 0: File[/a] content",
    ),
    (
        RESOURCES,
        &[(
            "File",
            "/a",
            r#""require":"File[/c]","before":"File[/b]""#,
            "",
        )],
        "40 at 0: File[/b]",
    ),
    // resources come in the order of the text
    (
        RESOURCES,
        &[
            ("File", "/a", r#""before":"File[/b]""#, ""),
            ("File", "/c", r#""before":7"#, ""),
        ],
        "40 at 0: File[/b]",
    ),
    // circles come behind both, and ahead of what resources do
    (
        RESOURCES,
        &[
            ("File", "/a", r#""before":"File[/b]""#, AT),
            ("File", "/b", r#""before":"File[/a]""#, ""),
        ],
        "41 at 0: File[/a] -> File[/b] -> File[/a]",
    ),
    (
        VERIFY,
        &[
            ("Exec", "e", r#""before":"Exec[e]""#, AT),
            ("File", "/b", r#""require":7"#, ""),
        ],
        "29 at 0: File[/b] require",
    ),
    (
        VERIFY,
        &[("Exec", "e", r#""before":"Exec[e]""#, AT)],
        "41 at 0: Exec[e] -> Exec[e]",
    ),
    // what comes before a link may close a circle
    (
        RESOURCES,
        &[
            (
                "File",
                "/e",
                r#""ensure":"link","target":"/a","before":"Notify[n]""#,
                "",
            ),
            ("Notify", "n", r#""before":"File[/a]""#, ""),
            ("File", "/a", "", ""),
        ],
        "41 at 0: File[/e] -> Notify[n] -> File[/a] -> File[/e]",
    ),
];

/// What is refused of what resources do.
const PROGRAMS: [Row; 37] = [
    (
        VERIFY,
        &[("Exec", "apt-get update", "", "")],
        "50 at 0: Exec[apt-get update]",
    ),
    (
        VERIFY,
        &[(
            "Exec",
            "apt-get update",
            "",
            r#","file":"/m/apt.pp","line":7"#,
        )],
        "50 at 0: Exec[apt-get update] (/m/apt.pp:7)",
    ),
    (
        VERIFY,
        &[("Host", "db1", r#""ip":"10.0.0.1""#, AT)],
        "23 at 0: Host[db1] (/m/a.pp:7)",
    ),
    (
        VERIFY,
        &[("Yum::Repo", "x", "", "")],
        "23 at 0: Yum::Repo[x]",
    ),
    (
        VERIFY,
        &[("Resources", "cron", r#""purge":true"#, "")],
        "23 at 0: Resources[cron]",
    ),
    (
        VERIFY,
        &[("Resources", "cron", r#""purge":"true""#, AT)],
        "23 at 0: Resources[cron] (/m/a.pp:7)",
    ),
    // attributes
    (
        VERIFY,
        &[("File", "/a", r#""schedule":"daily""#, AT)],
        "51 at 0: File[/a] schedule (/m/a.pp:7)",
    ),
    (
        VERIFY,
        &[(
            "File",
            "/a",
            r#""ensure":"directory","recurse":true,"purge":true"#,
            "",
        )],
        "51 at 0: File[/a] purge",
    ),
    (
        VERIFY,
        &[(
            "File",
            "/a",
            r#""ensure":"directory","recurse":"remote""#,
            "",
        )],
        "51 at 0: File[/a] recurse",
    ),
    (
        VERIFY,
        &[("File", "/a", r#""force":true"#, "")],
        "51 at 0: File[/a] force",
    ),
    (
        VERIFY,
        &[("File", "/a", r#""ignore":"x","recurse":false"#, "")],
        "51 at 0: File[/a] ignore",
    ),
    (
        VERIFY,
        &[(
            "File",
            "/a",
            r#""ensure":"link","target":"/b","replace":false"#,
            AT,
        )],
        "51 at 0: File[/a] replace (/m/a.pp:7)",
    ),
    (
        VERIFY,
        &[("File", "/a", r#""replace":"no""#, "")],
        "51 at 0: File[/a] replace",
    ),
    (
        VERIFY,
        &[("File", "/a", r#""source":["puppet:///m/a","/b"]"#, "")],
        "51 at 0: File[/a] source",
    ),
    (
        VERIFY,
        &[("File", "/a", r#""source":[]"#, "")],
        "51 at 0: File[/a] source",
    ),
    (
        VERIFY,
        &[("File", "/a", r#""content":"x","source":"/b""#, "")],
        "51 at 0: File[/a] source",
    ),
    (
        VERIFY,
        &[("File", "/a", r#""ensure":"link""#, "")],
        "51 at 0: File[/a] target",
    ),
    (
        VERIFY,
        &[("File", "/a", r#""ensure":"file","target":"/b""#, "")],
        "51 at 0: File[/a] target",
    ),
    (
        VERIFY,
        &[("Cron", "c", r#""hour":2"#, AT)],
        "51 at 0: Cron[c] command (/m/a.pp:7)",
    ),
    (
        VERIFY,
        &[("User", "u", r#""roles":["a"]"#, "")],
        "51 at 0: User[u] roles",
    ),
    // fragments that can't be told
    (
        VERIFY,
        &[("Concat_file", "f", r#""path":"/f","format":"yaml""#, AT)],
        "51 at 0: File[/f] format (/m/a.pp:7)",
    ),
    (
        VERIFY,
        &[
            ("Concat_file", "/f", "", AT),
            (
                "Concat_fragment",
                "a",
                r#""target":"/f","order":true,"content":"x""#,
                "",
            ),
        ],
        "51 at 0: File[/f] order (/m/a.pp:7)",
    ),
    (
        VERIFY,
        &[
            ("Concat_file", "/f", "", ""),
            (
                "Concat_fragment",
                "b",
                r#""target":"/f","order":"1","source":"/s""#,
                "",
            ),
            ("Concat_fragment", "a", r#""target":"/f","order":"0""#, ""),
        ],
        "51 at 0: File[/f] source",
    ),
    (
        VERIFY,
        &[
            ("Concat_file", "/f", "", ""),
            ("Concat_fragment", "a", r#""target":"/f","content":7"#, ""),
        ],
        "51 at 0: File[/f] content",
    ),
    // the attributes of the file come ahead of its fragments
    (
        VERIFY,
        &[("Concat_file", "/f", r#""format":"yaml","owner":true"#, "")],
        "51 at 0: File[/f] owner",
    ),
    // names and paths
    (
        VERIFY,
        &[("File", "a", "", AT)],
        "52 at 0: File[a] (/m/a.pp:7)",
    ),
    (
        VERIFY,
        &[("File", "/a/../b", "", "")],
        "52 at 0: File[/a/../b]",
    ),
    (
        VERIFY,
        &[("Concat_file", "f", r#""path":"""#, "")],
        "52 at 0: File[]",
    ),
    (
        VERIFY,
        &[("File", "/.rehearsal/a", "", AT)],
        "53 at 0: File[/.rehearsal/a] (/m/a.pp:7)",
    ),
    (
        &["--compiled", "c", "--given", "lib"],
        &[("File", "/lib", r#""ensure":"directory""#, AT)],
        "53 at 0: File[/lib] (/m/a.pp:7)",
    ),
    (
        VERIFY,
        &[("Package", "vim", "", AT)],
        "54 at 0: Package[vim] (/m/a.pp:7)",
    ),
    (
        VERIFY,
        &[("Package", "ntp", r#""ensure":"held""#, AT)],
        "55 at 0: Package[ntp] (/m/a.pp:7)",
    ),
    (
        VERIFY,
        &[("File", "/a", r#""ensure":7,"schedule":"daily""#, "")],
        "55 at 0: File[/a]",
    ),
    (
        VERIFY,
        &[("Service", "s", r#""enable":"mask""#, "")],
        "55 at 0: Service[s]",
    ),
    (
        VERIFY,
        &[("File", "/a", "", ""), ("File", "b", r#""path":"/a/""#, AT)],
        "56 at 0: File[b] (/m/a.pp:7)",
    ),
    // what isn't to be changed has no place
    (
        VERIFY,
        &[
            ("File", "/a", r#""noop":true"#, ""),
            ("File", "b", r#""path":"/a""#, ""),
            ("File", "c", r#""path":"/a""#, AT),
        ],
        "56 at 0: File[c] (/m/a.pp:7)",
    ),
    // resources come in the order of the text
    (
        VERIFY,
        &[
            ("Package", "vim", "", ""),
            ("Exec", "e", "", ""),
            ("Host", "h", "", ""),
        ],
        "54 at 0: Package[vim]",
    ),
];

/// A row is refused so.
fn row_is_refused(alloc: Global, row: &Row) -> Result<(), Fail> {
    let text = catalog(alloc, row.1, &[])?;
    is_refused(alloc, row.0, text.as_str(), "", row.2)
}

/// Each row is refused so.
fn all_refused(alloc: Global, rows: &[Row]) -> Result<(), Fail> {
    for row in rows {
        row_is_refused(alloc, row)?;
    }
    Ok(())
}

#[test]
fn catalogs_that_are_refused(rt: HostRuntime) -> Result<(), Fail> {
    all_refused(rt.alloc(), &CATALOGS)
}

#[test]
fn programs_that_are_refused(rt: HostRuntime) -> Result<(), Fail> {
    all_refused(rt.alloc(), &PROGRAMS)
}

/// The words, the text of the compiled catalog and that of assumptions, and the refusal.
type Texts = (
    &'static [&'static str],
    &'static str,
    &'static str,
    &'static str,
);

/// Texts in their order.
const ORDER: [Texts; 9] = [
    (
        &["--compiled", "c", "--packages", "assumed"],
        "[]",
        "[]",
        "61 at 0: packages",
    ),
    (
        &["--compiled", "c", "--ask", "replay", "--tree", "assumed"],
        "[]",
        "[]",
        "62 at 0: tree",
    ),
    (
        &["--compiled", "c", "--assume", "assumed"],
        "[]",
        "[]",
        "65 at 0: compiled",
    ),
    (
        &[
            "--compiled",
            "c",
            "--assume",
            "assumed",
            "--given",
            "assumed",
        ],
        r#"{"catalog_format":2,"resources":[],"edges":[]}"#,
        "[]",
        "66 at 0: assume",
    ),
    (
        &["--compiled", "c", "--given", "assumed"],
        r#"{"catalog_format":2,"resources":[],"edges":[]}"#,
        "[]",
        "67 at 0: given",
    ),
    (
        &["--compiled", "c", "--given", "assumed"],
        r#"{"catalog_format":2,"resources":[{"type":"Exec","title":"e","kind":"compilable_type"}],"edges":[]}"#,
        "[]",
        "67 at 0: given",
    ),
    // a tree in which a given folder isn't one
    (
        &[
            "--compiled",
            "c",
            "--ask",
            "replay",
            "--tree",
            "assumed",
            "--given",
            "etc",
        ],
        r#"{"catalog_format":2,"resources":[{"type":"Exec","title":"e","kind":"compilable_type"}],"edges":[]}"#,
        "{}",
        "62 at 0: tree",
    ),
    (
        &["--compiled", "c", "--ask", "replay", "--order", "assumed"],
        r#"{"catalog_format":2,"resources":[{"type":"Exec","title":"e","kind":"compilable_type"}],"edges":[]}"#,
        "[]",
        "50 at 0: Exec[e]",
    ),
    (
        &["--compiled", "c", "--ask", "replay", "--order", "assumed"],
        r#"{"catalog_format":2,"resources":[{"type":"Notify","title":"n","kind":"compilable_type"}],"edges":[]}"#,
        "[]",
        "63 at 0: order",
    ),
];

/// Each row has this refusal first.
fn all_refused_first(alloc: Global, rows: &[Texts]) -> Result<(), Fail> {
    for (words, text, assumed, line) in rows {
        is_refused(alloc, *words, *text, *assumed, *line)?;
    }
    Ok(())
}

#[test]
fn which_refusal_comes_first(rt: HostRuntime) -> Result<(), Fail> {
    all_refused_first(rt.alloc(), &ORDER)
}
