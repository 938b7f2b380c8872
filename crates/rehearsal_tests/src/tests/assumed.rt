//! What is assumed of the resources of a compiled catalog: what is told of it, and which texts of it are refused.

use super::common::{Told, compare_refusal, compare_status, holds};
use super::compiled::{Differing, MOTD, Res, all_differ, asked, catalog, is_refused, is_told};
use std::alloc::Global;
use std::test::Fail;
use test_rows::joined;

const VERIFY: &[&str] = &["--compiled", "c", "--assume", "assumed"];

const GIVEN: &[&str] = &["--compiled", "c", "--assume", "assumed", "--given", "etc"];

const PROGRAMS: &[&str] = &[
    "--compiled",
    "c",
    "--assume",
    "assumed",
    "--ask",
    "programs",
];

const LINKED: &[&str] = &[
    "--compiled",
    "c",
    "--assume",
    "assumed",
    "--ask",
    "programs",
    "--given",
    "lib",
];

const REPLAY: &[&str] = &[
    "--compiled",
    "c",
    "--assume",
    "assumed",
    "--ask",
    "replay",
    "--tree",
    "tree",
];

const REPAIR: &[&str] = &["--compiled", "c", "--assume", "assumed", "--ask", "repair"];

const EXPLAIN: &[&str] = &[
    "--compiled",
    "c",
    "--assume",
    "assumed",
    "--ask",
    "explain",
    "--given",
    "etc",
];

const ENSURES: &[&str] = &[
    "--compiled",
    "c",
    "--assume",
    "assumed",
    "--ask",
    "ensures",
    "--path",
    "/etc/motd",
];

const HELD: &[&str] = &[
    "--compiled",
    "c",
    "--assume",
    "assumed",
    "--ask",
    "ensures",
    "--path",
    "/etc/hosts",
    "--content",
    "x",
];

const HOSTS: Res = ("File", "/etc/hosts", r#""content":"x""#, "");

const LINE: Res = (
    "File_line",
    "db",
    r#""line":"db","require":"File[/etc/hosts]""#,
    "",
);

const OTHER_LINE: Res = (
    "File_line",
    "web",
    r#""line":"web","require":"File[/etc/hosts]""#,
    "",
);

const EXEC: Res = ("Exec", "e", r#""command":"/bin/e""#, "");

/// Every line that is added to a file edits the table of hosts.
const EDITS: &str = r#"{"version":1,"resources":{"File_line":{"edits":["/etc/hosts"]}}}"#;

const NOTHING: &str = r#"{"version":1,"resources":{}}"#;

/// The words, the resources, what is assumed, and what is told with status 0 or refused.
type Row = (
    &'static [&'static str],
    &'static [Res],
    &'static str,
    &'static str,
);

const ROWS: [Row; 25] = [
    (
        VERIFY,
        &[("Exec", "apt-get update", "", "")],
        r#"{"version":1,"resources":{"Exec":"none"}}"#,
        "resources 1\nassumed 1\npruned 1\ndeterministic\nidempotent\nsucceeds from some tree\n",
    ),
    // The number stands where nothing is assumed too.
    (
        VERIFY,
        &[MOTD],
        NOTHING,
        "resources 1\nassumed 0\npruned 1\ndeterministic\nidempotent\nsucceeds from some tree\n",
    ),
    (
        GIVEN,
        &[MOTD, EXEC],
        r#"{"version":1,"resources":{"Exec[e]":"none"}}"#,
        "resources 2\nassumed 1\ngiven 1\npruned 2\ndeterministic\nidempotent\nsucceeds from some tree\n",
    ),
    (
        VERIFY,
        &[HOSTS, LINE],
        EDITS,
        "resources 2\nassumed 1\npruned 2\ndeterministic\nidempotent\nsucceeds from some tree\n",
    ),
    // Edits of one file by two resources commute.
    (
        VERIFY,
        &[HOSTS, LINE, OTHER_LINE],
        EDITS,
        "resources 3\nassumed 2\npruned 3\ndeterministic\nidempotent\nsucceeds from some tree\n",
    ),
    // What is assumed of a modelled type stands in its model's place, and of a file that is put together of fragments too.
    (
        VERIFY,
        &[
            (
                "File",
                "/a",
                r#""content":"x","mode":7,"schedule":"daily""#,
                "",
            ),
            ("Concat_file", "f", r#""path":"/f","format":"yaml""#, ""),
        ],
        r#"{"version":1,"resources":{"File":"none"}}"#,
        "resources 2\nassumed 2\npruned 2\ndeterministic\nidempotent\nsucceeds from some tree\n",
    ),
    // The resource wins over its type, and `refused` is as if nothing were assumed.
    (
        VERIFY,
        &[
            MOTD,
            ("File", "/a", r#""content":"x","schedule":"daily""#, ""),
        ],
        r#"{"version":1,"resources":{"File":"none","File[/etc/motd]":"refused"}}"#,
        "resources 2\nassumed 1\npruned 2\ndeterministic\nidempotent\nsucceeds from some tree\n",
    ),
    // What finds no native resource means nothing: a class, and what isn't there.
    (
        VERIFY,
        &[MOTD, ("Class", "c", "", "")],
        r#"{"version":1,"resources":{"Class[c]":"none","Exec[e]":"none","Class":{"makes":["/x"]}}}"#,
        "resources 1\nassumed 0\npruned 1\ndeterministic\nidempotent\nsucceeds from some tree\n",
    ),
    // Of two keys for one resource the first in the order of bytes counts.
    (
        VERIFY,
        &[EXEC],
        r#"{"version":1,"resources":{"exec[e]":"refused","Exec[e]":"none"}}"#,
        "resources 1\nassumed 1\npruned 1\ndeterministic\nidempotent\nsucceeds from some tree\n",
    ),
    // It is found as relations find: by an alias, and a file by its path.
    (
        VERIFY,
        &[
            ("Exec", "e", r#""alias":"x""#, ""),
            ("File", "a", r#""path":"/a","schedule":"daily""#, ""),
        ],
        r#"{"version":1,"resources":{"Exec[x]":"none","File[//a/]":"none"}}"#,
        "resources 2\nassumed 2\npruned 2\ndeterministic\nidempotent\nsucceeds from some tree\n",
    ),
    (
        PROGRAMS,
        &[EXEC, MOTD, ("Notify", "n", "", "")],
        r#"{"version":1,"resources":{"Exec":{"makes":["/opt/x"]},"Notify[n]":"none"}}"#,
        concat!(
            "Exec[e] (assumed)\nif file?(\"/opt/x\") then [rm(\"/opt/x\"); creat(\"/opt/x\",\"made:Exec[e]:/opt/x:{\\\"command\\\":\\\"/bin/e\\\"}\")] ",
            "else creat(\"/opt/x\",\"made:Exec[e]:/opt/x:{\\\"command\\\":\\\"/bin/e\\\"}\")\n",
            "File[/etc/motd]\nif file?(\"/etc/motd\") then [rm(\"/etc/motd\"); creat(\"/etc/motd\",\"hi\")] else creat(\"/etc/motd\",\"hi\")\n",
            "Notify[n] (assumed)\nid\n",
        ),
    ),
    (
        PROGRAMS,
        &[EXEC],
        r#"{"version":1,"resources":{"Exec":{"removes":["/r"],"folders":["/f/g"],"needs":["/n"],"creates":"/c"}}}"#,
        "Exec[e] (assumed)\nif none?(\"/c\") then [if file?(\"/n\") then id else err; if dir?(\"/f\") then id else mkdir(\"/f\"); if dir?(\"/f/g\") then id else mkdir(\"/f/g\"); if file?(\"/r\") then rm(\"/r\") else id] else id\n",
    ),
    // An edit is lost where the whole file is written anew.
    (
        PROGRAMS,
        &[HOSTS, LINE],
        EDITS,
        concat!(
            "File[/etc/hosts]\nif file?(\"/etc/hosts\") then [rm(\"/etc/hosts\"); ",
            "if file?(\"/.rehearsal/edit/%2Fetc%2Fhosts/File_line[db]\") then rm(\"/.rehearsal/edit/%2Fetc%2Fhosts/File_line[db]\") else id; ",
            "creat(\"/etc/hosts\",\"x\"); ",
            "if file?(\"/.rehearsal/edit/%2Fetc%2Fhosts/File_line[db]\") then rm(\"/.rehearsal/edit/%2Fetc%2Fhosts/File_line[db]\") else id] else [creat(\"/etc/hosts\",\"x\"); ",
            "if file?(\"/.rehearsal/edit/%2Fetc%2Fhosts/File_line[db]\") then rm(\"/.rehearsal/edit/%2Fetc%2Fhosts/File_line[db]\") else id]\n",
            "File_line[db] (assumed)\n[if file?(\"/etc/hosts\") then id else err; if dir?(\"/.rehearsal\") then id else mkdir(\"/.rehearsal\"); ",
            "if dir?(\"/.rehearsal/edit\") then id else mkdir(\"/.rehearsal/edit\"); if dir?(\"/.rehearsal/edit/%2Fetc%2Fhosts\") then id else mkdir(\"/.rehearsal/edit/%2Fetc%2Fhosts\"); ",
            "if file?(\"/.rehearsal/edit/%2Fetc%2Fhosts/File_line[db]\") then [rm(\"/.rehearsal/edit/%2Fetc%2Fhosts/File_line[db]\"); ",
            "creat(\"/.rehearsal/edit/%2Fetc%2Fhosts/File_line[db]\",\"{\\\"line\\\":\\\"db\\\"}\")] else creat(\"/.rehearsal/edit/%2Fetc%2Fhosts/File_line[db]\",\"{\\\"line\\\":\\\"db\\\"}\")]\n",
        ),
    ),
    // A path is read as the target of a link; what tells the edit apart has it as it is given.
    (
        LINKED,
        &[
            ("File", "/usr/lib/x", r#""ensure":"absent""#, ""),
            ("Exec", "e", "", ""),
        ],
        r#"{"version":1,"resources":{"Exec":{"edits":["/lib/x"]}}}"#,
        concat!(
            "File[/usr/lib/x]\nif (file?(\"/usr/lib/x\") or link?(\"/usr/lib/x\")) then [rm(\"/usr/lib/x\"); ",
            "if file?(\"/.rehearsal/edit/%2Flib%2Fx/Exec[e]\") then rm(\"/.rehearsal/edit/%2Flib%2Fx/Exec[e]\") else id] else id\n",
            "Exec[e] (assumed)\n[if file?(\"/usr/lib/x\") then id else err; if dir?(\"/.rehearsal\") then id else mkdir(\"/.rehearsal\"); ",
            "if dir?(\"/.rehearsal/edit\") then id else mkdir(\"/.rehearsal/edit\"); if dir?(\"/.rehearsal/edit/%2Flib%2Fx\") then id else mkdir(\"/.rehearsal/edit/%2Flib%2Fx\"); ",
            "if file?(\"/.rehearsal/edit/%2Flib%2Fx/Exec[e]\") then [rm(\"/.rehearsal/edit/%2Flib%2Fx/Exec[e]\"); ",
            "creat(\"/.rehearsal/edit/%2Flib%2Fx/Exec[e]\",\"{}\")] else creat(\"/.rehearsal/edit/%2Flib%2Fx/Exec[e]\",\"{}\")]\n",
        ),
    ),
    (
        REPLAY,
        &[HOSTS, LINE],
        EDITS,
        "outcome {\"/.rehearsal\":null,\"/.rehearsal/edit\":null,\"/.rehearsal/edit/%2Fetc%2Fhosts\":null,\"/.rehearsal/edit/%2Fetc%2Fhosts/File_line[db]\":\"{\\\"line\\\":\\\"db\\\"}\",\"/etc\":null,\"/etc/hosts\":\"x\"}\n",
    ),
    // What is to be there stops a resource.
    (
        REPLAY,
        &[EXEC],
        r#"{"version":1,"resources":{"Exec[e]":{"removes":["/etc/hosts"],"creates":"/etc"}}}"#,
        "outcome {\"/etc\":null,\"/etc/hosts\":\"old\"}\n",
    ),
    (
        REPLAY,
        &[EXEC],
        r#"{"version":1,"resources":{"Exec[e]":{"needs":["/etc/none"]}}}"#,
        "outcome error\n",
    ),
    (
        EXPLAIN,
        &[MOTD, EXEC],
        r#"{"version":1,"resources":{"Exec":"none"}}"#,
        "resources 2\nassumed 1\ngiven 1\npruned 2\ndeterministic\nidempotent\nsucceeds from some tree\n",
    ),
    (
        ENSURES,
        &[MOTD, EXEC],
        r#"{"version":1,"resources":{"Exec":"none"}}"#,
        "resources 2\nassumed 1\npruned 2\ndeterministic\nensured\nsucceeds from some tree\n",
    ),
    // An entry whose content isn't asked for may be edited.
    (
        &[
            "--compiled",
            "c",
            "--assume",
            "assumed",
            "--ask",
            "ensures",
            "--path",
            "/etc/hosts",
        ],
        &[HOSTS, LINE],
        EDITS,
        "resources 2\nassumed 1\npruned 2\ndeterministic\nensured\nsucceeds from some tree\n",
    ),
    // What another file's edits are, its content doesn't rest on.
    (
        HELD,
        &[HOSTS, LINE],
        r#"{"version":1,"resources":{"File_line":{"edits":["/etc/services"]}}}"#,
        "resources 2\nassumed 1\npruned 2\ndeterministic\nensured\nsucceeds from some tree\n",
    ),
    // No resource is of the type, so nothing is edited.
    (
        HELD,
        &[HOSTS],
        EDITS,
        "resources 1\nassumed 0\npruned 1\ndeterministic\nensured\nsucceeds from some tree\n",
    ),
    (
        REPAIR,
        &[MOTD, EXEC],
        r#"{"version":1,"resources":{"Exec":"none"}}"#,
        "resources 2\nassumed 1\nedges 0\ndeterministic\n",
    ),
    // What is to be absent copies nothing.
    (
        VERIFY,
        &[
            (
                "File",
                "/b",
                r#""ensure":"absent","source":"/etc/hosts""#,
                "",
            ),
            ("File_line", "db", r#""line":"db""#, ""),
        ],
        EDITS,
        "resources 2\nassumed 1\npruned 2\ndeterministic\nidempotent\nsucceeds from some tree\n",
    ),
    // A resource that needs what another makes.
    (
        REPAIR,
        &[("Exec", "use", "", ""), ("Exec", "make", "", "")],
        r#"{"version":1,"resources":{"Exec[use]":{"needs":["/opt/x"]},"Exec[make]":{"makes":["/opt/x"]}}}"#,
        "resources 2\nassumed 2\nedges 1\nExec['make'] -> Exec['use']\ndeterministic\n",
    ),
];

/// A row is told so.
fn row_is_told(alloc: Global, row: &Row) -> Result<(), Fail> {
    let text = catalog(alloc, row.1, &[])?;
    is_told(alloc, row.0, text.as_str(), row.2, row.3)
}

/// Each row is told so.
fn all_told(alloc: Global, rows: &[Row]) -> Result<(), Fail> {
    for row in rows {
        row_is_told(alloc, row)?;
    }
    Ok(())
}

#[test]
fn what_is_told_where_something_is_assumed(rt: HostRuntime) -> Result<(), Fail> {
    all_told(rt.alloc(), &ROWS)
}

const DIFFER: [Differing; 3] = [
    (
        VERIFY,
        &[HOSTS, ("File_line", "db", r#""line":"db""#, "")],
        EDITS,
        "resources 2\nassumed 1\npruned 0\nnot deterministic\n",
    ),
    // One needs what the other makes.
    (
        VERIFY,
        &[EXEC, ("File", "/opt/x", r#""content":"x""#, "")],
        r#"{"version":1,"resources":{"Exec":{"needs":["/opt/x"]}}}"#,
        "resources 2\nassumed 1\npruned 0\nnot deterministic\n",
    ),
    // Both make one file.
    (
        VERIFY,
        &[EXEC, ("Exec", "f", r#""command":"/bin/e""#, "")],
        r#"{"version":1,"resources":{"Exec":{"makes":["/opt/x"]}}}"#,
        "resources 2\nassumed 2\npruned 0\nnot deterministic\n",
    ),
];

#[test]
fn orders_that_matter(rt: HostRuntime) -> Result<(), Fail> {
    all_differ(rt.alloc(), &DIFFER)
}

/// Texts of no assumptions.
const TEXTS: [&str; 25] = [
    "",
    "[]",
    r#"{"version":1}"#,
    r#"{"resources":{}}"#,
    r#"{"version":2,"resources":{}}"#,
    r#"{"version":1.0,"resources":{}}"#,
    r#"{"version":1,"resources":[]}"#,
    r#"{"version":1,"resources":{},"more":1}"#,
    r#"{"version":1,"resources":{"my-exec":"none"}}"#,
    r#"{"version":1,"resources":{"Exec[":"none"}}"#,
    r#"{"version":1,"resources":{"Exec[]":"none"}}"#,
    r#"{"version":1,"resources":{"Exec[x":"none"}}"#,
    r#"{"version":1,"resources":{"Exec":"nothing"}}"#,
    r#"{"version":1,"resources":{"Exec":null}}"#,
    r#"{"version":1,"resources":{"Exec":{}}}"#,
    r#"{"version":1,"resources":{"Exec":{"creates":"/c"}}}"#,
    r#"{"version":1,"resources":{"Exec":{"needs":["/a"],"more":[]}}}"#,
    r#"{"version":1,"resources":{"Exec":{"needs":"/a"}}}"#,
    r#"{"version":1,"resources":{"Exec":{"needs":["a"]}}}"#,
    r#"{"version":1,"resources":{"Exec":{"makes":["/"]}}}"#,
    r#"{"version":1,"resources":{"Exec":{"edits":["/.rehearsal/x"]}}}"#,
    r#"{"version":1,"resources":{"Exec":{"needs":["/a"],"creates":"c"}}}"#,
    r#"{"version":1,"resources":{"Exec":{"needs":["/a","//a/"]}}}"#,
    r#"{"version":1,"resources":{"Exec":{"needs":["/a"],"removes":["/a"]}}}"#,
    // also of a resource that isn't there
    r#"{"version":1,"resources":{"Nothing[x]":{"needs":[7]}}}"#,
];

/// A text is refused beside this catalog.
fn text_is_refused(alloc: Global, catalog: &str, text: &str) -> Result<(), Fail> {
    let told = asked(alloc, VERIFY, catalog, text)?;
    compare_refusal(alloc, &told, "66 at 0: assume", text)
}

/// Each of these texts is refused beside this catalog.
fn all_refused_beside(alloc: Global, catalog: &str, texts: &[&str]) -> Result<(), Fail> {
    for text in texts {
        text_is_refused(alloc, catalog, *text)?;
    }
    Ok(())
}

/// Each of these texts is refused beside the catalog of one file.
fn texts_are_refused(alloc: Global, texts: &[&str]) -> Result<(), Fail> {
    let catalog = catalog(alloc, &[MOTD], &[])?;
    all_refused_beside(alloc, catalog.as_str(), texts)
}

#[test]
fn texts_of_no_assumptions(rt: HostRuntime) -> Result<(), Fail> {
    texts_are_refused(rt.alloc(), &TEXTS)
}

/// Where a resource is declared.
const AT: &str = r#","file":"/m/a.pp","line":7"#;

/// The words, the resources, what is assumed, and the refusal.
const REFUSED: [Row; 12] = [
    (
        VERIFY,
        &[("Exec", "e", "", AT)],
        NOTHING,
        "50 at 0: Exec[e] (/m/a.pp:7)",
    ),
    (
        VERIFY,
        &[EXEC, ("Exec", "f", "", AT)],
        r#"{"version":1,"resources":{"Exec":"none","Exec[f]":"refused"}}"#,
        "50 at 0: Exec[f] (/m/a.pp:7)",
    ),
    (
        VERIFY,
        &[("Host", "h", "", "")],
        r#"{"version":1,"resources":{"Host":"refused"}}"#,
        "23 at 0: Host[h]",
    ),
    // a copy of what another resource edits
    (
        VERIFY,
        &[("File", "/b", r#""source":"/etc/hosts""#, AT), LINE, HOSTS],
        EDITS,
        "51 at 0: File[/b] source (/m/a.pp:7)",
    ),
    // among the 51s it stands where the attribute does
    (
        VERIFY,
        &[
            (
                "File",
                "/b",
                r#""source":"/etc/hosts","schedule":"daily","target":"/x""#,
                "",
            ),
            LINE,
            HOSTS,
        ],
        EDITS,
        "51 at 0: File[/b] schedule",
    ),
    (
        VERIFY,
        &[
            ("File", "/b", r#""source":"/etc/hosts","target":"/x""#, ""),
            LINE,
            HOSTS,
        ],
        EDITS,
        "51 at 0: File[/b] source",
    ),
    (
        &["--compiled", "c", "--assume", "assumed", "--given", "lib"],
        &[("File", "/b", r#""source":"/usr/lib/x""#, ""), EXEC],
        r#"{"version":1,"resources":{"Exec":{"edits":["/lib/x"]}}}"#,
        "51 at 0: File[/b] source",
    ),
    // a content that is edited, as it stands and as the links read it
    (HELD, &[HOSTS, LINE], EDITS, "66 at 0: assume"),
    (
        &[
            "--compiled",
            "c",
            "--assume",
            "assumed",
            "--ask",
            "ensures",
            "--path",
            "/etc//hosts/",
            "--content",
            "x",
            "--given",
            "assumed",
        ],
        &[HOSTS, LINE],
        EDITS,
        "66 at 0: assume",
    ),
    (
        &[
            "--compiled",
            "c",
            "--assume",
            "assumed",
            "--ask",
            "ensures",
            "--path",
            "/usr/lib/x",
            "--content",
            "x",
            "--given",
            "lib",
        ],
        &[EXEC],
        r#"{"version":1,"resources":{"Exec":{"edits":["/lib/x"]}}}"#,
        "66 at 0: assume",
    ),
    (
        &[
            "--compiled",
            "c",
            "--assume",
            "assumed",
            "--ask",
            "ensures",
            "--path",
            "/usr/lib/x",
            "--content",
            "x",
            "--given",
            "assumed",
        ],
        &[EXEC],
        r#"{"version":1,"resources":{"Exec":{"edits":["/lib/x"]}}}"#,
        "67 at 0: given",
    ),
    // behind the catalog's own text
    (HELD, &[HOSTS, HOSTS], EDITS, "65 at 0: compiled"),
];

/// A row is refused so.
fn row_is_refused(alloc: Global, row: &Row) -> Result<(), Fail> {
    let text = catalog(alloc, row.1, &[])?;
    is_refused(alloc, row.0, text.as_str(), row.2, row.3)
}

/// Each row is refused so.
fn all_refused(alloc: Global, rows: &[Row]) -> Result<(), Fail> {
    for row in rows {
        row_is_refused(alloc, row)?;
    }
    Ok(())
}

#[test]
fn what_is_refused_where_something_is_assumed(rt: HostRuntime) -> Result<(), Fail> {
    all_refused(rt.alloc(), &REFUSED)
}

/// A resource with a title of so many bytes: `Exec[` and `]` are six more.
fn with_title(alloc: Global, length: usize) -> Result<String, Fail> {
    let title = "x".repeat(alloc, length)?;
    Ok(joined(
        alloc,
        &[
            r#"{"catalog_format":2,"resources":[{"type":"Exec","title":""#,
            title.as_str(),
            r#"","kind":"compilable_type"}],"edges":[]}"#,
        ],
    )?)
}

/// This was told with the status, and with status 4 the reference is refused.
fn tells_reference(alloc: Global, told: &Told, status: u8, row: &str) -> Result<(), Fail> {
    compare_status(alloc, told, status, row)?;
    let is_named = told.err.as_str().contains("52 at 0: Exec[x");
    holds(alloc, &[row], is_named == (status == 4))
}

fn is_long(alloc: Global, catalog: &str, assumed: &str, status: u8) -> Result<(), Fail> {
    let told = asked(alloc, VERIFY, catalog, assumed)?;
    tells_reference(alloc, &told, status, assumed)
}

/// With a title of so many bytes, this is told with the status.
fn title_is_long(alloc: Global, length: usize, assumed: &str, status: u8) -> Result<(), Fail> {
    let text = with_title(alloc, length)?;
    is_long(alloc, text.as_str(), assumed, status)
}

/// Each row: how long a title is, what is assumed, and the status.
fn all_long(alloc: Global, rows: &[(usize, &str, u8)]) -> Result<(), Fail> {
    for (length, assumed, status) in rows {
        title_is_long(alloc, *length, *assumed, *status)?;
    }
    Ok(())
}

/// A reference of so many bytes names a file of its own, where the resource makes or edits something.
#[test]
fn references_that_are_long(rt: HostRuntime) -> Result<(), Fail> {
    all_long(
        rt.alloc(),
        &[
            (
                249,
                r#"{"version":1,"resources":{"Exec":{"makes":["/x"]}}}"#,
                0,
            ),
            (
                250,
                r#"{"version":1,"resources":{"Exec":{"makes":["/x"]}}}"#,
                4,
            ),
            (
                250,
                r#"{"version":1,"resources":{"Exec":{"edits":["/x"]}}}"#,
                4,
            ),
            (
                250,
                r#"{"version":1,"resources":{"Exec":{"makes":[],"removes":["/x"]}}}"#,
                0,
            ),
        ],
    )
}
