//! Catalogs that Puppet compiled, in place of manifests: what is told of them.

use super::common::{
    NONE, ONE, TWO, Told, begins, compare, compare_head, compare_refusal, compare_status, holds,
    push_all, run_over,
};
use std::alloc::Global;
use std::test::Fail;
use test_hosts::catalog_of;
use test_rows::joined;

/// A resource: its type, its title, its parameters as members of JSON, and what else the text says of it, behind a comma.
pub type Res = (&'static str, &'static str, &'static str, &'static str);

/// A container, and what it contains.
pub type Edge = (&'static str, &'static str);

const LISTING: &str = concat!(
    r#"{"version":2,"packages":{"ntp":{"files":[["/etc/ntp.conf",null],["/lib/systemd/system/ntp.service",null]],"folders":[]},"#,
    r#""p":{"files":[["/etc/p",null]],"folders":[]},"cron":{"files":[["/lib/systemd/system/cron.service",null]],"folders":[]}}}"#
);

/// Adds a comma behind those of a list in JSON.
pub fn push_comma(list: &mut String) -> Result<(), Fail> {
    if !list.is_empty() {
        list.push(',')?;
    }
    Ok(())
}

/// Adds a resource behind those of a list in JSON.
fn push_resource(list: &mut String, r: &Res) -> Result<(), Fail> {
    push_comma(list)?;
    push_all(
        list,
        &[
            r#"{"type":""#,
            r.0,
            r#"","title":""#,
            r.1,
            r#"","kind":"compilable_type","parameters":{"#,
            r.2,
            "}",
            r.3,
            "}",
        ],
    )
}

fn resources(alloc: Global, all: &[Res]) -> Result<String, Fail> {
    let mut text = String::new(alloc);
    for r in all {
        push_resource(&mut text, r)?;
    }
    Ok(text)
}

/// Adds an edge behind those of a list in JSON.
fn push_edge(list: &mut String, e: &Edge) -> Result<(), Fail> {
    push_comma(list)?;
    push_all(
        list,
        &[r#"{"source":""#, e.0, r#"","target":""#, e.1, r#""}"#],
    )
}

fn edges(alloc: Global, all: &[Edge]) -> Result<String, Fail> {
    let mut text = String::new(alloc);
    for e in all {
        push_edge(&mut text, e)?;
    }
    Ok(text)
}

/// The text of a compiled catalog that has edges and these resources, as they stand in JSON.
fn with_edges(alloc: Global, resources: &str, held: &[Edge]) -> Result<String, Fail> {
    let edges = edges(alloc, held)?;
    Ok(catalog_of(alloc, resources, edges.as_str())?)
}

/// The text of a compiled catalog.
pub fn catalog(alloc: Global, all: &[Res], held: &[Edge]) -> Result<String, Fail> {
    let resources = resources(alloc, all)?;
    with_edges(alloc, resources.as_str(), held)
}

/// What words give over a compiled catalog, and what is assumed of its resources.
pub fn asked<'a>(
    alloc: Global,
    words: &[&str],
    catalog: &'a str,
    assumed: &'a str,
) -> Result<Told, Fail> {
    let over: [(&str, &[u8]); 6] = [
        ("c", catalog.as_bytes()),
        ("assumed", assumed.as_bytes()),
        ("listing", LISTING.as_bytes()),
        ("etc", br#"{"version":1,"folders":["/etc"]}"#),
        (
            "lib",
            br#"{"version":1,"folders":["/usr/lib/systemd/system"],"links":{"/lib":"/usr/lib"}}"#,
        ),
        ("tree", br#"{"/etc":null,"/etc/hosts":"old"}"#),
    ];
    run_over(alloc, words, &over)
}

/// Words over the text of a compiled catalog, and what is assumed, are told so with status 0.
pub fn is_told(
    alloc: Global,
    words: &[&str],
    catalog: &str,
    assumed: &str,
    report: &str,
) -> Result<(), Fail> {
    let told = asked(alloc, words, catalog, assumed)?;
    compare(alloc, &told, 0, report, "", catalog)
}

/// Words over the text of a compiled catalog, and what is assumed, are refused so.
pub fn is_refused(
    alloc: Global,
    words: &[&str],
    catalog: &str,
    assumed: &str,
    line: &str,
) -> Result<(), Fail> {
    let told = asked(alloc, words, catalog, assumed)?;
    compare_refusal(alloc, &told, line, catalog)
}

pub const VERIFY: &[&str] = &["--compiled", "c", "--packages", "listing"];

const GIVEN: &[&str] = &["--compiled", "c", "--packages", "listing", "--given", "etc"];

const LINKED: &[&str] = &["--compiled", "c", "--packages", "listing", "--given", "lib"];

const CATALOG: &[&str] = &["--compiled", "c", "--ask", "catalog"];

const GRAPH: &[&str] = &["--compiled", "c", "--ask", "graph"];

const PROGRAMS: &[&str] = &["--compiled", "c", "--ask", "programs"];

const REPAIR: &[&str] = &[
    "--compiled",
    "c",
    "--ask",
    "repair",
    "--packages",
    "listing",
];

const EXPLAIN: &[&str] = &[
    "--compiled",
    "c",
    "--ask",
    "explain",
    "--packages",
    "listing",
];

const EXPLAIN_LINKED: &[&str] = &[
    "--compiled",
    "c",
    "--packages",
    "listing",
    "--given",
    "lib",
    "--ask",
    "explain",
];

const ENSURES: &[&str] = &[
    "--compiled",
    "c",
    "--ask",
    "ensures",
    "--path",
    "/etc/motd",
    "--content",
    "hi",
];

const REPLAY: &[&str] = &["--compiled", "c", "--ask", "replay", "--given", "etc"];

pub const MOTD: Res = ("File", "/etc/motd", r#""content":"hi""#, "");

const NTP: Res = ("Package", "ntp", "", r#","file":"/m/ntp.pp","line":1"#);

const NTP_CONF: Res = (
    "File",
    "/etc/ntp.conf",
    r#""content":"a","before":["Service[ntp]"]"#,
    r#","file":"/m/ntp.pp","line":2"#,
);

const SERVICE: Res = (
    "Service",
    "ntp",
    r#""ensure":"running","require":"Package[ntp]""#,
    r#","file":"/m/ntp.pp","line":3"#,
);

const FRAGMENTS: &[Res] = &[
    ("Concat_file", "/etc/f", "", ""),
    (
        "Concat_fragment",
        "a",
        r#""content":"1","order":"01","target":"/etc/f""#,
        "",
    ),
    (
        "Concat_fragment",
        "b",
        r#""content":"2","order":"02","target":"/etc/f""#,
        "",
    ),
];

/// A file and a package that both need a folder, of which either makes sure or not.
const SHARED: &[Res] = &[MOTD, ("Package", "p", "", "")];

/// A service's file under two names.
const UNIT: &[Res] = &[
    ("Package", "cron", "", ""),
    (
        "File",
        "/usr/lib/systemd/system/cron.service",
        r#""content":"x""#,
        "",
    ),
];

/// The words, the resources, the edges, and what is told with status 0.
type Row = (
    &'static [&'static str],
    &'static [Res],
    &'static [Edge],
    &'static str,
);

const ROWS: [Row; 24] = [
    (VERIFY, &[], &[], NONE),
    // A file in a class in a stage.
    (
        VERIFY,
        &[("Stage", "main", "", ""), ("Class", "main", "", ""), MOTD],
        &[
            ("Stage[main]", "Class[main]"),
            ("Class[main]", "File[/etc/motd]"),
        ],
        ONE,
    ),
    // The arrow that lacked.
    (
        VERIFY,
        &[
            NTP,
            (
                "File",
                "/etc/ntp.conf",
                r#""content":"a","before":["Service[ntp]"],"require":"Package[ntp]""#,
                "",
            ),
            SERVICE,
        ],
        &[],
        "resources 3\npruned 3\ndeterministic\nidempotent\nsucceeds from some tree\n",
    ),
    // What a class contains comes behind what the class requires.
    (
        VERIFY,
        &[
            NTP,
            ("Class", "c", r#""require":"Package[ntp]""#, ""),
            NTP_CONF,
            SERVICE,
        ],
        &[
            ("Class[c]", "File[/etc/ntp.conf]"),
            ("Class[c]", "Service[ntp]"),
        ],
        "resources 3\npruned 3\ndeterministic\nidempotent\nsucceeds from some tree\n",
    ),
    // A type that a manifest defines contains, whatever it is called.
    (
        GRAPH,
        &[
            (
                "Site",
                "s",
                r#""before":"Package[ntp]""#,
                r#","kind":"defined_type""#,
            ),
            MOTD,
            NTP,
        ],
        &[("Site[s]", "File[/etc/motd]")],
        "File[/etc/motd]\nPackage[ntp]\nFile[/etc/motd] -> Package[ntp]\n",
    ),
    // Aliases, other cases, a class of another name, and a path of a file are found.
    (
        GRAPH,
        &[
            (
                "File",
                "/a",
                r#""alias":["one","two"],"before":"class[::My::Class]""#,
                "",
            ),
            ("Class", "My::Class", "", ""),
            (
                "File",
                "b",
                r#""path":"/b//c/","require":["FILE[two]",null,["file[/b/d]"]]"#,
                "",
            ),
            ("File", "d", r#""path":"/b/d""#, ""),
            ("Notify", "n", r#""subscribe":"File[/b/c]""#, ""),
        ],
        &[("Class[my::class]", "Notify[n]")],
        "File[/a]\nFile[b]\nFile[d]\nNotify[n]\nFile[/a] -> File[b]\nFile[/a] -> Notify[n]\nFile[b] -> Notify[n]\nFile[d] -> File[b]\nFile[d] -> Notify[n]\n",
    ),
    // What is put together of fragments, and its fragments.
    (
        CATALOG,
        FRAGMENTS,
        &[],
        concat!(
            "File[/etc/f]\n  content => \"concat:[null,null][\\\"01\\\",\\\"a\\\",\\\"1\\\"][\\\"02\\\",\\\"b\\\",\\\"2\\\"]\"\n",
            "Concat_fragment[a]\n  content => \"1\"\n  order => \"01\"\n  target => \"/etc/f\"\n",
            "Concat_fragment[b]\n  content => \"2\"\n  order => \"02\"\n  target => \"/etc/f\"\n",
        ),
    ),
    // The attributes that count, in the order of their names.
    (
        CATALOG,
        &[(
            "File",
            "/l",
            r#""tag":["a"],"owner":"root","ensure":"/etc/motd","noop":false,"mode":null,"alias":"l","backup":false"#,
            "",
        )],
        &[],
        "File[/l]\n  backup => false\n  ensure => \"link\"\n  owner => \"root\"\n  target => \"/etc/motd\"\n",
    ),
    // A secret stands for what it holds.
    (
        CATALOG,
        &[(
            "File",
            "/s",
            r#""content":{"__ptype":"Sensitive","__pvalue":"pw"}"#,
            "",
        )],
        &[],
        "File[/s]\n  content => \"pw\"\n",
    ),
    (
        GRAPH,
        &[
            ("Anchor", "a", r#""before":"Anchor[b]""#, ""),
            ("Anchor", "b", "", ""),
            ("File", "/x", r#""before":"Anchor[a]""#, ""),
            ("File", "/y", r#""require":"Anchor[b]""#, ""),
        ],
        &[],
        "Anchor[a]\nAnchor[b]\nFile[/x]\nFile[/y]\nAnchor[a] -> Anchor[b]\nAnchor[a] -> File[/y]\nAnchor[b] -> File[/y]\nFile[/x] -> Anchor[a]\nFile[/x] -> Anchor[b]\nFile[/x] -> File[/y]\n",
    ),
    // A link comes behind the file to which it leads.
    (
        GRAPH,
        &[
            (
                "File",
                "/etc/nginx/e",
                r#""ensure":"link","target":"/etc/nginx/a""#,
                "",
            ),
            ("File", "/etc/nginx/a", r#""content":"x""#, ""),
        ],
        &[],
        "File[/etc/nginx/e]\nFile[/etc/nginx/a]\nFile[/etc/nginx/a] -> File[/etc/nginx/e]\n",
    ),
    (
        GIVEN,
        SHARED,
        &[],
        "resources 2\ngiven 1\npruned 0\ndeterministic\nidempotent\nsucceeds from some tree\n",
    ),
    (VERIFY, UNIT, &[], TWO),
    // Types that only order others, and what isn't to be changed, do nothing.
    (
        PROGRAMS,
        &[
            ("Notify", "n", "", ""),
            ("Anchor", "a", "", ""),
            ("Filebucket", "f", "", ""),
            ("Schedule", "s", "", ""),
            ("Whit", "w", "", ""),
            ("Concat_fragment", "c", "", ""),
            ("Resources", "r", r#""purge":false"#, ""),
            ("File", "/a", r#""content":"x","noop":true"#, ""),
            ("Exec", "e", r#""command":"/bin/x","noop":"true""#, ""),
        ],
        &[],
        "Notify[n]\nid\nAnchor[a]\nid\nFilebucket[f]\nid\nSchedule[s]\nid\nWhit[w]\nid\nConcat_fragment[c]\nid\nResources[r]\nid\nFile[/a]\nid\nExec[e]\nid\n",
    ),
    // What stands there is kept, and what has nothing to put is as any other.
    (
        PROGRAMS,
        &[
            ("File", "/a", r#""content":"x","replace":false"#, ""),
            ("File", "/b", r#""source":"/a","replace":"false""#, ""),
            (
                "File",
                "/c",
                r#""source":["puppet:///m/c","https://h/c"],"replace":false"#,
                "",
            ),
            ("File", "/d", r#""ensure":"directory","replace":false"#, ""),
            (
                "File",
                "/e",
                r#""ensure":"absent","replace":false,"content":"x""#,
                "",
            ),
            ("File", "/f", r#""ensure":"file","replace":false"#, ""),
        ],
        &[],
        concat!(
            "File[/a]\nif none?(\"/a\") then creat(\"/a\",\"x\") else id\n",
            "File[/b]\nif none?(\"/b\") then cp(\"/a\",\"/b\") else id\n",
            "File[/c]\nif none?(\"/c\") then creat(\"/c\",\"source:puppet:[\\\"puppet:///m/c\\\",\\\"https://h/c\\\"]\") else id\n",
            "File[/d]\nif dir?(\"/d\") then id else mkdir(\"/d\")\n",
            "File[/e]\nif (file?(\"/e\") or link?(\"/e\")) then rm(\"/e\") else id\n",
            "File[/f]\nif file?(\"/f\") then id else creat(\"/f\",\"\")\n",
        ),
    ),
    // What would have no effect of a file is left out.
    (
        PROGRAMS,
        &[(
            "File",
            "/d",
            r#""ensure":"directory","recurse":true,"purge":false,"force":true,"replace":true,"checksum_value":"x""#,
            "",
        )],
        &[],
        "File[/d]\nif dir?(\"/d\") then id else mkdir(\"/d\")\n",
    ),
    (
        PROGRAMS,
        &[(
            "Concat_file",
            "f",
            r#""path":"/f","ensure":"absent","format":"yaml""#,
            "",
        )],
        &[],
        "File[/f]\nif (file?(\"/f\") or link?(\"/f\")) then rm(\"/f\") else id\n",
    ),
    // A path that every host has as a link is read as its target.
    (
        &["--compiled", "c", "--ask", "programs", "--given", "lib"],
        &[("File", "/lib/x", r#""ensure":"directory""#, "")],
        &[],
        "File[/lib/x]\nif dir?(\"/usr/lib/x\") then id else mkdir(\"/usr/lib/x\")\n",
    ),
    (
        REPLAY,
        &[MOTD],
        &[],
        "outcome {\"/etc\":null,\"/etc/motd\":\"hi\"}\n",
    ),
    (
        ENSURES,
        &[MOTD],
        &[],
        "resources 1\npruned 1\ndeterministic\nensured\nsucceeds from some tree\n",
    ),
    (EXPLAIN, &[MOTD], &[], ONE),
    (
        REPAIR,
        &[NTP, NTP_CONF, SERVICE],
        &[],
        "resources 3\nedges 1\nPackage['ntp'] -> File['/etc/ntp.conf']\ndeterministic\n",
    ),
    // What is put together of fragments has its own type and title in an arrow.
    (
        REPAIR,
        &[
            NTP,
            (
                "Concat_file",
                "time",
                r#""path":"/etc/ntp.conf","before":"Service[ntp]""#,
                "",
            ),
            (
                "Concat_fragment",
                "a",
                r#""content":"1","target":"time""#,
                "",
            ),
            SERVICE,
        ],
        &[],
        "resources 4\nedges 1\nPackage['ntp'] -> Concat_file['time']\ndeterministic\n",
    ),
    // What else a text says of a resource doesn't count.
    (
        VERIFY,
        &[(
            "File",
            "/\\u0061",
            r#""content":"x""#,
            r#","exported":false,"tags":["a"]"#,
        )],
        &[],
        ONE,
    ),
];

/// A row is told so.
fn row_is_told(alloc: Global, row: &Row) -> Result<(), Fail> {
    let text = catalog(alloc, row.1, row.2)?;
    is_told(alloc, row.0, text.as_str(), "", row.3)
}

/// Each row is told so.
fn all_told(alloc: Global, rows: &[Row]) -> Result<(), Fail> {
    for row in rows {
        row_is_told(alloc, row)?;
    }
    Ok(())
}

#[test]
fn what_is_told_of_compiled_catalogs(rt: HostRuntime) -> Result<(), Fail> {
    all_told(rt.alloc(), &ROWS)
}

/// The words, the resources, what is assumed, and the lines in front of the tree.
pub type Differing = (
    &'static [&'static str],
    &'static [Res],
    &'static str,
    &'static str,
);

/// Words over the text of a compiled catalog, and what is assumed, are told with status 1 and these lines in front.
fn is_told_apart(
    alloc: Global,
    words: &[&str],
    catalog: &str,
    assumed: &str,
    head: &str,
) -> Result<(), Fail> {
    let told = asked(alloc, words, catalog, assumed)?;
    compare_head(alloc, &told, 1, head, catalog)
}

/// A row is told with status 1.
fn differs(alloc: Global, row: &Differing) -> Result<(), Fail> {
    let text = catalog(alloc, row.1, &[])?;
    is_told_apart(alloc, row.0, text.as_str(), row.2, row.3)
}

/// Each row is told with status 1.
pub fn all_differ(alloc: Global, rows: &[Differing]) -> Result<(), Fail> {
    for row in rows {
        differs(alloc, row)?;
    }
    Ok(())
}

const DIFFER: [Differing; 3] = [
    (
        VERIFY,
        &[NTP, NTP_CONF, SERVICE],
        "",
        "resources 3\npruned 1\nnot deterministic\n",
    ),
    (
        VERIFY,
        SHARED,
        "",
        "resources 2\npruned 0\nnot deterministic\n",
    ),
    (
        LINKED,
        UNIT,
        "",
        "resources 2\ngiven 4\npruned 0\nnot deterministic\n",
    ),
];

#[test]
fn orders_that_matter(rt: HostRuntime) -> Result<(), Fail> {
    all_differ(rt.alloc(), &DIFFER)
}

/// The path that was told, at which two orders differ, is this one.
fn tells_place(alloc: Global, told: &Told, place: &str) -> Result<(), Fail> {
    compare_status(alloc, told, 1, place)?;
    let (_, at) = told.out.as_str().split_once("\nat ").unwrap_or(("", "?"));
    begins(alloc, "at", at, place)
}

/// The path at which two orders of the catalog with this text differ.
fn place_is_told(alloc: Global, catalog: &str, place: &str) -> Result<(), Fail> {
    let told = asked(alloc, EXPLAIN_LINKED, catalog, "")?;
    tells_place(alloc, &told, place)
}

/// The path at which two orders of a catalog of these resources differ.
fn differ_at(alloc: Global, all: &[Res], place: &str) -> Result<(), Fail> {
    let text = catalog(alloc, all, &[])?;
    place_is_told(alloc, text.as_str(), place)
}

/// The path at which two names of one place differ is the target of the link.
#[test]
fn one_place_under_two_names(rt: HostRuntime) -> Result<(), Fail> {
    differ_at(
        rt.alloc(),
        UNIT,
        "\"/usr/lib/systemd/system/cron.service\": ",
    )
}

/// A resource, and how the run ends in which it comes first.
type Run = (&'static str, &'static str);

/// Resources are named with the line that declares them, where the text tells it.
const FILE_FAILS: Run = (
    "File[/etc/ntp.conf] (/m/ntp.pp:2)",
    r#"fails at File[/etc/ntp.conf] (/m/ntp.pp:2): creat "/etc/ntp.conf": no folder "/etc""#,
);

const PACKAGE_ENDS: Run = ("Package[ntp] (/m/ntp.pp:1)", "ends");

fn explained(alloc: Global, first: &Run, second: &Run) -> Result<String, Fail> {
    Ok(joined(
        alloc,
        &[
            "resources 3\npruned 1\nnot deterministic\nexchanged ",
            first.0,
            " and ",
            second.0,
            "\ntree {}\n",
            first.0,
            " first: ",
            first.1,
            "\n",
            second.0,
            " first: ",
            second.1,
            "\n",
        ],
    )?)
}

/// What was told explains these runs, in this order.
fn is_explained(alloc: Global, told: &Told, first: &Run, second: &Run) -> Result<(), Fail> {
    let want = explained(alloc, first, second)?;
    compare(alloc, told, 1, want.as_str(), "", "lines")
}

/// What was told explains both runs; which order is told first is free.
fn tells_runs(alloc: Global, told: &Told) -> Result<(), Fail> {
    if told.out.as_str().contains("exchanged Package") {
        is_explained(alloc, told, &PACKAGE_ENDS, &FILE_FAILS)
    } else {
        is_explained(alloc, told, &FILE_FAILS, &PACKAGE_ENDS)
    }
}

/// Both runs of the catalog with this text are explained.
fn runs_are_told(alloc: Global, catalog: &str) -> Result<(), Fail> {
    let told = asked(alloc, EXPLAIN, catalog, "")?;
    tells_runs(alloc, &told)
}

/// Both runs of a catalog of these resources are explained.
fn runs_are_explained(alloc: Global, all: &[Res]) -> Result<(), Fail> {
    let text = catalog(alloc, all, &[])?;
    runs_are_told(alloc, text.as_str())
}

#[test]
fn explanations_tell_lines(rt: HostRuntime) -> Result<(), Fail> {
    runs_are_explained(rt.alloc(), &[NTP, NTP_CONF, SERVICE])
}

const MANIFEST: &str =
    "package { 'ntp': ensure => installed } -> file { '/etc/ntp.conf': content => 'a' } ~> service { 'ntp': ensure => running }";

/// What Puppet makes of the manifest.
const COMPILED: &[Res] = &[
    ("Package", "ntp", r#""ensure":"installed""#, ""),
    (
        "File",
        "/etc/ntp.conf",
        r#""content":"a","require":"Package[ntp]""#,
        "",
    ),
    (
        "Service",
        "ntp",
        r#""ensure":"running","subscribe":"File[/etc/ntp.conf]""#,
        "",
    ),
];

/// What words give over a compiled catalog, the manifest and the listing.
fn told_of(alloc: Global, words: &[&str], catalog: &str) -> Result<Told, Fail> {
    let over: [(&str, &[u8]); 3] = [
        ("c", catalog.as_bytes()),
        ("site.pp", MANIFEST.as_bytes()),
        ("listing", LISTING.as_bytes()),
    ];
    run_over(alloc, words, &over)
}

/// The words that ask this about what the last two name; a graph takes no listing.
fn words_for<'w>(ask: &'w str, option: &'w str, name: &'w str) -> [&'w str; 6] {
    if ask == "graph" {
        ["--ask", ask, "--limits", "host", option, name]
    } else {
        ["--ask", ask, "--packages", "listing", option, name]
    }
}

/// With this value of `--ask` this is told of a compiled catalog.
fn catalog_is_told(alloc: Global, ask: &str, catalog: &str, report: &str) -> Result<(), Fail> {
    let told = told_of(alloc, &words_for(ask, "--compiled", "c"), catalog)?;
    compare(alloc, &told, 0, report, "", ask)
}

/// Something was told of the manifest, and the same is told of a compiled catalog.
fn tells_alike(alloc: Global, told: &Told, ask: &str, catalog: &str) -> Result<(), Fail> {
    holds(alloc, &["something, ", ask], !told.out.is_empty())?;
    catalog_is_told(alloc, ask, catalog, told.out.as_str())
}

/// With this value of `--ask` the same is told of a compiled catalog and of the manifest.
fn is_told_alike(alloc: Global, catalog: &str, ask: &str) -> Result<(), Fail> {
    let told = told_of(alloc, &words_for(ask, "--", "site.pp"), catalog)?;
    tells_alike(alloc, &told, ask, catalog)
}

fn all_told_of(alloc: Global, catalog: &str, asks: &[&str]) -> Result<(), Fail> {
    for ask in asks {
        is_told_alike(alloc, catalog, *ask)?;
    }
    Ok(())
}

/// With each of these values of `--ask` the same is told of the manifest and of a compiled catalog of these resources.
fn all_told_alike(alloc: Global, all: &[Res], asks: &[&str]) -> Result<(), Fail> {
    let text = catalog(alloc, all, &[])?;
    all_told_of(alloc, text.as_str(), asks)
}

/// A manifest and what Puppet makes of it: what is told is the same, but for proofs and explanations, which have places.
#[test]
fn a_manifest_and_its_catalog(rt: HostRuntime) -> Result<(), Fail> {
    all_told_alike(
        rt.alloc(),
        COMPILED,
        &["verify", "proof", "graph", "programs", "replay", "repair"],
    )
}
