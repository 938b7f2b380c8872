//! Catalogs, graphs and programs that are asked for, over the files beside a manifest.

use super::common::{ONE, TWO, Told, compare_text, run_over};
use std::alloc::Global;
use std::test::Fail;

const NTP: &str =
    "class ntp($servers = ['a', 'b']) { package { 'ntp': ensure => installed } file { '/etc/ntp.conf': ensure => file, owner => 'root', mode => '0644', content => \"servers ${servers}\\n\", require => Package['ntp'] } service { 'ntp': ensure => running, enable => true, subscribe => File['/etc/ntp.conf'] } } include ntp";

const LISTING: &[u8] =
    br#"{"version":1,"packages":{"ntp":{"files":["/etc/ntp.conf","/lib/systemd/system/ntp.service"],"folders":[]}}}"#;

const FACTS: &[u8] = br#"{"os":{"family":"Debian"},"load":0.5}"#;

const DATA: &[u8] =
    br#"{"levels":[{"when":{"os":{"family":"debian"}},"values":{"ntp::servers":["c"]}}]}"#;

/// What is told of two resources that pruning keeps.
const NONE_PRUNED: &str =
    "resources 2\npruned 0\ndeterministic\nidempotent\nsucceeds from some tree\n";

/// What is asked, of which manifest, and what is told.
type Row = (&'static [&'static str], &'static str, &'static str);

const ROWS: [Row; 30] = [
    (
        &["--ask", "catalog", "site.pp"],
        "$x = 010 file { '/a': content => \"${x}\" }",
        "File[/a]\n  content => \"8\"\n",
    ),
    (
        &["--ask", "catalog", "site.pp"],
        "File { mode => '0644' } file { '/a': content => 'x' }",
        "File[/a]\n  content => \"x\"\n  mode => \"0644\"\n",
    ),
    (
        &["--ask", "catalog", "site.pp"],
        "define d($p) { file { $title: content => $p } } d { '/x': p => 'q' } d { '/y': p => 'r' }",
        "File[/x]\n  content => \"q\"\nFile[/y]\n  content => \"r\"\n",
    ),
    (
        &["--ask", "catalog", "--facts", "facts", "site.pp"],
        "case $facts['os']['family'] { 'debian': { file { '/d': content => 'x' } } default: { file { '/e': content => 'x' } } }",
        "File[/d]\n  content => \"x\"\n",
    ),
    (
        &[
            "--ask", "catalog", "--facts", "facts", "--data", "data", "site.pp",
        ],
        "class ntp($servers) { file { '/n': content => $servers[0] } } include ntp",
        "File[/n]\n  content => \"c\"\n",
    ),
    (
        &["--ask", "catalog", "--node", "web1", "site.pp"],
        "node web1 { file { '/w': } } node default { file { '/d': } }",
        "File[/w]\n",
    ),
    (
        &["--ask", "catalog", "site.pp"],
        "node web1 { file { '/w': } } node default { file { '/d': } }",
        "File[/d]\n",
    ),
    (
        &["--ask", "catalog", "site.pp"],
        "file { \"/a\\nFile[/b]\": mode => '1' }",
        "File[/a\\x0aFile[/b]]\n  mode => \"1\"\n",
    ),
    (
        &["--ask", "graph", "site.pp"],
        "file { \"/a\\nFile[/b]\": } -> file { '/c': }",
        "File[/a\\x0aFile[/b]]\nFile[/c]\nFile[/a\\x0aFile[/b]] -> File[/c]\n",
    ),
    (
        &["--ask", "graph", "site.pp"],
        "file { '/a': ensure => directory } file { '/a/b': content => 'x' } File['/a/b'] -> File['/a']",
        "File[/a]\nFile[/a/b]\nFile[/a/b] -> File[/a]\n",
    ),
    (
        &["--ask", "graph", "site.pp"],
        "class empty { } include empty file { ['/a', '/b']: } File['/a'] -> Class['empty'] -> File['/b']",
        "File[/a]\nFile[/b]\nFile[/a] -> File[/b]\n",
    ),
    (
        &["--ask", "graph", "site.pp"],
        NTP,
        "Package[ntp]\nFile[/etc/ntp.conf]\nService[ntp]\nPackage[ntp] -> File[/etc/ntp.conf]\nPackage[ntp] -> Service[ntp]\nFile[/etc/ntp.conf] -> Service[ntp]\n",
    ),
    (
        &["--ask", "catalog", "site.pp"],
        NTP,
        "Package[ntp]\n  ensure => \"installed\"\nFile[/etc/ntp.conf]\n  ensure => \"file\"\n  owner => \"root\"\n  mode => \"0644\"\n  content => \"servers [a, b]\\n\"\n  require => \"Package[ntp]\"\nService[ntp]\n  ensure => \"running\"\n  enable => true\n  subscribe => \"File[/etc/ntp.conf]\"\n",
    ),
    (
        &["--ask", "graph", "site.pp"],
        "file { '/a': } <- file { '/b': }",
        "File[/a]\nFile[/b]\nFile[/b] -> File[/a]\n",
    ),
    (
        &["--ask", "graph", "site.pp"],
        "file { '/a': } <~ file { '/b': } ~> file { '/c': }",
        "File[/a]\nFile[/b]\nFile[/c]\nFile[/b] -> File[/a]\nFile[/b] -> File[/c]\n",
    ),
    (
        &["--ask", "graph", "site.pp"],
        "file { ['/a', '/b']: } file { '/c': mode => '1' } File <| mode == '1' |> -> File['/a'] File['/b'] -> File <| mode == '1' |>",
        "File[/a]\nFile[/b]\nFile[/c]\nFile[/b] -> File[/a]\nFile[/b] -> File[/c]\nFile[/c] -> File[/a]\n",
    ),
    (
        &["--ask", "graph", "site.pp"],
        "class c { file { '/c': } } class d { contain c } include d file { '/x': require => Class['d'] }",
        "File[/c]\nFile[/x]\nFile[/c] -> File[/x]\n",
    ),
    (
        &["--ask", "graph", "site.pp"],
        "define d() { file { $title: } } @file { '/v': before => File['/x'] } d { '/i': before => File['/x'] } file { '/x': }",
        "File[/x]\nFile[/i]\nFile[/i] -> File[/x]\n",
    ),
    (
        &["--ask", "programs", "site.pp"],
        "file { '/etc/motd': content => 'hi' }",
        "File[/etc/motd]\nif file?(\"/etc/motd\") then [rm(\"/etc/motd\"); creat(\"/etc/motd\",\"hi\")] else creat(\"/etc/motd\",\"hi\")\n",
    ),
    (
        &["--ask", "programs", "site.pp"],
        "group { 'g': ensure => absent } file { '/a': ensure => directory }",
        "Group[g]\nif file?(\"/.rehearsal/group/g\") then rm(\"/.rehearsal/group/g\") else id\nFile[/a]\nif dir?(\"/a\") then id else mkdir(\"/a\")\n",
    ),
    (
        &["--ask", "programs", "site.pp"],
        "file { '/a': ensure => link, target => '/b' }",
        "File[/a]\nif (file?(\"/a\") or link?(\"/a\")) then [rm(\"/a\"); link(\"/a\",\"/b\")] else link(\"/a\",\"/b\")\n",
    ),
    (
        &["site.pp"],
        "file { '/a': ensure => link, target => '/b' }",
        ONE,
    ),
    (
        &["site.pp"],
        "file { '/a': ensure => link, target => '/b' } file { '/a/c': content => 'x' }",
        "resources 2\npruned 2\ndeterministic\nidempotent\nfails from every tree\n",
    ),
    (
        &["site.pp"],
        "class empty { } include empty file { ['/a', '/b']: } File['/a'] -> Class['empty'] -> File['/b']",
        TWO,
    ),
    (
        &["--packages", "listing", "site.pp"],
        NTP,
        "resources 3\npruned 3\ndeterministic\nidempotent\nsucceeds from some tree\n",
    ),
    (
        &["--packages", "docs", "site.pp"],
        "package { ['x', 'y']: }",
        TWO,
    ),
    (
        &["--packages", "shared", "site.pp"],
        "package { 'ntp': } file { '/etc/ntp.conf': content => 'server a' } file { '/a': ensure => file } file { '/a/b': ensure => file }",
        "resources 4\npruned 2\ndeterministic\nidempotent\nfails from every tree\n",
    ),
    (
        &["--packages", "shared", "site.pp"],
        "package { 'ntp': } file { '/etc/ntp.conf': content => 'server a', require => Package['ntp'] }",
        TWO,
    ),
    (
        &["--packages", "alike", "site.pp"],
        "package { ['a', 'b']: }",
        NONE_PRUNED,
    ),
    (
        &["--packages", "alike", "--conflicts", "1000000", "site.pp"],
        "package { ['a', 'b']: }",
        NONE_PRUNED,
    ),
];

/// The outcomes of runs.
const RUNS: [Row; 9] = [
    (
        &["--ask", "replay", "site.pp"],
        "file { '/a': content => 'x' } file { '/b': content => 'y' }",
        "outcome {\"/a\":\"x\",\"/b\":\"y\"}\n",
    ),
    (&["--ask", "replay", "site.pp"], "", "outcome {}\n"),
    (
        &["--ask", "replay", "site.pp"],
        "file { '/a/b': content => 'y' }",
        "outcome error\n",
    ),
    (
        &[
            "--ask",
            "replay",
            "--packages",
            "opt",
            "--tree",
            "tree",
            "site.pp",
        ],
        "package { 'p': ensure => absent }",
        "outcome {\"/.rehearsal\":null,\"/.rehearsal/package\":null,\"/opt\":null,\"/opt/p\":null,\"/opt/p/z\":\"q\"}\n",
    ),
    (
        &["--ask", "replay", "--tree", "link", "site.pp"],
        "file { '/a': ensure => absent }",
        "outcome {}\n",
    ),
    (
        &["--ask", "replay", "--order", "turned", "site.pp"],
        "file { '/a': ensure => directory } file { '/b': content => 'y' }",
        "outcome {\"/a\":null,\"/b\":\"y\"}\n",
    ),
    (
        &["--ask", "replay", "--packages", "shared", "site.pp"],
        SHARED_MANIFEST,
        "outcome {\"/.rehearsal\":null,\"/.rehearsal/package\":null,\"/.rehearsal/package/ntp\":\"\",\"/etc\":null,\"/etc/ntp.conf\":\"server a\"}\n",
    ),
    (
        &[
            "--ask",
            "replay",
            "--packages",
            "shared",
            "--order",
            "conf",
            "site.pp",
        ],
        SHARED_MANIFEST,
        "outcome error\n",
    ),
    (
        &[
            "--ask",
            "replay",
            "--packages",
            "shared",
            "--order",
            "packed",
            "site.pp",
        ],
        SHARED_MANIFEST,
        "outcome {\"/.rehearsal\":null,\"/.rehearsal/package\":null,\"/.rehearsal/package/ntp\":\"\",\"/etc\":null,\"/etc/ntp.conf\":\"server a\"}\n",
    ),
];

/// A package and a file that it brings, without an arrow between them.
const SHARED_MANIFEST: &str = "package { 'ntp': } file { '/etc/ntp.conf': content => 'server a' }";

/// What is refused, of which manifest, and the line.
const REFUSED: [Row; 18] = [
    (
        &[
            "--ask", "catalog", "--facts", "data", "--data", "facts", "site.pp",
        ],
        "",
        "refused 64 at 0: data\n",
    ),
    (
        &["--facts", "none", "--packages", "none", "site.pp"],
        "$x = 09",
        "refused 60 at 0: facts\n",
    ),
    (
        &["--facts", "facts", "--packages", "facts", "site.pp"],
        "$x = 09",
        "refused 61 at 0: packages\n",
    ),
    (
        &["--packages", "facts", "--data", "facts", "site.pp"],
        "$x = 09",
        "refused 61 at 0: packages\n",
    ),
    (
        &[
            "--ask", "replay", "--data", "facts", "--tree", "hanging", "--order", "missing",
            "site.pp",
        ],
        "$x = 09",
        "refused 64 at 0: data\n",
    ),
    (
        &["--packages", "third", "site.pp"],
        "",
        "refused 61 at 0: packages\n",
    ),
    (
        &["--ask", "catalog", "--facts", "facts", "site.pp"],
        "$x = $load + 1",
        "refused 29 at 5: operand\n",
    ),
    (
        &["--ask", "catalog", "--facts", "facts", "site.pp"],
        "case $facts['os']['family'] { 'debian': { file { '/d': content => 'x' } } default: { file { '/e': content => 'x' } } } $x = $load + 1",
        "refused 29 at 124: operand\n",
    ),
    (
        &["--ask", "catalog", "site.pp"],
        "class c { file { '/c': } }\ninclude c\ninclude c\nclass { 'c': }",
        "refused 24 at 55: Class[c]\n",
    ),
    (
        &["--ask", "catalog", "site.pp"],
        "fail(\"no\\nrefused 24 at 0: x\")",
        "refused 30 at 0: no\\x0arefused 24 at 0: x\n",
    ),
    (
        &["--ask", "catalog", "site.pp"],
        "node web1 { }",
        "refused 31 at 0: \n",
    ),
    (
        &["--ask", "replay", "--order", "missing", "site.pp"],
        "file { '/etc/motd': content => 'hi' }",
        "refused 63 at 0: order\n",
    ),
    (
        &["--ask", "replay", "--order", "turned", "site.pp"],
        "file { '/a': } -> file { '/b': }",
        "refused 63 at 0: order\n",
    ),
    (
        &["--ask", "replay", "--order", "none", "site.pp"],
        "file { '/a': }",
        "refused 63 at 0: order\n",
    ),
    (
        &[
            "--ask", "replay", "--tree", "hanging", "--order", "missing", "site.pp",
        ],
        "$x = 09",
        "refused 62 at 0: tree\n",
    ),
    (
        &["--ask", "replay", "--tree", "hanging", "site.pp"],
        "file { '/etc/motd': content => 'hi' }",
        "refused 62 at 0: tree\n",
    ),
    (
        &["site.pp"],
        "file { '/a': ensure => link }",
        "refused 51 at 7: target\n",
    ),
    (
        &["--ask", "replay", "--order", "missing", "site.pp"],
        "exec { 'ls': }",
        "refused 50 at 7: Exec[ls]\n",
    ),
];

const SHARED: &[u8] =
    br#"{"version":1,"packages":{"ntp":{"files":["/etc/ntp.conf"],"folders":[]}}}"#;

const DOCS: &[u8] =
    br#"{"version":1,"packages":{"x":{"files":["/usr/share/doc/x"],"folders":[]},"y":{"files":["/usr/share/doc/y"],"folders":[]}}}"#;

const OPT: &[u8] = br#"{"version":1,"packages":{"p":{"files":[],"folders":["/opt/p"]}}}"#;

const TREE: &[u8] =
    br#"{"/.rehearsal":null,"/.rehearsal/package":null,"/.rehearsal/package/p":"","/opt":null,"/opt/p":null,"/opt/p/z":"q"}"#;

const ALIKE: &[u8] =
    br#"{"version":2,"packages":{"a":{"files":[["/opt/x","d1"]],"folders":[]},"b":{"files":[["/opt/x","d1"]],"folders":[]}}}"#;

/// What words give over a manifest and the files beside it.
fn told_of(alloc: Global, words: &[&str], manifest: &str) -> Result<Told, Fail> {
    let over: [(&str, &[u8]); 17] = [
        ("site.pp", manifest.as_bytes()),
        ("facts", FACTS),
        ("data", DATA),
        ("listing", LISTING),
        ("shared", SHARED),
        ("docs", DOCS),
        ("none", b"[1]"),
        ("third", br#"{"version":3,"packages":{}}"#),
        ("opt", OPT),
        ("alike", ALIKE),
        ("tree", TREE),
        ("link", br#"{"/a":{"link":"/b"}}"#),
        ("hanging", br#"{"/a/b":null}"#),
        ("missing", br#"["File[/x]"]"#),
        ("turned", br#"["File[/b]","File[/a]"]"#),
        ("conf", br#"["File[/etc/ntp.conf]","Package[ntp]"]"#),
        ("packed", br#"["Package[ntp]","File[/etc/ntp.conf]"]"#),
    ];
    run_over(alloc, words, &over)
}

/// A row is told so with status 0, and refused so with another.
fn is_told(alloc: Global, status: u8, row: &Row) -> Result<(), Fail> {
    let told = told_of(alloc, row.0, row.1)?;
    compare_text(alloc, &told, status, row.2, row.1)
}

/// Each row is told so with status 0, and refused so with another.
fn all_told(alloc: Global, status: u8, rows: &[Row]) -> Result<(), Fail> {
    for row in rows {
        is_told(alloc, status, row)?;
    }
    Ok(())
}

#[test]
fn what_is_asked(rt: HostRuntime) -> Result<(), Fail> {
    all_told(rt.alloc(), 0, &ROWS)
}

#[test]
fn outcomes_of_runs(rt: HostRuntime) -> Result<(), Fail> {
    all_told(rt.alloc(), 0, &RUNS)
}

#[test]
fn what_is_refused(rt: HostRuntime) -> Result<(), Fail> {
    all_told(rt.alloc(), 4, &REFUSED)
}
