//! Explanations: where a run fails and why, where outcomes differ, and where resources stand.

use super::common::{Told, begins, compare, compare_err, compare_status, holds, run_over};
use super::differences::behind;
use std::alloc::Global;
use std::test::Fail;
use test_rows::joined;

const LISTING: &str = concat!(
    r#"{"version":2,"packages":{"ntp":{"files":[["/etc/ntp.conf",null]],"folders":[]},"p":{"files":[],"folders":["/opt/p"]},"#,
    r#""a":{"files":[["/usr/share/x","digest1"]],"folders":[]},"b":{"files":[["/usr/share/x","digest2"]],"folders":[]}}}"#
);

fn asked(alloc: Global, words: &[&str], manifest: &str) -> Result<Told, Fail> {
    let over: [(&str, &[u8]); 2] = [
        ("site.pp", manifest.as_bytes()),
        ("listing", LISTING.as_bytes()),
    ];
    run_over(alloc, words, &over)
}

const EXPLAIN: &[&str] = &["--ask", "explain", "--packages", "listing", "site.pp"];

fn told_of(alloc: Global, manifest: &str) -> Result<Told, Fail> {
    asked(alloc, EXPLAIN, manifest)
}

/// A resource, and how the run ends in which it comes first.
type Run = (&'static str, &'static str);

/// A manifest of two resources that no pruning leaves aside, the tree from which they end apart, and both runs.
type Row = (&'static str, &'static str, Run, Run);

const ROWS: [Row; 9] = [
    (
        "package { 'ntp': }\nfile { '/etc/ntp.conf': content => 'server a' }",
        "{}",
        ("Package[ntp] (1:11)", "ends"),
        (
            "File[/etc/ntp.conf] (2:8)",
            r#"fails at File[/etc/ntp.conf] (2:8): creat "/etc/ntp.conf": no folder "/etc""#,
        ),
    ),
    (
        "package { 'p': } file { '/opt/p/d': ensure => directory }",
        "{}",
        ("Package[p] (1:11)", "ends"),
        (
            "File[/opt/p/d] (1:25)",
            r#"fails at File[/opt/p/d] (1:25): mkdir "/opt/p/d": no folder "/opt/p""#,
        ),
    ),
    (
        "\n  package { 'p': }\n\n  file { '/opt/p/d': ensure => link, target => '/t' }",
        "{}",
        ("Package[p] (2:13)", "ends"),
        (
            "File[/opt/p/d] (4:10)",
            r#"fails at File[/opt/p/d] (4:10): link "/opt/p/d": no folder "/opt/p""#,
        ),
    ),
    (
        "file { '/a': content => 'x' }\nfile { '/b': source => '/a' }",
        "{}",
        ("File[/a] (1:8)", "ends"),
        (
            "File[/b] (2:8)",
            r#"fails at File[/b] (2:8): cp "/a" "/b": no file "/a""#,
        ),
    ),
    // Columns are counted in bytes.
    (
        "/* \u{fc} */ package { 'p': } file { '/opt/p/x': content => '' }",
        "{}",
        ("Package[p] (1:20)", "ends"),
        (
            "File[/opt/p/x] (1:34)",
            r#"fails at File[/opt/p/x] (1:34): creat "/opt/p/x": no folder "/opt/p""#,
        ),
    ),
    // The resource that fails needn't be one of the two.
    (
        "package { 'p': ensure => absent } file { '/opt/p/d': ensure => directory }",
        r#"{"/.rehearsal":null,"/.rehearsal/package":null,"/.rehearsal/package/p":"","/opt":null,"/opt/p":null}"#,
        (
            "Package[p] (1:11)",
            r#"fails at File[/opt/p/d] (1:42): mkdir "/opt/p/d": no folder "/opt/p""#,
        ),
        ("File[/opt/p/d] (1:42)", "ends"),
    ),
    (
        "file { '/lib/systemd/system/ntp.service': content => 'x' }\nservice { 'ntp': ensure => running }",
        r#"{"/lib":null,"/lib/systemd":null,"/lib/systemd/system":null}"#,
        ("File[/lib/systemd/system/ntp.service] (1:8)", "ends"),
        (
            "Service[ntp] (2:11)",
            concat!(
                "fails at Service[ntp] (2:11): needs ",
                r#"(((file?("/etc/systemd/system/ntp.service") or file?("/lib/systemd/system/ntp.service")) or "#,
                r#"file?("/usr/lib/systemd/system/ntp.service")) or file?("/etc/init.d/ntp"))"#
            ),
        ),
    ),
    // A control character of a title stays on its line.
    (
        "package { 'p': } file { \"a\\nb\": path => '/opt/p/x', content => 'x' }",
        "{}",
        ("Package[p] (1:11)", "ends"),
        (
            "File[a\\x0ab] (1:25)",
            r#"fails at File[a\x0ab] (1:25): creat "/opt/p/x": no folder "/opt/p""#,
        ),
    ),
    (
        "class c { package { 'p': } }\nclass d { file { '/opt/p/x': content => 'x' } }\ninclude c, d",
        "{}",
        ("Package[p] (1:21)", "ends"),
        (
            "File[/opt/p/x] (2:18)",
            r#"fails at File[/opt/p/x] (2:18): creat "/opt/p/x": no folder "/opt/p""#,
        ),
    ),
];

/// Whether this is told where the first comes ahead of the second in the first order.
fn tells(
    alloc: Global,
    told: &str,
    tree: &'static str,
    first: &Run,
    second: &Run,
) -> Result<bool, Fail> {
    let text = joined(
        alloc,
        &[
            "resources 2\npruned 0\nnot deterministic\nexchanged ",
            first.0,
            " and ",
            second.0,
            "\ntree ",
            tree,
            "\n",
            first.0,
            " first: ",
            first.1,
            "\n",
            second.0,
            " first: ",
            second.1,
            "\n",
        ],
    )?;
    Ok(told == text.as_str())
}

/// Whether a row is told, with either run first.
fn tells_row(alloc: Global, told: &str, row: &Row) -> Result<bool, Fail> {
    let is_left = tells(alloc, told, row.1, &row.2, &row.3)?;
    let is_right = tells(alloc, told, row.1, &row.3, &row.2)?;
    Ok(is_left || is_right)
}

/// What is wanted is told on out alone, with the status of a manifest whose order matters.
fn is_apart(alloc: Global, told: &Told, is_wanted: bool) -> Result<(), Fail> {
    holds(alloc, &[told.out.as_str()], is_wanted)?;
    compare_err(alloc, told, "", "err")?;
    compare_status(alloc, told, 1, told.out.as_str())
}

/// What was told explains a row.
fn explains(alloc: Global, told: &Told, row: &Row) -> Result<(), Fail> {
    let is_wanted = tells_row(alloc, told.out.as_str(), row)?;
    is_apart(alloc, told, is_wanted)
}

fn is_explained(alloc: Global, row: &Row) -> Result<(), Fail> {
    let told = told_of(alloc, row.0)?;
    explains(alloc, &told, row)
}

fn all_explained(alloc: Global, rows: &[Row]) -> Result<(), Fail> {
    for row in rows {
        is_explained(alloc, row)?;
    }
    Ok(())
}

#[test]
fn orders_that_end_apart(rt: HostRuntime) -> Result<(), Fail> {
    all_explained(rt.alloc(), &ROWS)
}

/// What is told of two packages. Which order is told first is free; the package that comes last has its content there.
const PACKAGES: [&str; 2] = [
    concat!(
        "resources 2\npruned 0\nnot deterministic\nexchanged Package[a] (1:11) and Package[b] (1:11)\ntree {}\n",
        "Package[a] (1:11) first: ends\nPackage[b] (1:11) first: ends\n",
        "at \"/usr/share/x\": file \"digest:digest2\" | file \"digest:digest1\"\n"
    ),
    concat!(
        "resources 2\npruned 0\nnot deterministic\nexchanged Package[b] (1:11) and Package[a] (1:11)\ntree {}\n",
        "Package[b] (1:11) first: ends\nPackage[a] (1:11) first: ends\n",
        "at \"/usr/share/x\": file \"digest:digest1\" | file \"digest:digest2\"\n"
    ),
];

/// One of these two texts is told.
fn is_either(alloc: Global, manifest: &str, one: &str, other: &str) -> Result<(), Fail> {
    let told = told_of(alloc, manifest)?;
    let is_wanted = told.out.as_str() == one || told.out.as_str() == other;
    is_apart(alloc, &told, is_wanted)
}

#[test]
fn paths_at_which_outcomes_differ(rt: HostRuntime) -> Result<(), Fail> {
    is_either(
        rt.alloc(),
        "package { ['a', 'b']: }",
        PACKAGES[0],
        PACKAGES[1],
    )
}

/// Words, a manifest, the status, and what is told on out and err.
type Asked = (
    &'static [&'static str],
    &'static str,
    u8,
    &'static str,
    &'static str,
);

fn is_told(alloc: Global, row: &Asked) -> Result<(), Fail> {
    let told = asked(alloc, row.0, row.1)?;
    compare(alloc, &told, row.2, row.3, row.4, row.1)
}

fn all_told(alloc: Global, rows: &[Asked]) -> Result<(), Fail> {
    for row in rows {
        is_told(alloc, row)?;
    }
    Ok(())
}

/// Manifests that fail from every tree, and where the first extension fails from the empty tree. No model removes what it hasn't asked
/// about, so `rm` fails in none of them.
const NEVER: [Asked; 6] = [
    (
        EXPLAIN,
        "package { 'p': } -> file { '/opt/p': content => 'x' }",
        0,
        concat!(
            "resources 2\npruned 2\ndeterministic\nidempotent\nfails from every tree\n",
            "from {}: fails at File[/opt/p] (1:28): creat \"/opt/p\": exists\n"
        ),
        "",
    ),
    (
        EXPLAIN,
        "package { 'p': } -> file { '/opt/p': ensure => link, target => '/t' }",
        0,
        concat!(
            "resources 2\npruned 2\ndeterministic\nidempotent\nfails from every tree\n",
            "from {}: fails at File[/opt/p] (1:28): link \"/opt/p\": exists\n"
        ),
        "",
    ),
    (
        EXPLAIN,
        "file { '/opt': content => 'x' } -> package { 'p': }",
        0,
        concat!(
            "resources 2\npruned 2\ndeterministic\nidempotent\nfails from every tree\n",
            "from {}: fails at Package[p] (1:46): mkdir \"/opt\": exists\n"
        ),
        "",
    ),
    (
        EXPLAIN,
        "package { 'p': } -> file { '/s': content => 'x' } -> file { '/opt/p': source => '/s' }",
        0,
        concat!(
            "resources 3\npruned 3\ndeterministic\nidempotent\nfails from every tree\n",
            "from {}: fails at File[/opt/p] (1:61): cp \"/s\" \"/opt/p\": exists \"/opt/p\"\n"
        ),
        "",
    ),
    (
        EXPLAIN,
        "file { '/q': content => 'x' } -> file { '/q/d': source => '/q' }",
        0,
        concat!(
            "resources 2\npruned 2\ndeterministic\nidempotent\nfails from every tree\n",
            "from {}: fails at File[/q/d] (1:41): cp \"/q\" \"/q/d\": no folder \"/q\"\n"
        ),
        "",
    ),
    (
        EXPLAIN,
        "node default { cron { 'c': command => 'x', user => 'u' } user { 'u': ensure => absent } }",
        0,
        concat!(
            "resources 2\nnode default\npruned 2\ndeterministic\nidempotent\nfails from every tree\n",
            "from {}: fails at Cron[c] (1:23): needs file?(\"/.rehearsal/user/u\")\n"
        ),
        "",
    ),
];

#[test]
fn manifests_that_never_succeed(rt: HostRuntime) -> Result<(), Fail> {
    all_told(rt.alloc(), &NEVER)
}

/// A manifest of which a second run changes something, the lines in front of the tree, and those behind it: how the second run ends,
/// and how the lines on what it changed begin and end. The content in the tree is free.
type Again = (&'static str, &'static str, &'static str, &'static str);

const AGAIN: [Again; 3] = [
    (
        "file { '/dst': source => '/src' } -> file { '/src': ensure => absent }",
        "resources 2\npruned 2\ndeterministic\nnot idempotent\n",
        "second run: fails at File[/dst] (1:8): cp \"/src\" \"/dst\": no file \"/src\"\n",
        "succeeds from some tree\n",
    ),
    (
        "file { '/a': source => '/b' } -> file { '/b': content => 'x' }",
        "resources 2\npruned 2\ndeterministic\nnot idempotent\n",
        "second run: ends\nat \"/a\": file \"",
        "\" | file \"x\"\nsucceeds from some tree\n",
    ),
    (
        "node 'Web' { file { '/a': source => '/b' } -> file { '/b': content => 'x' } }",
        "resources 2\nnode Web\npruned 2\ndeterministic\nnot idempotent\n",
        "second run: ends\nat \"/a\": file \"",
        "\" | file \"x\"\nsucceeds from some tree\n",
    ),
];

const EXPLAIN_WEB: &[&str] = &[
    "--ask",
    "explain",
    "--node",
    "web",
    "--packages",
    "listing",
    "site.pp",
];

/// Behind the tree the lines begin and end as a row has them.
fn changes_again(alloc: Global, rest: &str, row: &Again) -> Result<(), Fail> {
    let (_, lines) = behind(rest, "tree ");
    begins(alloc, row.0, lines, row.2)?;
    holds(alloc, &["end, ", lines], lines.ends_with(row.3))
}

/// What a second run changes was told on out alone, as a row has it.
fn tells_again(alloc: Global, told: &Told, row: &Again) -> Result<(), Fail> {
    compare_status(alloc, told, 2, row.0)?;
    compare_err(alloc, told, "", row.0)?;
    let rest = told.out.as_str().strip_prefix(row.1).unwrap_or("?");
    changes_again(alloc, rest, row)
}

fn is_changed_again(alloc: Global, row: &Again) -> Result<(), Fail> {
    let told = asked(alloc, EXPLAIN_WEB, row.0)?;
    tells_again(alloc, &told, row)
}

fn all_changed_again(alloc: Global, rows: &[Again]) -> Result<(), Fail> {
    for row in rows {
        is_changed_again(alloc, row)?;
    }
    Ok(())
}

#[test]
fn second_runs_that_are_explained(rt: HostRuntime) -> Result<(), Fail> {
    all_changed_again(rt.alloc(), &AGAIN)
}

/// What is told with a node, and what is refused.
const ASIDE: [Asked; 8] = [
    (
        &["--ask", "explain", "site.pp"],
        "",
        0,
        "resources 0\npruned 0\ndeterministic\nidempotent\nsucceeds from some tree\n",
        "",
    ),
    (
        &["--ask", "explain", "--node", "WEB1.example.org", "site.pp"],
        "node 'a', 'Web1.Example.org' { } node default { }",
        0,
        "resources 0\nnode Web1.Example.org\npruned 0\ndeterministic\nidempotent\nsucceeds from some tree\n",
        "",
    ),
    (
        &["--ask", "explain", "--node", "web2", "site.pp"],
        "node 'web1' { } node default { file { '/a': content => 'x' } }",
        0,
        "resources 1\nnode default\npruned 1\ndeterministic\nidempotent\nsucceeds from some tree\n",
        "",
    ),
    (
        &["--ask", "explain", "--node", "web2", "site.pp"],
        "node 'web1' { }",
        4,
        "",
        "refused 31 at 0: web2\n",
    ),
    (
        &[
            "--ask",
            "explain",
            "--packages",
            "listing",
            "--conflicts",
            "1",
            "site.pp",
        ],
        "package { ['a', 'b']: }",
        3,
        "resources 2\npruned 0\nspent deterministic 1\n",
        "",
    ),
    (
        &["--ask", "explain", "site.pp"],
        "exec { 'x': }",
        4,
        "",
        "refused 50 at 7: Exec[x]\n",
    ),
    (
        &["--ask", "explain", "--path", "/a", "site.pp"],
        "",
        5,
        "",
        "usage: rehearsal [--facts F] [--packages P] [--node N] [--conflicts C] [--ask A] [--tree T] [--order O] [--workload N] [--path P] [--content T] [--other M] [--data D] [--compiled C] [--assume S] [--given G] [--limits L] [INPUT]\n",
    ),
    (
        &["--ask", "explain", "--tree", "listing", "site.pp"],
        "",
        5,
        "",
        "usage: rehearsal [--facts F] [--packages P] [--node N] [--conflicts C] [--ask A] [--tree T] [--order O] [--workload N] [--path P] [--content T] [--other M] [--data D] [--compiled C] [--assume S] [--given G] [--limits L] [INPUT]\n",
    ),
];

#[test]
fn nodes_and_refusals(rt: HostRuntime) -> Result<(), Fail> {
    all_told(rt.alloc(), &ASIDE)
}
