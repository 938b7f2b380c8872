//! Manifests that are judged, and manifests that are refused.

use super::common::{NONE, ONE, TWO, Told, compare, compare_told, push_all, run, run_over};
use super::differences::USUAL;
use std::alloc::Global;
use std::test::Fail;
use test_rows::number_text;

/// Words over a file `site.pp` of this text give so much, with this status.
fn is_told(alloc: Global, words: &[&str], status: u8, text: &str, want: &str) -> Result<(), Fail> {
    let told = run(alloc, words, text.as_bytes())?;
    compare_told(alloc, &told, status, want, text)
}

/// Each row: the text of the file `site.pp`, and what the words give over it, with this status.
pub fn all_told(
    alloc: Global,
    words: &[&str],
    status: u8,
    rows: &[(&str, &str)],
) -> Result<(), Fail> {
    for (text, want) in rows {
        is_told(alloc, words, status, *text, *want)?;
    }
    Ok(())
}

#[test]
fn manifests_that_are_judged(rt: HostRuntime) -> Result<(), Fail> {
    all_told(
        rt.alloc(),
        &["site.pp"],
        0,
        &[
            ("", NONE),
            (" \n", NONE),
            (
                "# one file\nfile { '/etc/motd': /* its text */ content => \"hi\" }",
                ONE,
            ),
            ("file { '/a': content => 'x'; '/b': content => 'y'; }", TWO),
            ("file { '/etc/motd': content => 'hi' }", ONE),
            (
                "file{'/a':content=>'x',}file { '/b\\'\\\\c': content => '\\n' , } ",
                TWO,
            ),
            (
                "file { '/a/b': content => '' } file { '/a/c': content => '' }",
                TWO,
            ),
        ],
    )
}

#[test]
fn orders_that_do_not_matter(rt: HostRuntime) -> Result<(), Fail> {
    all_told(
        rt.alloc(),
        &["site.pp"],
        0,
        &[
            ("$x = 010", NONE),
            ("@file { '/v': content => 'x' }", NONE),
            (
                "@file { '/v': content => 'x' } File <| content == 'x' |>",
                ONE,
            ),
            (
                "define d() { @file { '/w': content => 'x' } } @d { 'a': } D <| |> File <| |>",
                ONE,
            ),
            (
                "file { '/a': ensure => directory } file { '/a/b': content => 'x' }",
                TWO,
            ),
            (
                "file { '/a': ensure => directory } file { '/a/b': content => 'x' } File['/a/b'] -> File['/a']",
                TWO,
            ),
            (
                "file { '/a': ensure => file } file { '/a/b': ensure => file }",
                "resources 2\npruned 2\ndeterministic\nidempotent\nfails from every tree\n",
            ),
            (
                "file { '/a': content => 'x' } file { '/a/b': content => 'y' }",
                "resources 2\npruned 2\ndeterministic\nidempotent\nfails from every tree\n",
            ),
        ],
    )
}

/// What is told of a manifest beside the listing of usual packages.
fn told_beside(alloc: Global, manifest: &str) -> Result<Told, Fail> {
    let over: [(&str, &[u8]); 2] = [
        ("site.pp", manifest.as_bytes()),
        ("listing", USUAL.as_bytes()),
    ];
    run_over(alloc, &["--packages", "listing", "site.pp"], &over)
}

/// This is told of a manifest beside that listing.
fn is_judged(alloc: Global, manifest: &str, report: &str) -> Result<(), Fail> {
    let told = told_beside(alloc, manifest)?;
    compare(alloc, &told, 0, report, "", manifest)
}

/// Each row: a manifest beside that listing, and what is told of it.
fn all_judged(alloc: Global, rows: &[(&str, &str)]) -> Result<(), Fail> {
    for (manifest, report) in rows {
        is_judged(alloc, *manifest, *report)?;
    }
    Ok(())
}

/// Usual hosts, on which pruning keeps files and packages though no order matters.
#[test]
fn usual_hosts(rt: HostRuntime) -> Result<(), Fail> {
    all_judged(
        rt.alloc(),
        &[
            (
                "package { ['a', 'b', 'c']: } file { '/etc/a.conf': content => 'a', require => Package['a'] } file { '/etc/b.conf': content => 'b', require => Package['b'] } file { '/etc/c.conf': content => 'c', require => Package['c'] }",
                "resources 6\npruned 0\ndeterministic\nidempotent\nsucceeds from some tree\n",
            ),
            // Two packages have one file with one digest.
            (
                "package { ['a', 'b', 'c']: } file { '/etc/a.conf': content => 'a', require => Package['a'] } file { '/etc/b.conf': content => 'b', require => Package['b'] } file { '/etc/c.conf': content => 'c', require => Package['c'] } package { ['x', 'y']: }",
                "resources 8\npruned 0\ndeterministic\nidempotent\nsucceeds from some tree\n",
            ),
            // The folder is declared, so that each file in it comes after it.
            (
                "file { '/etc': ensure => directory } file { ['/etc/a.conf', '/etc/b.conf', '/etc/c.conf']: content => 'x' } package { ['a', 'b', 'c']: }",
                "resources 7\npruned 1\ndeterministic\nidempotent\nsucceeds from some tree\n",
            ),
        ],
    )
}

/// What pruning keeps isn't deterministic by itself, since two packages have one file with two digests; but a file in a file makes
/// every order of the whole end in Error.
#[test]
fn graphs_that_always_fail(rt: HostRuntime) -> Result<(), Fail> {
    all_judged(
        rt.alloc(),
        &[
            (
                "package { ['x', 'z']: } file { '/f': content => 'f' } file { '/f/g': content => 'g' }",
                "resources 4\npruned 2\ndeterministic\nidempotent\nfails from every tree\n",
            ),
            (
                "package { ['x', 'z']: } file { '/f': content => 'f' } file { '/f/g': content => 'g' } file { ['/a', '/b', '/c', '/d', '/e']: content => 'q' }",
                "resources 9\npruned 7\ndeterministic\nidempotent\nfails from every tree\n",
            ),
            // The part that fails comes first.
            (
                "file { '/f': content => 'f' } file { '/f/g': content => 'g' } -> package { ['x', 'z']: }",
                "resources 4\npruned 2\ndeterministic\nidempotent\nfails from every tree\n",
            ),
        ],
    )
}

/// Each cause of a refusal in the text, the catalog, the graph or the programs of a manifest.
const REFUSED: [(&str, &str); 38] = [
    ("package { 'ntp': }", "refused 54 at 10: Package[ntp]\n"),
    ("package { 'x': }", "refused 54 at 10: Package[x]\n"),
    ("$x = 1.5", "refused 14 at 5: 1.5\n"),
    ("$x = 09", "refused 11 at 5: lexical\n"),
    ("$x = a.b", "refused 14 at 6: .\n"),
    ("file { '/a': content => 'x'", "refused 12 at 27: syntax\n"),
    ("file { '/a': content => $x }", "refused 20 at 24: $x\n"),
    ("$a = 1 $a = 2", "refused 21 at 7: $a\n"),
    ("$x = 9223372036854775807 + 1", "refused 33 at 5: integer\n"),
    ("include z", "refused 22 at 0: z\n"),
    (
        "class c { file { '/c': } }\ninclude c\ninclude c\nclass { 'c': }",
        "refused 24 at 55: Class[c]\n",
    ),
    ("realize(File['/v'])", "refused 40 at 0: File[/v]\n"),
    (
        "file { '/a': content => 'x', require => File['/z'] }",
        "refused 40 at 7: File[/z]\n",
    ),
    (
        "file { '/a': } file { '/b': } File['/a'] -> File['/b'] File['/b'] -> File['/a']",
        "refused 41 at 0: File[/a] -> File[/b] -> File[/a]\n",
    ),
    ("exec { 'ls': }", "refused 50 at 7: Exec[ls]\n"),
    (
        "file { '/a': recurse => true }",
        "refused 51 at 7: recurse\n",
    ),
    ("file { 'a': }", "refused 52 at 7: File[a]\n"),
    ("file { 'a': content => 'x' }", "refused 52 at 7: File[a]\n"),
    (
        "file { '/a/../b': content => '' }",
        "refused 52 at 7: File[/a/../b]\n",
    ),
    (
        "file { '/.rehearsal/x': }",
        "refused 53 at 7: File[/.rehearsal/x]\n",
    ),
    (
        "file { '/a': ensure => maybe }",
        "refused 55 at 7: File[/a]\n",
    ),
    (
        "file { '/a': } file { '/a/': }",
        "refused 56 at 22: File[/a/]\n",
    ),
    ("$x = 1 fyle { 'a': }", "refused 23 at 7: fyle\n"),
    ("$x = 1 define ::class() { }", "refused 24 at 7: class\n"),
    ("class c($p) { } include c", "refused 25 at 16: p\n"),
    ("class c { } class { 'c': q => 1 }", "refused 26 at 20: q\n"),
    (
        "class c(Integer $p) { } class { 'c': p => 'a' }",
        "refused 27 at 32: p\n",
    ),
    ("$x = 'a' ? { 'b' => 1 }", "refused 28 at 5: selector\n"),
    ("file { '': }", "refused 29 at 7: operand\n"),
    (
        "file { '/a': require => 'x' }",
        "refused 29 at 24: operand\n",
    ),
    ("$x = 1 fail('a', 1)", "refused 30 at 7: a 1\n"),
    (
        "$x = 1 class a inherits b { } class b inherits a { } include a",
        "refused 34 at 7: a\n",
    ),
    (
        "file { '/a': } File['/a'] -> File['/z']",
        "refused 40 at 15: File[/z]\n",
    ),
    (
        "@file { '/v': } file { '/a': require => File['/v'] }",
        "refused 40 at 23: File[/v]\n",
    ),
    (
        "class a { contain a } include a",
        "refused 41 at 0: start Class[a] -> start Class[a]\n",
    ),
    (
        "class a { require a } include a",
        "refused 41 at 0: start Class[a] -> end Class[a] -> start Class[a]\n",
    ),
    ("exec { ('ls'): }", "refused 50 at 8: Exec[ls]\n"),
    (
        "service { 's': enable => mask }",
        "refused 55 at 10: Service[s]\n",
    ),
];

#[test]
fn manifests_that_are_refused(rt: HostRuntime) -> Result<(), Fail> {
    all_told(rt.alloc(), &["site.pp"], 4, &REFUSED)
}

/// These bytes are refused with this line.
fn is_refused(alloc: Global, bytes: &[u8], line: &str) -> Result<(), Fail> {
    let told = run(alloc, &["site.pp"], bytes)?;
    compare(alloc, &told, 4, "", line, line)
}

/// Each row: bytes, and the line of their refusal.
fn all_refused(alloc: Global, rows: &[(&[u8], &str)]) -> Result<(), Fail> {
    for (bytes, line) in rows {
        is_refused(alloc, *bytes, *line)?;
    }
    Ok(())
}

#[test]
fn bytes_that_are_no_text(rt: HostRuntime) -> Result<(), Fail> {
    all_refused(
        rt.alloc(),
        &[
            (b"\xff", "refused 10 at 0: utf8\n"),
            (
                b"file { '/a': content => '\xff' }",
                "refused 10 at 25: utf8\n",
            ),
        ],
    )
}

/// Adds a file at the path of a number.
fn push_file(alloc: Global, manifest: &mut String, number: u64) -> Result<(), Fail> {
    let number = number_text(alloc, number)?;
    push_all(
        manifest,
        &[
            "file { '/f",
            number.as_str(),
            "': content => '",
            number.as_str(),
            "' }\n",
        ],
    )
}

/// So many files, each at a path of its own.
fn files_apart(alloc: Global, count: u32) -> Result<String, Fail> {
    let mut manifest = String::new(alloc);
    for i in 1..=count {
        push_file(alloc, &mut manifest, i as u64)?;
    }
    Ok(manifest)
}

/// What is told of so many files.
fn told_of_files(alloc: Global, words: &[&str], count: u32) -> Result<Told, Fail> {
    let manifest = files_apart(alloc, count)?;
    run(alloc, words, manifest.as_bytes())
}

/// So many files are told of so.
fn is_told_of_files(
    alloc: Global,
    words: &[&str],
    count: u32,
    status: u8,
    want: &str,
) -> Result<(), Fail> {
    let told = told_of_files(alloc, words, count)?;
    compare_told(alloc, &told, status, want, "many files")
}

/// Each row: words, how many files there are, and the status and what is told of them.
fn all_files(alloc: Global, rows: &[(&[&str], u32, u8, &str)]) -> Result<(), Fail> {
    for (words, count, status, want) in rows {
        is_told_of_files(alloc, *words, *count, *status, *want)?;
    }
    Ok(())
}

#[test]
fn many_files(rt: HostRuntime) -> Result<(), Fail> {
    all_files(
        rt.alloc(),
        &[
            (
                &["site.pp"],
                256,
                0,
                "resources 256\npruned 256\ndeterministic\nidempotent\nsucceeds from some tree\n",
            ),
            (&["site.pp"], 257, 4, "refused 32 at 0: resources\n"),
            (
                &["--limits", "host", "site.pp"],
                257,
                0,
                "resources 257\npruned 257\ndeterministic\nidempotent\nsucceeds from some tree\n",
            ),
            (
                &["--limits", "host", "site.pp"],
                1025,
                4,
                "refused 32 at 0: resources\n",
            ),
        ],
    )
}

/// What is told of so many blanks.
fn told_of_blanks(alloc: Global, count: usize) -> Result<Told, Fail> {
    let manifest = vec![in alloc; b' '; count]?;
    run(alloc, &["site.pp"], &manifest)
}

fn is_told_of_blanks(alloc: Global, count: usize, status: u8, want: &str) -> Result<(), Fail> {
    let told = told_of_blanks(alloc, count)?;
    compare_told(alloc, &told, status, want, "blanks")
}

/// Each row: how many blanks there are, and the status and what is told of them.
fn all_blanks(alloc: Global, rows: &[(usize, u8, &str)]) -> Result<(), Fail> {
    for (count, status, want) in rows {
        is_told_of_blanks(alloc, *count, *status, *want)?;
    }
    Ok(())
}

#[test]
fn a_manifest_at_its_limit(rt: HostRuntime) -> Result<(), Fail> {
    all_blanks(
        rt.alloc(),
        &[(262_144, 0, NONE), (262_145, 4, "refused 17 at 0: input\n")],
    )
}
