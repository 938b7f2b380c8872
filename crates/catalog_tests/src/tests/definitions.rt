//! Rows of classes, defined types, nodes and class data.
use super::answers::{are_compiled, compiled_under};
use std::alloc::Global;
use std::test::Fail;
use test_rows::same_of;

#[test]
fn classes_run_once(rt: HostRuntime) -> Result<(), Fail> {
    are_compiled(
        rt.alloc(),
        &[
            (
                "class c { file { '/c': } } include c include c",
                "Class[c]; File[/c]; 0<1 ",
            ),
            (
                "class c { file { '/c': } }\ninclude c\ninclude c\nclass { 'c': }",
                "24 at 55: Class[c]",
            ),
            (
                "class c($p = 'x') { file { '/f': content => $p } } class { 'c': p => 'w' }",
                "Class[c] p=w; File[/f] content=w; 0<1 ",
            ),
            (
                "class a { file { '/a': } } class b inherits a { file { '/b': } } include b",
                "Class[a]; File[/a]; Class[b]; File[/b]; 0<1 2<3 ",
            ),
            (
                "class a { $x = 'q' } class b inherits a { file { '/b': content => $x } } include b",
                "Class[a]; Class[b]; File[/b] content=q; 1<2 ",
            ),
            (
                "class a { } class b { contain a } include b",
                "Class[b]; Class[a]; 0<1 ",
            ),
            (
                "class a { } class b { require a } include b",
                "Class[b]; Class[a]; Class[a] -> Class[b] ",
            ),
            (
                "class empty { } include empty file { ['/a', '/b']: } File['/a'] -> Class['empty'] -> File['/b']",
                "Class[empty]; File[/a]; File[/b]; File[/a] -> Class[empty] Class[empty] -> File[/b] ",
            ),
        ],
    )
}

/// Texts, references to classes, and lists of these.
#[test]
fn classes_are_named(rt: HostRuntime) -> Result<(), Fail> {
    are_compiled(
        rt.alloc(),
        &[
            ("class c { } include Class['c']", "Class[c]; "),
            ("class c { } include '::C'", "Class[c]; "),
            ("class c { } include []", ""),
            (
                "class c { } class d { } include ['c', Class['d']]",
                "Class[c]; Class[d]; ",
            ),
            (
                "class c { } class d { } include c, ['d', 'c']",
                "Class[c]; Class[d]; ",
            ),
            ("class c { } contain c", "Class[c]; "),
            ("class c { } require c", "Class[c]; "),
            (
                "class a { $x = 'q' } class b inherits a { } include b file { '/f': content => $b::x }",
                "Class[a]; Class[b]; File[/f] content=q; ",
            ),
        ],
    )
}

/// A text, its facts, its node and its class data, and the catalog that it has, or the refusal.
type Row = (
    &'static str,
    &'static str,
    &'static str,
    &'static str,
    &'static str,
);

fn is_compiled_under(alloc: Global, row: &Row) -> Result<(), Fail> {
    let (text, facts, node, levels, want) = *row;
    let line = compiled_under(alloc, text, facts, node, levels)?;
    same_of(alloc, &[text, " ", facts, " ", node], line.as_str(), want)
}

/// Each row: a text, facts, a node, class data, and the catalog, or the refusal.
fn are_compiled_under(alloc: Global, rows: &[Row]) -> Result<(), Fail> {
    for row in rows {
        is_compiled_under(alloc, row)?;
    }
    Ok(())
}

/// A block for one node, and one for all others.
const TWO_NODES: &str =
    "$t = 'u' node 'A' { $x = $t file { '/a': content => $x } } node default { file { '/d': } }";

#[test]
fn nodes_have_their_block(rt: HostRuntime) -> Result<(), Fail> {
    are_compiled_under(
        rt.alloc(),
        &[
            (TWO_NODES, "{}", "a", "", "File[/a] content=u; "),
            (TWO_NODES, "{}", "A", "", "File[/a] content=u; "),
            (TWO_NODES, "{}", "b", "", "File[/d]; "),
            ("node 'a' { }", "{}", "b", "", "31 at 0: b"),
            ("node 'a' { } node 'a' { }", "{}", "b", "", "24 at 13: a"),
        ],
    )
}

/// A class with a default, that is included.
const INCLUDED: &str = "class c($p = 'x') { file { '/f': content => $p } } include c";

/// The same class, that is given a value.
const GIVEN: &str = "class c($p = 'x') { file { '/f': content => $p } } class { 'c': p => 'w' }";

/// Class data with a level for machines in production, and one for all.
const TWO_LEVELS: &str =
    "{\"levels\":[{\"when\":{\"env\":\"prod\"},\"values\":{\"c::p\":\"y\"}},{\"values\":{\"c::p\":\"z\"}}]}";

#[test]
fn class_data_give_parameters(rt: HostRuntime) -> Result<(), Fail> {
    are_compiled_under(
        rt.alloc(),
        &[
            (
                INCLUDED,
                "{\"env\":\"Prod\"}",
                "",
                TWO_LEVELS,
                "Class[c]; File[/f] content=y; 0<1 ",
            ),
            (
                INCLUDED,
                "{}",
                "",
                TWO_LEVELS,
                "Class[c]; File[/f] content=z; 0<1 ",
            ),
            (INCLUDED, "{}", "", "", "Class[c]; File[/f] content=x; 0<1 "),
            (
                GIVEN,
                "{\"env\":\"Prod\"}",
                "",
                TWO_LEVELS,
                "Class[c] p=w; File[/f] content=w; 0<1 ",
            ),
            (
                "class c(Integer $p) { }\ninclude c",
                "{}",
                "",
                "{\"levels\":[{\"values\":{\"c::p\":\"a\"}}]}",
                "27 at 24: p",
            ),
        ],
    )
}
