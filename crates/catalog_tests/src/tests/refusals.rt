//! Rows of refusals, one or more for each cause.
use super::answers::{are_compiled, are_compiled_with};
use std::test::Fail;

/// Variables that are bound nowhere, or again.
#[test]
fn variables_that_are_refused(rt: HostRuntime) -> Result<(), Fail> {
    are_compiled(
        rt.alloc(),
        &[
            ("file { '/a': content => $x }", "20 at 24: $x"),
            // the top's alone
            ("class c { $x = 1 $y = $::x } include c", "20 at 22: $::x"),
            // of a class that isn't declared
            ("class a { $x = 1 } $y = $a::x", "20 at 24: $a::x"),
            ("class a { $x = 1 } include a $y = $a::z", "20 at 34: $a::z"),
            // a class has a scope of its own
            ("class a { $x = 1 } include a $y = $x", "20 at 34: $x"),
            ("$x = \"a$z\"", "20 at 7: $z"),
            ("$x = \"a${z}\"", "20 at 9: $z"),
            ("class c($p = $z) { } include c", "20 at 13: $z"),
            ("$a = 1 $a = 2", "21 at 7: $a"),
            ("$facts = 1", "21 at 0: $facts"),
            ("class c { $title = 1 } include c", "21 at 10: $title"),
            ("class c($p = 1) { $p = 2 } include c", "21 at 18: $p"),
            // of a parameter at the resource, or at the call
            (
                "class c($title) { } class { 'c': title => 'x' }",
                "21 at 28: $title",
            ),
            ("class c($name = 1) { } include c", "21 at 23: $name"),
            ("define d($p, $p = 1) { } d { 'a': p => 1 }", "21 at 29: $p"),
        ],
    )
}

#[test]
fn classes_that_there_are_none_of(rt: HostRuntime) -> Result<(), Fail> {
    are_compiled(
        rt.alloc(),
        &[
            ("$x = 1 include z", "22 at 7: z"),
            ("include '::Z'", "22 at 0: z"),
            ("contain z", "22 at 0: z"),
            ("require z", "22 at 0: z"),
            ("include ''", "22 at 0: "),
            ("class c { } include c, z", "22 at 12: z"),
            ("include Class['z']", "22 at 0: z"),
            ("class { 'z': }", "22 at 8: z"),
            ("class { '::Z': }", "22 at 8: z"),
            ("$x = 1 class c inherits z { } include c", "22 at 7: z"),
        ],
    )
}

#[test]
fn types_that_there_are_none_of(rt: HostRuntime) -> Result<(), Fail> {
    are_compiled(
        rt.alloc(),
        &[
            ("$x = 1 fyle { 'a': }", "23 at 7: fyle"),
            ("::fyle { 'a': }", "23 at 0: fyle"),
            ("@fyle { 'a': }", "23 at 0: fyle"),
            // of an operand of a chain at the operand
            ("file { '/a': } -> fyle { 'b': }", "23 at 18: fyle"),
            ("file { '/a': } -> @fyle { 'b': }", "23 at 18: fyle"),
            ("file { '/a': } -> Fyle <| |>", "23 at 18: fyle"),
            ("Fyle <| |>", "23 at 0: fyle"),
            ("Fyle { mode => '1' }", "23 at 0: fyle"),
            ("Class <| |>", "23 at 0: class"),
            ("Class { mode => '1' }", "23 at 0: class"),
            // no class is declared so, and no function called
            ("::class { 'a': }", "23 at 0: class"),
            ("::include { 'a': }", "23 at 0: include"),
            // ahead of the title
            ("fyle { $z: }", "23 at 0: fyle"),
        ],
    )
}

#[test]
fn definitions_that_stand_twice(rt: HostRuntime) -> Result<(), Fail> {
    are_compiled(
        rt.alloc(),
        &[
            ("class c { } class c { }", "24 at 12: c"),
            ("class c { } define c() { }", "24 at 12: c"),
            ("define c() { } class c { }", "24 at 15: c"),
            ("define d() { } define d() { }", "24 at 15: d"),
            ("class ::a { } class a { }", "24 at 14: a"),
            ("class a { } class ::a { }", "24 at 12: a"),
            ("$x = 1 define file() { }", "24 at 7: file"),
            ("$x = 1 define exec() { }", "24 at 7: exec"),
            ("$x = 1 define ::class() { }", "24 at 7: class"),
            // a node's name as it is spelled
            ("node 'A' { } node 'a' { }", "24 at 13: a"),
            ("node a { } node 'A' { }", "24 at 11: A"),
            ("node default { } node default { }", "24 at 17: default"),
            ("$x = 1 node 'a', 'A' { }", "24 at 7: A"),
            // item by item, ahead of the node that is missing, and of all statements
            (
                "class c { } class c { } node 'a' { } node 'a' { }",
                "24 at 12: c",
            ),
            ("$x = $z class c { } class c { }", "24 at 20: c"),
        ],
    )
}

#[test]
fn resources_and_attributes_that_stand_twice(rt: HostRuntime) -> Result<(), Fail> {
    are_compiled(
        rt.alloc(),
        &[
            ("file { '/a': } file { '/a': }", "24 at 22: File[/a]"),
            ("file { '/a': ; '/a': }", "24 at 15: File[/a]"),
            ("file { ['/a', '/a']: }", "24 at 7: File[/a]"),
            ("class c { } include c class { 'c': }", "24 at 30: Class[c]"),
            ("class c { } class { ['c', 'c']: }", "24 at 20: Class[c]"),
            // a parent's body has declared it
            (
                "class p { include c } class c inherits p { } include c",
                "24 at 45: Class[c]",
            ),
            ("file { '/a': mode => '1', mode => '2' }", "24 at 26: mode"),
            // also where a value was undef
            (
                "file { '/a': mode => undef, mode => '1' }",
                "24 at 28: mode",
            ),
            ("File { mode => undef, mode => '1' }", "24 at 22: mode"),
            (
                "File { mode => '1' } File { mode => '2' }",
                "24 at 28: mode",
            ),
            // behind the refusals of the value, ahead of its kind
            ("file { '/a': mode => '1', mode => $z }", "20 at 34: $z"),
            (
                "file { '/a': require => File['/b'], require => 1 }",
                "24 at 36: require",
            ),
        ],
    )
}

/// Parameters without a value, that there are none of, and of another type.
#[test]
fn parameters_that_are_refused(rt: HostRuntime) -> Result<(), Fail> {
    are_compiled(
        rt.alloc(),
        &[
            ("class c($p) { } include c", "25 at 16: p"),
            ("class c($p) { } class { 'c': }", "25 at 24: p"),
            ("class c($p) { } class { 'c': p => undef }", "25 at 24: p"),
            ("define d($p) { } d { 'a': }", "25 at 21: p"),
            // of a parent at what inherits it; it is given nothing
            (
                "class p($q) { } class c inherits p { } include c",
                "25 at 39: q",
            ),
            (
                "class p($q) { } class c inherits p { } class { 'c': q => 1 }",
                "25 at 47: q",
            ),
            ("class c { } class { 'c': q => 1 }", "26 at 20: q"),
            ("define d() { } d { 'a': q => 1 }", "26 at 19: q"),
            ("define d() { } D { q => 1 } d { 'a': }", "26 at 32: q"),
            // ahead of all parameters
            ("class c($p) { } class { 'c': q => 1 }", "26 at 24: q"),
            (
                "class c(Integer $p) { } class { 'c': p => 'a' }",
                "27 at 32: p",
            ),
            ("class c(Integer $p = 'a') { } include c", "27 at 30: p"),
            (
                "define d(Integer $p) { } d { 'a': p => 'x' }",
                "27 at 29: p",
            ),
            // in the order of the parameters
            (
                "class c(Integer $p, $q) { } class { 'c': p => 'a' }",
                "27 at 36: p",
            ),
            // only where a body runs
            ("define d() { } @d { 'a': q => 1 }", "@D[a] q=1; "),
            (
                "class c { } class { 'c': loglevel => 'debug' }",
                "Class[c] loglevel=debug; ",
            ),
        ],
    )
}

/// Titles, relations and arguments of another kind.
#[test]
fn values_of_another_kind_are_refused(rt: HostRuntime) -> Result<(), Fail> {
    are_compiled(
        rt.alloc(),
        &[
            ("file { '': }", "29 at 7: operand"),
            ("file { (''): }", "29 at 8: operand"),
            ("file { 1: }", "29 at 7: operand"),
            ("file { undef: }", "29 at 7: operand"),
            ("file { ['/a', '']: }", "29 at 7: operand"),
            ("file { [['/a']]: }", "29 at 7: operand"),
            ("file { '': mode => $z }", "29 at 7: operand"),
            ("class { 1: }", "29 at 8: operand"),
            ("file { '/a': require => 'x' }", "29 at 24: operand"),
            (
                "file { '/a': before => [File['/b'], 'c'] }",
                "29 at 23: operand",
            ),
            ("File { notify => 'x' }", "29 at 17: operand"),
            ("include(1)", "29 at 8: operand"),
            ("contain true", "29 at 8: operand"),
            ("require undef", "29 at 8: operand"),
            ("include File['/a']", "29 at 8: operand"),
            ("class c { } include [['c']]", "29 at 20: operand"),
            // all of an argument, ahead of its classes
            ("include ['z', 1]", "29 at 8: operand"),
            ("realize 'x'", "29 at 8: operand"),
            ("realize(File['/a'], 1)", "29 at 20: operand"),
        ],
    )
}

/// Selectors, failures, nodes, numbers, circles of classes, and what is realized.
#[test]
fn other_causes_are_refused(rt: HostRuntime) -> Result<(), Fail> {
    are_compiled(
        rt.alloc(),
        &[
            ("file { '/a': content => 'x'", "12 at 27: syntax"),
            (
                "file { '/a': content => 'a' ? { 'b' => 1 } }",
                "28 at 24: selector",
            ),
            ("$x = 1 fail('a', 1)", "30 at 7: a 1"),
            (
                "fail([1, 'b'], File['/a'], undef)",
                "30 at 0: [1, b] File[/a] ",
            ),
            ("class c { fail 'x' } include c", "30 at 10: x"),
            ("$x = $z node 'a' { }", "31 at 0: "),
            ("$x = 9223372036854775807 + 1", "33 at 5: integer"),
            ("$x = 1 class a inherits a { } include a", "34 at 7: a"),
            (
                "$x = 1 class a inherits b { } class b inherits a { } include a",
                "34 at 7: a",
            ),
            (
                "class b inherits c { } class c inherits b { } class ::a inherits b { } include a",
                "34 at 46: a",
            ),
            ("$x = 1 class a inherits a { } class { 'a': }", "34 at 7: a"),
            ("$x = 1 realize(File['/v'])", "40 at 7: File[/v]"),
            (
                "file { '/a': } realize(File['/a', '/b'])",
                "40 at 15: File[/b]",
            ),
            (
                "class c { realize File['/v'] } include c",
                "40 at 10: File[/v]",
            ),
            ("realize(Class['c'])", "40 at 0: Class[c]"),
        ],
    )
}

/// Opaque values, beside a fact whose number is no whole one.
#[test]
fn opaque_values_are_refused(rt: HostRuntime) -> Result<(), Fail> {
    are_compiled_with(
        rt.alloc(),
        "{\"load\":0.5}",
        &[
            ("file { '/a': mode => $load }", "29 at 21: operand"),
            ("file { '/a': mode => [1, $load] }", "29 at 21: operand"),
            ("File { mode => $load }", "29 at 15: operand"),
            (
                "class c(String $p) { } class { 'c': p => $load }",
                "29 at 41: operand",
            ),
            ("File <| mode == $load |>", "29 at 16: operand"),
            ("File <| mode != [$load] |>", "29 at 16: operand"),
            ("fail($load)", "29 at 5: operand"),
            ("fail('a', [$load])", "29 at 10: operand"),
            ("if $load { }", "29 at 3: operand"),
            ("if false { } elsif $load { }", "29 at 19: operand"),
            ("unless $load { }", "29 at 7: operand"),
            ("case $load { 1: { } }", "29 at 5: operand"),
            ("case [$load] { 1: { } }", "29 at 5: operand"),
            ("case 1 { $load: { } }", "29 at 9: operand"),
            ("case 2 { 1, [$load]: { } }", "29 at 12: operand"),
            // it isn't compared
            ("case $load { default: { file { '/d': } } }", "File[/d]; "),
            ("case 1 { 1: { file { '/a': } } $load: { } }", "File[/a]; "),
            // these take any value
            ("notice $load", ""),
            ("warning([$load], 1)", ""),
        ],
    )
}
