//! Rows of expressions: each an assignment to `$r`, and its value or refusal.
use super::answers::{are_assigned, are_assigned_under};
use std::test::Fail;

#[test]
fn members_and_orders_go_by_their_tables(rt: HostRuntime) -> Result<(), Fail> {
    are_assigned(
        rt.alloc(),
        &[
            ("$r = 'bc' in 'aBCd'", "truth true"),
            ("$r = 'bd' in 'aBCd'", "truth false"),
            ("$r = '' in ''", "truth true"),
            ("$r = '' in 'a'", "truth true"),
            ("$r = 'ab' in 'a'", "truth false"),
            ("$r = 'AAB' in 'aaaaaba'", "truth true"),
            ("$r = 'aba' in 'abbaab'", "truth false"),
            ("$r = 'K' in {'k' => undef}", "truth true"),
            ("$r = 'B' in ['a', 'b']", "truth true"),
            ("$r = [1] in [[1], 2]", "truth true"),
            ("$r = 'a' in 1", "29 at 5: operand"),
            ("$r = 1 < 2", "truth true"),
            ("$r = 'a' < 'B'", "truth true"),
            ("$r = 'a' <= 'A'", "truth true"),
            ("$r = 'b' > 'A'", "truth true"),
            ("$r = 'ab' < 'a'", "truth false"),
            ("$r = 1 < 'a'", "29 at 5: operand"),
        ],
    )
}

#[test]
fn values_are_equal_or_have_a_sum(rt: HostRuntime) -> Result<(), Fail> {
    are_assigned(
        rt.alloc(),
        &[
            ("$r = 'b' == 'B'", "truth true"),
            ("$r = [1, 'a'] == [1, 'A']", "truth true"),
            (
                "$r = {'a' => 1, 'b' => 2} == {'b' => 2, 'a' => 1}",
                "truth true",
            ),
            ("$r = {'a' => 1} == {'A' => 1}", "truth false"),
            ("$r = {'a' => 'x'} == {'a' => 'X'}", "truth true"),
            ("$r = File['/a'] == File['/A']", "truth false"),
            ("$r = 1 != '1'", "truth true"),
            ("$r = 1 + 'a'", "29 at 5: operand"),
            ("$r = (1) + 'a'", "29 at 5: operand"),
            ("$r = [1, 2] + [1, 2]", "list [1, 2, 1, 2]"),
            ("$a = [1] $b = $a + [2] $r = $a", "list [1]"),
            ("$a = [1] $b = $a + [2] $r = $a + $b", "list [1, 1, 2]"),
            (
                "$r = {'a' => 1, 'b' => true} + {'a' => 3, 'c' => undef}",
                "map {a => 3, b => true, c => }",
            ),
            ("$r = [1] + {'a' => 1}", "29 at 5: operand"),
            ("$r = 7 - 2 * 3", "number 1"),
            ("$r = -(2)", "number -2"),
            ("$r = 9223372036854775807 + 1", "33 at 5: integer"),
            (
                "$m = -9223372036854775807 - 1 $r = -1 - $m",
                "number 9223372036854775807",
            ),
            (
                "$m = -9223372036854775807 - 1 $r = -$m",
                "33 at 35: integer",
            ),
            (
                "$m = -9223372036854775807 - 1 $r = 0 - $m",
                "33 at 35: integer",
            ),
            ("$r = 4294967296 * 2147483648", "33 at 5: integer"),
        ],
    )
}

/// Operations that have no result for these operands.
#[test]
fn other_operands_are_refused(rt: HostRuntime) -> Result<(), Fail> {
    are_assigned(
        rt.alloc(),
        &[
            ("$r = 'a' - 1", "29 at 5: operand"),
            ("$r = [] * 2", "29 at 5: operand"),
            ("$r = -'a'", "29 at 5: operand"),
            ("$r = true < false", "29 at 5: operand"),
            ("$r = 1 >= undef", "29 at 5: operand"),
            ("$r = 1 in '1'", "29 at 5: operand"),
            ("$r = 1 in {'a' => 1}", "29 at 5: operand"),
            ("$r = 'a' in undef", "29 at 5: operand"),
            ("$r = $load in [1]", "29 at 5: operand"),
            ("$r = 1 in [[$load]]", "29 at 5: operand"),
            ("$r = 1 == [$load]", "29 at 5: operand"),
            ("$r = {'a' => $load} != 1", "29 at 5: operand"),
            ("$r = [1]['a']", "29 at 5: operand"),
            ("$r = (undef)[0]", "29 at 5: operand"),
            ("$r = File['/a'][0]", "29 at 5: operand"),
        ],
    )
}

#[test]
fn truths_are_asked_from_the_left(rt: HostRuntime) -> Result<(), Fail> {
    are_assigned(
        rt.alloc(),
        &[
            ("$r = false and $z", "truth false"),
            ("$r = true and $z", "20 at 14: $z"),
            ("$r = true or $z", "truth true"),
            ("$r = false or $z", "20 at 14: $z"),
            ("$r = '' and undef", "truth false"),
            ("$r = $load and true", "29 at 5: operand"),
            ("$r = true and $load", "29 at 5: operand"),
            ("$r = false or $load", "29 at 5: operand"),
            ("$r = $load == 1", "29 at 5: operand"),
            ("$r = $load + 1", "29 at 5: operand"),
            ("$r = !''", "truth false"),
            ("$r = !undef", "truth true"),
            ("$r = !$load", "29 at 5: operand"),
            ("$r = !(-(1) == -1)", "truth false"),
        ],
    )
}

#[test]
fn members_are_found(rt: HostRuntime) -> Result<(), Fail> {
    are_assigned(
        rt.alloc(),
        &[
            ("$r = $z", "20 at 5: $z"),
            ("$r = [1, 2][-1]", "number 2"),
            ("$r = [1, 2][0]", "number 1"),
            ("$r = [1][5]", "undef "),
            ("$r = [1][-2]", "undef "),
            ("$m = {'a' => 1} $r = $m['a']", "number 1"),
            ("$m = {'a' => 1} $r = $m['A']", "undef "),
            ("$m = {'a' => 1} $r = $m[0]", "29 at 21: operand"),
            ("$r = 'abc'[0]", "29 at 5: operand"),
            ("$r = $facts['os']['family']", "text Debian"),
            ("$r = $os['family']", "text Debian"),
            ("$r = $os['name']", "undef "),
            ("$r = $os['name']['x']", "29 at 5: operand"),
            ("$r = $os['name'][$z]", "20 at 17: $z"),
            ("$r = $os[$z]", "20 at 9: $z"),
            ("$r = $z[$y]", "20 at 5: $z"),
            ("$r = $facts['load']", "opaque"),
        ],
    )
}

#[test]
fn the_first_equal_option_is_chosen(rt: HostRuntime) -> Result<(), Fail> {
    are_assigned(
        rt.alloc(),
        &[
            ("$r = 'b' ? { default => 1, 'B' => 2 }", "number 2"),
            ("$r = 'c' ? { default => 1, 'B' => 2 }", "number 1"),
            ("$r = 'a' ? { 'b' => 1 }", "28 at 5: selector"),
            ("$r = 'a' ? { 'a' => 1, $z => $z }", "number 1"),
            ("$r = 'a' ? { $z => 1, default => 2 }", "20 at 13: $z"),
            (
                "$r = 'a' ? { 'b' => 1, default => 'a' ? { 'b' => 1 } }",
                "28 at 34: selector",
            ),
            ("$r = $load ? { default => 2 }", "number 2"),
            (
                "$r = $load ? { 'a' => 1, default => 2 }",
                "29 at 5: operand",
            ),
            (
                "$r = 'a' ? { $load => 1, default => 2 }",
                "29 at 5: operand",
            ),
            ("$r = 'a' ? { 'a' => 1, $load => 2 }", "number 1"),
        ],
    )
}

#[test]
fn texts_maps_and_references_are_made(rt: HostRuntime) -> Result<(), Fail> {
    are_assigned(
        rt.alloc(),
        &[
            ("$r = \"a${[1, 'b']}\"", "text a[1, b]"),
            ("$r = \"${1}${undef}${true}\"", "text 1true"),
            ("$r = \"${1}${-20}\"", "text 1-20"),
            ("$r = \"${1}${load}\"", "29 at 12: operand"),
            ("$r = \"a${load}${z}\"", "29 at 9: operand"),
            ("$r = {1 => 'a', '1' => 'b'}", "map {1 => b}"),
            (
                "$r = {'a' => 1, 'b' => 2, 'a' => 3}",
                "map {a => 3, b => 2}",
            ),
            ("$r = {true => $z}", "29 at 6: operand"),
            ("$r = {$z => true}", "20 at 6: $z"),
            ("$r = File['/A']", "reference File[/A]"),
            ("$r = Class['::Base']", "reference Class[base]"),
            ("$r = Web::Vhost['x']", "reference Web::Vhost[x]"),
            ("$r = File[['/a', '/b']]", "list [File[/a], File[/b]]"),
            ("$r = File['/a', ['/b']]", "list [File[/a], File[/b]]"),
            ("$r = File[[]]", "list []"),
            ("$r = File[1]", "29 at 10: operand"),
            ("$r = File[['/a', 1], $z]", "29 at 10: operand"),
            ("$x = 1 $x = 2", "21 at 7: $x"),
        ],
    )
}

#[test]
fn facts_are_values(rt: HostRuntime) -> Result<(), Fail> {
    are_assigned_under(
        rt.alloc(),
        &[
            ("{\"x\": 1}", "$r = $::x", "number 1"),
            (
                "{\"b\": [1, true, null], \"a\": {\"c\": \"x\"}}",
                "$r = $facts",
                "map {a => {c => x}, b => [1, true, ]}",
            ),
            ("{\"facts\": 3}", "$r = $facts", "map {facts => 3}"),
            ("{\"a-b\": 2}", "$r = $facts['a-b']", "number 2"),
            ("{\"n\": 9223372036854775808}", "$r = $n", "opaque"),
            (
                "{\"n\": -9223372036854775808}",
                "$r = $n",
                "number -9223372036854775808",
            ),
            ("{\"n\": 1.0}", "$r = $n", "opaque"),
            ("{\"A\": 1}", "$r = $facts['A']", "number 1"),
        ],
    )
}
