//! Rows of statements: each with its canonical text or the refusal.
use super::answers::are_printed;
use std::test::Fail;

#[test]
fn chains_have_their_operands(rt: HostRuntime) -> Result<(), Fail> {
    are_printed(
        rt.alloc(),
        &[
            ("file { '/a': }", "file { '/a' : }"),
            (
                "file { '/a': mode => '0644', if => 1, ; '/b': ; }",
                "file { '/a' : mode => '0644' , if => 1 ; '/b' : }",
            ),
            ("file { ['/a', '/b']: }", "file { [ '/a' , '/b' ] : }"),
            ("@user { 'u': }", "@ user { 'u' : }"),
            ("class { 'ntp': }", "class { 'ntp' : }"),
            ("::class { 'ntp': }", "::class { 'ntp' : }"),
            ("@::class { 'ntp': }", "@ ::class { 'ntp' : }"),
            ("::include { 'a': }", "::include { 'a' : }"),
            ("File <| |>", "File <| |>"),
            (
                "User <| (a == 1 or b != 2) and c == $x[0] |>",
                "User <| ( a == 1 or b != 2 ) and c == $x[ 0 ] |>",
            ),
            (
                "File <| a == 1 or (b == 2 and c == 3) |>",
                "File <| a == 1 or b == 2 and c == 3 |>",
            ),
            (
                "File <| (a == 1 or b == 2) or c == (3 + 1) |>",
                "File <| ( a == 1 or b == 2 ) or c == ( 3 + 1 ) |>",
            ),
            (
                "File['a'] -> File['b', 'c'] ~> [File['d'], File['e'],] <- file { 'f': } <~ File['g']",
                "File[ 'a' ] -> File[ 'b' , 'c' ] ~> [ File[ 'd' ] , File[ 'e' ] ] <- file { 'f' : } <~ File[ 'g' ]",
            ),
            ("[File['a']] -> File <| |>", "File[ 'a' ] -> File <| |>"),
        ],
    )
}

#[test]
fn statements_have_their_parts(rt: HostRuntime) -> Result<(), Fail> {
    are_printed(
        rt.alloc(),
        &[
            ("$x = 1 + 2 $y = 3", "$x = 1 + 2 $y = 3"),
            ("notice 'a', $b", "notice ( 'a' , $b )"),
            ("notice('a', $b,)", "notice ( 'a' , $b )"),
            ("warning ('a') -1", "12 at 14: syntax"),
            ("include a include b", "include ( 'a' ) include ( 'b' )"),
            ("require ::a", "require ( '::a' )"),
            ("contain [a]", "contain ( [ 'a' ] )"),
            (
                "realize File['/v'], User[u]",
                "realize ( File[ '/v' ] , User[ 'u' ] )",
            ),
            (
                "if $x { include a } elsif $y { } elsif $z { } else { fail 'b' fail 'c' }",
                "if $x { include ( 'a' ) } elsif $y { } elsif $z { } else { fail ( 'b' ) fail ( 'c' ) }",
            ),
            ("if $x { } else { }", "if $x { }"),
            ("if ($x) { } include b", "if $x { } include ( 'b' )"),
            (
                "unless $x { include a } else { include b }",
                "unless $x { include ( 'a' ) } else { include ( 'b' ) }",
            ),
            ("unless true { }", "unless true { }"),
            (
                "case $x { 1, 'a': { } default: { include a } }",
                "case $x { 1 , 'a' : { } default : { include ( 'a' ) } }",
            ),
            (
                "case $x { 'a', default, : { } }",
                "case $x { 'a' , default : { } }",
            ),
            ("case $x { }", "case $x { }"),
        ],
    )
}

#[test]
fn other_tokens_begin_no_statement(rt: HostRuntime) -> Result<(), Fail> {
    are_printed(
        rt.alloc(),
        &[
            ("File['a']", "12 at 9: syntax"),
            ("[File['a']]", "12 at 11: syntax"),
            ("@class { 'a': }", "12 at 1: syntax"),
            ("@include { 'a': }", "12 at 1: syntax"),
            ("file { }", "12 at 7: syntax"),
            ("file { default: mode => 1 }", "12 at 7: syntax"),
            ("file { 'a': mode => 1 mode => 2 }", "12 at 22: syntax"),
            ("file { 'a': a::b => 1 }", "12 at 12: syntax"),
            ("File <| a == 1 and |>", "12 at 19: syntax"),
            ("$a::b = 1", "12 at 0: syntax"),
            ("notice 'a',", "12 at 11: syntax"),
            ("notice()", "12 at 7: syntax"),
            ("notice { 'a' => 1 }", "12 at 7: syntax"),
            ("fail {}", "12 at 5: syntax"),
            ("else { }", "12 at 0: syntax"),
            ("case $x { : { } }", "12 at 10: syntax"),
        ],
    )
}
