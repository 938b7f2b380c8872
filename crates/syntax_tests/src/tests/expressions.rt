//! Rows of expressions: each as the value of a variable, and its canonical text or the refusal.
use super::answers::are_printed;
use std::test::Fail;

#[test]
fn tokens_have_their_values(rt: HostRuntime) -> Result<(), Fail> {
    are_printed(
        rt.alloc(),
        &[
            ("$x = 10", "$x = 10"),
            ("$x = 010", "$x = 8"),
            ("$x = 0x1F", "$x = 31"),
            ("$x = 0X1f", "$x = 31"),
            ("$x = 9223372036854775807", "$x = 9223372036854775807"),
            ("$x = 9223372036854775808", "11 at 5: lexical"),
            ("$x = true", "$x = true"),
            ("$x = undef", "$x = undef"),
            ("$x = a::b-c", "$x = 'a::b-c'"),
            ("$x = $::a::b", "$x = $::a::b"),
            (r#"$x = 'a\'b\\c\n'"#, r#"$x = 'a\'b\c\n'"#),
            (r#"$x = "a\u{e9}\u0041\s\q""#, r#"$x = 'aéA \q'"#),
            (r#"$x = "it's""#, r#"$x = 'it\'s'"#),
            (r#"$x = """#, "$x = ''"),
            (r#"$x = 'a\\'"#, r#"$x = 'a\\'"#),
            (r#"$x = "a\\\\b""#, r#"$x = 'a\\\b'"#),
            (r#"$x = "a\\'""#, r#"$x = 'a\\\''"#),
            (r#"$x = "a\\n""#, r#"$x = 'a\n'"#),
        ],
    )
}

#[test]
fn operators_have_levels(rt: HostRuntime) -> Result<(), Fail> {
    are_printed(
        rt.alloc(),
        &[
            ("$x = 1 + 2 * 3", "$x = 1 + 2 * 3"),
            ("$x = 1 + (2 * 3)", "$x = 1 + 2 * 3"),
            ("$x = (1 + 2) * 3", "$x = ( 1 + 2 ) * 3"),
            ("$x = (1 * 2) + 3", "$x = 1 * 2 + 3"),
            ("$x = (1 + 2) + 3", "$x = ( 1 + 2 ) + 3"),
            ("$x = 1 - (2 - 3)", "$x = 1 - ( 2 - 3 )"),
            ("$x = 1 - 2 + 3", "$x = 1 - 2 + 3"),
            (
                "$x = ((((((!$a) in $b) * 2) + 1) == 3) < $c) and $d or $e",
                "$x = ! $a in $b * 2 + 1 == 3 < $c and $d or $e",
            ),
            (
                "$x = !($a in ($b * ($c + ($d == ($e < ($f and ($g or $h)))))))",
                "$x = ! ( $a in ( $b * ( $c + ( $d == ( $e < ( $f and ( $g or $h ) ) ) ) ) ) )",
            ),
            ("$x = $a > 1", "$x = $a > 1"),
            ("$x = $a <= 1 >= 2", "$x = $a <= 1 >= 2"),
            ("$x = $a != 1", "$x = $a != 1"),
            ("$x = -$y - -1", "$x = - $y - - 1"),
            ("$x = !-!$y", "$x = ! - ! $y"),
            ("$x = !(!$y)", "$x = ! ( ! $y )"),
        ],
    )
}

#[test]
fn operands_have_their_brackets(rt: HostRuntime) -> Result<(), Fail> {
    are_printed(
        rt.alloc(),
        &[
            ("$x = [1, [], [2,],]", "$x = [ 1 , [ ] , [ 2 ] ]"),
            ("$x = {a => 1, 'b' => {}, if($y) => 2}", "12 at 25: syntax"),
            (
                "$x = {a => 1, 'b' => {}, 3 => $y,}",
                "$x = { 'a' => 1 , 'b' => { } , 3 => $y }",
            ),
            ("$x = $y[0]['a'][b]", "$x = $y[ 0 ][ 'a' ][ 'b' ]"),
            ("$x = (1)[0][2]", "$x = ( 1 )[ 0 ][ 2 ]"),
            ("$x = [1][0]", "$x = [ 1 ][ 0 ]"),
            ("$x = ({})[0]", "$x = ( { } )[ 0 ]"),
            ("$x = (-$y)[0]", "$x = ( - $y )[ 0 ]"),
            ("$x = -$y[0]", "$x = - $y[ 0 ]"),
            ("$x = File['/a', $b,]", "$x = File[ '/a' , $b ]"),
            ("$x = File['/a'][0]", "$x = File[ '/a' ][ 0 ]"),
            (
                "$x = $y ? { 1 => a, default => b, } ? { 2 => $z }",
                "$x = $y ? { 1 => 'a' , default => 'b' } ? { 2 => $z }",
            ),
            ("$x = ($y ? { 1 => 2 })[0]", "$x = ( $y ? { 1 => 2 } )[ 0 ]"),
            ("$x = File[]", "12 at 10: syntax"),
            ("$x = $y [0]", "12 at 9: syntax"),
        ],
    )
}

#[test]
fn members_stand_in_holes(rt: HostRuntime) -> Result<(), Fail> {
    are_printed(
        rt.alloc(),
        &[
            (r#"$x = "$y""#, r#"$x = "${ $y }""#),
            (r#"$x = "x${y}z""#, r#"$x = "${ 'x' }${ $y }${ 'z' }""#),
            (r#"$x = "${a::b}""#, r#"$x = "${ $a::b }""#),
            (r#"$x = "${a-b}""#, r#"$x = "${ a-b }""#),
            (r#"$x = "${a-b[0]['k']}""#, r#"$x = "${ a-b[ 0 ][ 'k' ] }""#),
            (r#"$x = "${a[0][b]}""#, r#"$x = "${ $a[ 0 ][ 'b' ] }""#),
            (r#"$x = "${(a)}""#, r#"$x = "${ 'a' }""#),
            (r#"$x = "${'a'}""#, r#"$x = "${ 'a' }""#),
            (r#"$x = "${a + 1}""#, r#"$x = "${ 'a' + 1 }""#),
            (
                r#"$x = "${a ? { 1 => 2 }}""#,
                r#"$x = "${ 'a' ? { 1 => 2 } }""#,
            ),
            (
                r#"$x = "$a $ ${"$b"}""#,
                r#"$x = "${ $a }${ ' $ ' }${ "${ $b }" }""#,
            ),
            (r#"$x = "${}""#, "12 at 8: syntax"),
        ],
    )
}
