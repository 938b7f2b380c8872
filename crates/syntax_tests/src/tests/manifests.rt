//! Rows of manifests: each with its canonical text or the refusal.
use super::answers::{are_printed, is_printed_behind};
use std::test::Fail;

#[test]
fn manifests_have_their_items(rt: HostRuntime) -> Result<(), Fail> {
    are_printed(
        rt.alloc(),
        &[
            ("", ""),
            ("$a = 1 $b = 2", "$a = 1 $b = 2"),
            (
                r#"file{'/a':content=>"x${y}z",}"#,
                r#"file { '/a' : content => "${ 'x' }${ $y }${ 'z' }" }"#,
            ),
            (
                r#"file { '/a' : content => "${ 'x' }${ $y }${ 'z' }" }"#,
                r#"file { '/a' : content => "${ 'x' }${ $y }${ 'z' }" }"#,
            ),
            (
                "class empty { } include empty file { ['/a', '/b']: } File['/a'] -> Class['empty'] -> File['/b']",
                "class empty { } include ( 'empty' ) file { [ '/a' , '/b' ] : } File[ '/a' ] -> Class[ 'empty' ] -> File[ '/b' ]",
            ),
            (
                "class a inherits b { } class c($x, String[1] $y = 'z',) { file { $x: } }",
                "class a inherits b { } class c ( $x , String[ 1 ] $y = 'z' ) { file { $x : } }",
            ),
            ("class a() { } define b() { }", "class a { } define b { }"),
            (
                "define d(Variant[Integer[1, 3], Array[String], Enum['a', 'b']] $p) { fail('x') }",
                "define d ( Variant[ Integer[ 1 , 3 ] , Array[ String ] , Enum[ 'a' , 'b' ] ] $p ) { fail ( 'x' ) }",
            ),
            (
                "define d(Optional[Hash] $p, Any $q, Boolean $r, Array $s, Integer[2] $t, String[0] $u) { }",
                "define d ( Optional[ Hash ] $p , Any $q , Boolean $r , Array $s , Integer[ 2 ] $t , String $u ) { }",
            ),
            (
                "node 'a.b', c, default { notice 'x' }",
                "node 'a.b' , 'c' , default { notice ( 'x' ) }",
            ),
            (
                "File { mode => '0644' } file { '/a': content => 'x' }",
                "File { mode => '0644' } file { '/a' : content => 'x' }",
            ),
            ("Apache::Mod { if => 1, }", "Apache::Mod { if => 1 }"),
            ("class { 'a': } class a { }", "class { 'a' : } class a { }"),
            (
                "@file { '/v': content => 'x' } realize File['/v']",
                "@ file { '/v' : content => 'x' } realize ( File[ '/v' ] )",
            ),
            (
                "file { '/a': content => 'x'; '/b': }",
                "file { '/a' : content => 'x' ; '/b' : }",
            ),
        ],
    )
}

#[test]
fn manifests_that_are_refused(rt: HostRuntime) -> Result<(), Fail> {
    are_printed(
        rt.alloc(),
        &[
            ("file { '/a': content => 'x'", "12 at 27: syntax"),
            ("class a { class b { } }", "12 at 16: syntax"),
            ("define d(String $p $q) { }", "12 at 19: syntax"),
            ("define d(Text $p) { }", "12 at 9: syntax"),
            ("define d($a::b) { }", "12 at 9: syntax"),
            ("node { }", "12 at 5: syntax"),
            (r#"node "a${b}" { }"#, "12 at 5: syntax"),
            ("$x = 1.5", "14 at 5: 1.5"),
            ("$x = 09", "11 at 5: lexical"),
            ("$x = a.b [", "14 at 6: ."),
            ("$x = ) 1.5", "14 at 7: 1.5"),
            ("a 'b", "11 at 2: lexical"),
        ],
    )
}

const TOKENS_THAT_ARE_LEFT_OUT: [(&str, &str); 22] = [
    ("$x = a.b", "14 at 6: ."),
    ("$x = $y =~ 1", "14 at 8: =~"),
    ("$x = 1 / 2", "14 at 7: /"),
    ("$x = $y !~ 1", "14 at 8: !~"),
    ("$x = 7 % 2", "14 at 7: %"),
    ("$x = 1 << 2", "14 at 7: <<"),
    ("$x = 1 >> 2", "14 at 7: >>"),
    ("$x = @(END)", "14 at 5: @("),
    ("$x | 1", "14 at 3: |"),
    ("File <<| |>>", "14 at 5: <<|"),
    ("File['a'] { mode +> '1' }", "14 at 17: +>"),
    ("@@file { '/a': }", "14 at 0: @@"),
    ("file { '/a': * => $x }", "14 at 13: *"),
    ("$x = 2 * 3", "$x = 2 * 3"),
    ("$x = split ('a', 'b')", "14 at 5: split"),
    ("notice ('a')", "notice ( 'a' )"),
    ("class a ($b) { }", "class a ( $b ) { }"),
    ("define a($b) { }", "define a ( $b ) { }"),
    ("if ($a) { }", "if $a { }"),
    ("f(1) / 2", "14 at 0: f"),
    ("::include('a')", "14 at 0: ::include"),
    ("$x = ::fail ('a')", "14 at 5: ::fail"),
];

#[test]
fn tokens_that_are_left_out(rt: HostRuntime) -> Result<(), Fail> {
    are_printed(rt.alloc(), &TOKENS_THAT_ARE_LEFT_OUT)
}

/// A manifest that has every form of the grammar.
const EVERY_FORM: &str = r#"# Each rule of the grammar, as anyone may write it.
class a::b($p, Any $q = undef, Boolean $r = true, Hash $s = {}, Array $t = [],
    Array[Integer] $u, String $v, String[1] $w, String[1, 8] $x,) inherits c { $y = $p }
define d(Integer[1] $a, Integer[1, 3] $b, Optional[String] $c, Enum['e', 'f'] $d,
    Variant[Boolean, Hash] $e) { notice $a }
node 'n.example', n, default { include a }
File { owner => 'root', mode => '0644', }
@user { 'u': uid => 010; ['v', 'w']: ; }
class { 'a::b': p => 1, }
file { '/a': } -> File['/b'] ~> [File['/c'], File['/d']] <- Group <| |> <~ Exec['e', 'f']
User <| a == 1 and (b != 2 or c == $d) or e == f |>
include a require b contain c realize File['/a'], File['/b'] fail('x') notice "y" warning [$z]
if $a { } elsif $b { $c = 1 } else { unless $d { } else { $e = 2 } }
case $f { 1, 'g': { } default: { $h = 3 } } /* operators, the loosest first */
$i = $a or $b and $c < 1 == 2 + 3 * 4 in !-$d
$j = $a > 1 <= 2 >= 3 != 4 - 5
$k = ($a or $b)[0] ? { 1 => {l => [1, 'm'], 2 => true}, default => false, }
$n = "o${p}${q-r[0]}$s ${1 + 2}" $t = 'it\'s \\'"#;

/// Its canonical text, in pieces.
const CANONICAL: [&str; 14] = [
    "class a::b ( $p , Any $q = undef , Boolean $r = true , Hash $s = { } , Array $t = [ ] , Array[ Integer ] $u , String $v , String[ 1 ] $w , String[ 1 , 8 ] $x ) inherits c { $y = $p } ",
    "define d ( Integer[ 1 ] $a , Integer[ 1 , 3 ] $b , Optional[ String ] $c , Enum[ 'e' , 'f' ] $d , Variant[ Boolean , Hash ] $e ) { notice ( $a ) } ",
    "node 'n.example' , 'n' , default { include ( 'a' ) } ",
    "File { owner => 'root' , mode => '0644' } ",
    "@ user { 'u' : uid => 8 ; [ 'v' , 'w' ] : } ",
    "class { 'a::b' : p => 1 } ",
    "file { '/a' : } -> File[ '/b' ] ~> [ File[ '/c' ] , File[ '/d' ] ] <- Group <| |> <~ Exec[ 'e' , 'f' ] ",
    "User <| a == 1 and ( b != 2 or c == $d ) or e == 'f' |> ",
    "include ( 'a' ) require ( 'b' ) contain ( 'c' ) realize ( File[ '/a' ] , File[ '/b' ] ) fail ( 'x' ) notice ( 'y' ) warning ( [ $z ] ) ",
    "if $a { } elsif $b { $c = 1 } else { unless $d { } else { $e = 2 } } ",
    "case $f { 1 , 'g' : { } default : { $h = 3 } } ",
    "$i = $a or $b and $c < 1 == 2 + 3 * 4 in ! - $d $j = $a > 1 <= 2 >= 3 != 4 - 5 ",
    "$k = ( $a or $b )[ 0 ] ? { 1 => { 'l' => [ 1 , 'm' ] , 2 => true } , default => false } ",
    r#"$n = "${ 'o' }${ $p }${ q-r[ 0 ] }${ $s }${ ' ' }${ 1 + 2 }" $t = 'it\'s \\'"#,
];

#[test]
fn canonical_text_is_its_own(rt: HostRuntime) -> Result<(), Fail> {
    let text = CANONICAL.join(rt.alloc(), "")?;
    are_printed(
        rt.alloc(),
        &[(EVERY_FORM, text.as_str()), (text.as_str(), text.as_str())],
    )
}

#[test]
fn printing_appends(rt: HostRuntime) -> Result<(), Fail> {
    is_printed_behind(rt.alloc(), "# ", "$x=1", "# $x = 1")
}
