//! Rows of tokens, and of texts that spell none.
use super::answers::{are_tokens, is_told};
use std::test::Fail;

#[test]
fn tokens_of_each_kind(rt: HostRuntime) -> Result<(), Fail> {
    are_tokens(
        rt.alloc(),
        &[
            ("", ""),
            (" \t\r\n# to the end", ""),
            // only a line feed ends a comment
            ("# a\rb\nc", "6:Word(c) "),
            ("a /* * / */ b", "0:Word(a) 12:Word(b) "),
            (
                "ntp::x-y File::A $a::b if",
                "0:Word(ntp::x-y) 9:Ref(File::A) 17:Var($a::b) 23:Keyword(if) ",
            ),
            (
                "::class ::A class a- _",
                "0:Word(::class) 8:Ref(::A) 12:Keyword(class) 18:Word(a) 19:Sign(-) 21:Word(_) ",
            ),
            (
                "0 10 017 0x1F 1.5",
                "0:Int(0) 2:Int(10) 5:Int(017) 9:Int(0x1F) 14:Float(1.5) ",
            ),
            ("'it\\'s' 'a\\\\'", "0:Sq('it\\'s') 8:Sq('a\\\\') "),
            (
                "a[0] [b] $x[1] 'q'[2] (3)[4] [5][6]",
                "0:Word(a) 1:Tight([) 2:Int(0) 3:Sign(]) 5:Loose([) 6:Word(b) 7:Sign(]) 9:Var($x) 11:Tight([) 12:Int(1) 13:Sign(]) 15:Sq('q') 18:Tight([) 19:Int(2) 20:Sign(]) 22:Sign(() 23:Int(3) 24:Sign()) 25:Tight([) 26:Int(4) 27:Sign(]) 29:Loose([) 30:Int(5) 31:Sign(]) 32:Tight([) 33:Int(6) 34:Sign(]) ",
            ),
            (
                "a->b<~c<<|d|>>e<|f|>",
                "0:Word(a) 1:Sign(->) 3:Word(b) 4:Sign(<~) 6:Word(c) 7:LeftOut(<<|) 10:Word(d) 11:LeftOut(|>>) 14:Word(e) 15:Sign(<|) 17:Word(f) 18:Sign(|>) ",
            ),
            ("\"\"", "0:DqOpen(\") 1:DqClose(\") "),
            (
                "\"a $ $b ${c} \\$d\\u{e9}\"[0]",
                "0:DqOpen(\") 1:DqText(a $ ) 5:DqVar($b) 7:DqText( ) 8:Hole(${) 10:Word(c) 11:HoleEnd(}) 12:DqText( \\$d\\u{e9}) 22:DqClose(\") 23:Tight([) 24:Int(0) 25:Sign(]) ",
            ),
            (
                "\"${ {a => \"${b}\"} }\"",
                "0:DqOpen(\") 1:Hole(${) 4:Sign({) 5:Word(a) 7:Sign(=>) 10:DqOpen(\") 11:Hole(${) 13:Word(b) 14:HoleEnd(}) 15:DqClose(\") 16:Sign(}) 18:HoleEnd(}) 19:DqClose(\") ",
            ),
            (
                "\"$::a::b:\"",
                "0:DqOpen(\") 1:DqVar($::a::b) 8:DqText(:) 9:DqClose(\") ",
            ),
            ("}", "0:Sign(}) "),
            ("'\u{e9}' # \u{e9}", "0:Sq('\u{e9}') "),
            ("9223372036854775807", "0:Int(9223372036854775807) "),
        ],
    )
}

const TEXTS_THAT_SPELL_NO_TOKENS: [(&str, &str); 26] = [
    ("$x = 09", "11 at 5: lexical"),
    ("$x = 0x", "11 at 5: lexical"),
    ("12ab", "11 at 0: lexical"),
    ("1.5_", "11 at 0: lexical"),
    ("a 9223372036854775808", "11 at 2: lexical"),
    ("$ x", "11 at 0: lexical"),
    ("a ~ b", "11 at 2: lexical"),
    ("a \u{e9}", "11 at 2: lexical"),
    ("a 'b", "11 at 2: lexical"),
    ("a 'b\\'", "11 at 2: lexical"),
    ("a /* b *", "11 at 2: lexical"),
    ("a \"b", "11 at 2: lexical"),
    ("a \"b\\", "11 at 2: lexical"),
    ("\"a ${ b", "11 at 3: lexical"),
    ("\"a ${ \"b\" 'c", "11 at 10: lexical"),
    ("\"ab\\u12\"", "11 at 3: lexical"),
    ("\"\\ud800\"", "11 at 1: lexical"),
    ("\"\\u{110000}\"", "11 at 1: lexical"),
    // the innermost of what is open
    ("\"a ${ /* b", "11 at 6: lexical"),
    ("\"a ${ \"b ${ c", "11 at 9: lexical"),
    // the first from the left
    ("09 \u{e9}", "11 at 0: lexical"),
    ("a ~ 'b", "11 at 2: lexical"),
    ("'a' 09 'b", "11 at 4: lexical"),
    ("\"${ 09", "11 at 4: lexical"),
    ("\"\\u12 ", "11 at 1: lexical"),
    // a letter of another alphabet may follow a number, but begins no token
    ("1\u{e9}", "11 at 1: lexical"),
];

#[test]
fn texts_that_spell_no_tokens(rt: HostRuntime) -> Result<(), Fail> {
    are_tokens(rt.alloc(), &TEXTS_THAT_SPELL_NO_TOKENS)
}

#[test]
fn bytes_that_are_no_text(rt: HostRuntime) -> Result<(), Fail> {
    is_told(rt.alloc(), "\\xff", b"\xff", "10 at 0: utf8")
}

#[test]
fn letters_that_are_cut_by_a_sign(rt: HostRuntime) -> Result<(), Fail> {
    is_told(rt.alloc(), "'a' \\xc3(", b"'a' \xc3(", "10 at 4: utf8")
}

#[test]
fn letters_that_are_cut_by_the_end(rt: HostRuntime) -> Result<(), Fail> {
    is_told(
        rt.alloc(),
        "\\xc3\\xa9\\xc3",
        b"\xc3\xa9\xc3",
        "10 at 2: utf8",
    )
}
