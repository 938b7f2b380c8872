//! Tables of keywords and signs.
ghost use Rattle.std.specs.Prelude.{◌≡◌, map};
ghost use Rattle.std.specs.Option.{option_map};
ghost use Rattle.pp_syntax.specs.Tokens.{is_among, keywords};
ghost use Rattle.pp_syntax.specs.Scanning.{sign_of, one_byte, two_bytes, three_bytes, sign, word_kind};

use crate::token::Kind;

const KEYWORDS: [&[u8]; 16] = [
    b"and",
    b"or",
    b"in",
    b"if",
    b"elsif",
    b"else",
    b"unless",
    b"case",
    b"default",
    b"class",
    b"define",
    b"inherits",
    b"node",
    b"undef",
    b"true",
    b"false",
];

const SIGNS: [&[u8]; 29] = [
    b"{", b"}", b"[", b"]", b"(", b")", b",", b";", b":", b"=>", b"->", b"~>", b"<-", b"<~", b"=",
    b"==", b"!=", b"<", b">", b"<=", b">=", b"+", b"-", b"*", b"!", b"?", b"@", b"<|", b"|>",
];

const LEFT_OUT: [&[u8]; 13] = [
    b"@@", b"<<|", b"|>>", b"+>", b"=~", b"!~", b"/", b"%", b"<<", b">>", b"@(", b"|", b".",
];

/// A text is one of these.
pub fn is_among(texts: &[&[u8]], s: &[u8]) -> bool
    ensures { result ≡ is_among (map (λ t. t.now) texts.now) s.now }
{
    for t in texts {
        if *t == s {
            return true;
        }
    }
    false
}

pub fn is_keyword(text: &[u8]) -> bool
    ensures { result ≡ is_among keywords text.now }
{
    is_among(&KEYWORDS, text)
}

/// What a word is, by its text.
pub fn word_kind(text: &[u8]) -> Kind
    ensures { result ≡ word_kind text.now }
{
    if is_keyword(text) {
        Kind::Keyword
    } else {
        Kind::Word
    }
}

fn sign_of(text: &[u8]) -> Option<Kind>
    ensures { result ≡ sign_of text.now }
{
    if is_among(&SIGNS, text) {
        Some(Kind::Sign)
    } else if is_among(&LEFT_OUT, text) {
        Some(Kind::LeftOut)
    } else {
        None
    }
}

#[tactic(auto, unfolding(crate::specs::Scanning::one_byte))]
fn one_byte(text: &[u8]) -> Option<(Kind, &[u8])>
    ensures { option_map (λ x. (x.0, x.1.now)) result ≡ one_byte text.now }
{
    match text {
        [a, rest @ ..] => Some((sign_of(&[*a])?, rest)),
        _ => None,
    }
}

#[tactic(auto, unfolding(crate::specs::Scanning::two_bytes))]
fn two_bytes(text: &[u8]) -> Option<(Kind, &[u8])>
    ensures { option_map (λ x. (x.0, x.1.now)) result ≡ two_bytes text.now }
{
    match text {
        [a, b, rest @ ..] => Some((sign_of(&[*a, *b])?, rest)),
        _ => None,
    }
}

#[tactic(auto, unfolding(crate::specs::Scanning::three_bytes))]
fn three_bytes(text: &[u8]) -> Option<(Kind, &[u8])>
    ensures { option_map (λ x. (x.0, x.1.now)) result ≡ three_bytes text.now }
{
    match text {
        [a, b, c, rest @ ..] => Some((sign_of(&[*a, *b, *c])?, rest)),
        _ => None,
    }
}

/// The sign at the front, the longest that is there.
#[tactic(auto, unfolding(crate::specs::Scanning::sign))]
pub fn sign(text: &[u8]) -> Option<(Kind, &[u8])>
    ensures { option_map (λ x. (x.0, x.1.now)) result ≡ sign text.now }
{
    if let Some(found) = three_bytes(text) {
        return Some(found);
    }
    if let Some(found) = two_bytes(text) {
        return Some(found);
    }
    one_byte(text)
}
