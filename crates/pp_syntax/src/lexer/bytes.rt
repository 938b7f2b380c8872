//! Sets of bytes.
ghost use Rattle.std.specs.Prelude.{◌≡◌, ◌≤◌, length};
ghost use Rattle.pp_syntax.specs.Bytes.{is_blank, is_digit, is_hex, is_upper, is_name};
ghost use Rattle.pp_syntax.specs.Tokens.{begins, digit_of};
ghost use Rattle.pp_syntax.specs.Scanning.{has_dashes, in_class, after_all, begins_with, front_of};

/// The three ways of spelling a name.
#[derive(Clone, Copy, Debug, PartialEq, Eq)]
pub enum Style {
    Word,
    Ref,
    Var,
}

/// A set of bytes of which a token, or a comment, may have many.
#[derive(Clone, Copy, Debug, PartialEq, Eq)]
pub enum Class {
    Digit,
    Octal,
    Hex,
    /// all but LF
    Line,
}

/// A space, a tab, CR or LF.
pub fn is_blank(b: u8) -> bool
    ensures { result ≡ is_blank b }
{
    matches!(b, b' ' | b'\t' | b'\r' | b'\n')
}

pub fn is_digit(b: u8) -> bool
    ensures { result ≡ is_digit b }
{
    b >= b'0' && b <= b'9'
}

pub fn is_upper(b: u8) -> bool
    ensures { result ≡ is_upper b }
{
    b >= b'A' && b <= b'Z'
}

pub fn is_hex(b: u8) -> bool
    ensures { result ≡ is_hex b }
{
    (b >= b'0' && b <= b'9') || (b >= b'a' && b <= b'f') || (b >= b'A' && b <= b'F')
}

/// An ASCII letter, a digit or `_`.
pub fn is_name(b: u8) -> bool
    ensures { result ≡ is_name b }
{
    (b >= b'a' && b <= b'z') || (b >= b'A' && b <= b'Z') || (b >= b'0' && b <= b'9') || b == b'_'
}

/// The value of a hexadecimal digit.
pub fn digit_of(b: u8) -> u8
    ensures { result ≡ digit_of b }
{
    if b <= b'9' {
        b.saturating_sub(b'0')
    } else if b <= b'F' {
        b.saturating_sub(55)
    } else {
        b.saturating_sub(87)
    }
}

impl Style {
    pub fn begins(self, b: u8) -> bool
        ensures { result ≡ begins self b }
    {
        match self {
            Style::Ref => b >= b'A' && b <= b'Z',
            Style::Word | Style::Var => (b >= b'a' && b <= b'z') || b == b'_',
        }
    }

    pub fn has_dashes(self) -> bool
        ensures { result ≡ has_dashes self }
    {
        matches!(self, Style::Word)
    }
}

impl Class {
    pub fn has(self, b: u8) -> bool
        ensures { result ≡ in_class self b }
    {
        match self {
            Class::Digit => b >= b'0' && b <= b'9',
            Class::Octal => b >= b'0' && b <= b'7',
            Class::Hex => is_hex(b),
            Class::Line => b != b'\n',
        }
    }
}

/// What is left behind all bytes of a set.
pub fn after_all(class: Class, text: &[u8]) -> &[u8]
    ensures { result.now ≡ after_all (in_class class) text.now }
{
    let mut rest = text;
    while let Some((b, more)) = rest.split_first() {
        if !class.has(*b) {
            break;
        }
        rest = more;
    }
    rest
}

pub fn begins_with(text: &[u8], c: u8) -> bool
    ensures { result ≡ begins_with c text.now }
{
    match text {
        [b, ..] => *b == c,
        [] => false,
    }
}

/// What a text has before this rest.
pub fn front_of<'t>(text: &'t [u8], rest: &[u8]) -> &'t [u8]
    requires { length rest.now ≤ length text.now }
    ensures { result.now ≡ front_of text.now rest.now }
{
    &text[..text.len() - rest.len()]
}
