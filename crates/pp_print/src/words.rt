//! Words: tokens that are to be written.
ghost use Rattle.std.specs.Prelude.{◌≡◌, [], ◌∷◌, ◌++◌, unsigned_abs, OnOk};
ghost use Rattle.pp_syntax.specs.declared.token.Kind.TheVariants as kind;
ghost use Rattle.pp_print.specs.Words.{word, sign, keyword, escapes, must_escape, escaped, quoted, number, has_dash, variable, named};

use pp_syntax::{Kind, is_keyword};
use rh_base::{NoMemory, Seq};
use std::alloc::Global;
use std::marker::Model;

/// A token that is to be written.
#[derive(Debug, Drop)]
pub struct Word {
    pub kind: Kind,
    pub text: Seq<u8>,
}

/// The words so far.
#[derive(Debug, Drop)]
pub struct Words {
    alloc: Global,
    items: Seq<Word>,
}

impl Model for Words {
    ghost use Rattle.std.specs.Prelude.{List};
    ghost use Rattle.pp_print.specs.declared.words.Word.{Word};

    ghost Value = { List Word };

    ghost view = { λ w. w.items };
}

impl Words {
    pub fn new(alloc: Global) -> Words
        ensures { result ≡ [] }
    {
        Words {
            alloc,
            items: Seq::new(alloc),
        }
    }

    pub fn as_slice(&self) -> &[Word]
        ensures { result.now ≡ self.now }
    {
        self.items.as_slice()
    }

    /// Adds a word of these bytes.
    pub fn push(&mut self, kind: Kind, text: &[u8]) -> Result<(), NoMemory>
        ensures { OnOk result (self.new ≡ self.old ++ word kind text.now) }
    {
        let mut bytes = Vec::new(self.alloc);
        bytes.extend_from_slice(text)?;
        let text = Seq::from_vec(bytes);
        self.items.push(Word { kind, text })
    }

    pub fn sign(&mut self, text: &str) -> Result<(), NoMemory>
        ensures { OnOk result (self.new ≡ self.old ++ sign text.now) }
    {
        self.push(Kind::Sign, text.as_bytes())
    }

    pub fn keyword(&mut self, text: &str) -> Result<(), NoMemory>
        ensures { OnOk result (self.new ≡ self.old ++ keyword text.now) }
    {
        self.push(Kind::Keyword, text.as_bytes())
    }

    /// A text in single quotes.
    pub fn quoted(&mut self, text: &str) -> Result<(), NoMemory>
        ensures { OnOk result (self.new ≡ self.old ++ quoted text.now) }
    {
        let mut raw = Vec::new(self.alloc);
        raw.push(b'\'')?;
        push_escaped(&mut raw, text.as_bytes())?;
        raw.push(b'\'')?;
        let text = Seq::from_vec(raw);
        self.items.push(Word {
            kind: Kind::Sq,
            text,
        })
    }

    /// A number, without its sign.
    pub fn number(&mut self, n: i64) -> Result<(), NoMemory>
        ensures { OnOk result (self.new ≡ self.old ++ number n) }
    {
        let text = format!(in self.alloc; "{}", n.unsigned_abs())?;
        self.push(Kind::Int, text.as_bytes())
    }

    /// A variable, in the spelling that its name needs.
    pub fn variable(&mut self, name: &str) -> Result<(), NoMemory>
        ensures { OnOk result (self.new ≡ self.old ++ variable name.now) }
    {
        if has_dash(name.as_bytes()) {
            self.push(Kind::Word, name.as_bytes())
        } else {
            self.var(name)
        }
    }

    /// A variable with this name, which has no dash.
    pub fn var(&mut self, name: &str) -> Result<(), NoMemory>
        ensures { OnOk result (self.new ≡ self.old ++ word kind.Var (36 ∷ name.now)) }
    {
        let mut bytes = Vec::new(self.alloc);
        bytes.push(b'$')?;
        bytes.extend_from_slice(name.as_bytes())?;
        let text = Seq::from_vec(bytes);
        self.items.push(Word {
            kind: Kind::Var,
            text,
        })
    }

    /// A name that may be a keyword.
    pub fn named(&mut self, name: &str) -> Result<(), NoMemory>
        ensures { OnOk result (self.new ≡ self.old ++ named name.now) }
    {
        let kind = if is_keyword(name.as_bytes()) {
            Kind::Keyword
        } else {
            Kind::Word
        };
        self.push(kind, name.as_bytes())
    }
}

/// A backslash before this text must be escaped.
fn escapes(text: &[u8]) -> bool
    ensures { result ≡ escapes text.now }
{
    match text {
        [] => true,
        [c, ..] => *c == b'\\' || *c == b'\'',
    }
}

fn must_escape(b: u8, text: &[u8]) -> bool
    ensures { result ≡ must_escape b text.now }
{
    if b == b'\'' {
        return true;
    }
    if b == b'\\' {
        return escapes(text);
    }
    false
}

fn push_escaped(raw: &mut Vec<u8>, text: &[u8]) -> Result<(), NoMemory>
    ensures { OnOk result (raw.new.items ≡ raw.old.items ++ escaped text.now) }
{
    let mut rest = text;
    while let Some((b, more)) = rest.split_first() {
        if must_escape(*b, more) {
            raw.push(b'\\')?;
        }
        raw.push(*b)?;
        rest = more;
    }
    Ok(())
}

fn has_dash(name: &[u8]) -> bool
    ensures { result ≡ has_dash name.now }
{
    for b in name {
        if *b == b'-' {
            return true;
        }
    }
    false
}
