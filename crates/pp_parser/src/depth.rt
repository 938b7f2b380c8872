//! Where tokens are nested too deep.
ghost use Rattle.std.specs.Prelude.{◌≡◌, ◌+◌, ◌<◌, ◌^◌, [], ◌∷◌, length, OnOk, IfOk};
ghost use Rattle.std.specs.Option.{option_map};
ghost use Rattle.pp_syntax.specs.Tokens.{is_among};
ghost use Rattle.pp_syntax.specs.Lexing.{lexemes_of, lexeme_of};
ghost use Rattle.pp_parser.specs.Nested.{at_start, innermost, outer_of, sign_shape, shape_of, behind_shape, depth_of};
ghost use Rattle.pp_parser.specs.Scanning.{first_too_deep};

use pp_syntax::{Kind, Token, is_among};
use rh_base::NoMemory;
use rh_base::limits::NESTING;
use std::alloc::Global;
use std::marker::Model;

const OPENING: [&[u8]; 2] = [b"(", b"<|"];

const CLOSING: [&[u8]; 4] = [b")", b"]", b"}", b"|>"];

const PREFIXES: [&[u8]; 2] = [b"!", b"-"];

/// What a token is for the depth.
#[derive(Clone, Copy, Debug, PartialEq, Eq)]
pub enum Shape {
    /// `(`, a `[` that isn't tight, `${` or `<|`
    Opens,
    /// a tight `[`
    Indexes,
    /// `{`
    Braces,
    /// a closing bracket of any kind
    Closes,
    /// `?`
    Asks,
    /// `!` or `-`
    Prefixes,
    Other,
}

/// The open brackets, each as the number of postfixes in one row that end where it is closed, which contracts see
/// with the innermost first.
#[derive(Debug, Drop)]
pub struct Rows {
    items: Vec<u64>,
}

impl Model for Rows {
    ghost use Rattle.std.specs.Prelude.{List, ℕ, reverse};

    ghost Value = { List ℕ };

    ghost view = { λ s. reverse s.items.items };
}

impl Rows {
    fn new(alloc: Global) -> Rows
        ensures { result ≡ [] }
    {
        Rows {
            items: Vec::new(alloc),
        }
    }

    fn push(&mut self, row: u64) -> Result<(), NoMemory>
        ensures { OnOk result (self.new ≡ row ∷ self.old) }
    {
        self.items.push(row)?;
        Ok(())
    }

    fn pop(&mut self) -> u64
        ensures value { result ≡ innermost self.old }
        ensures after { self.new ≡ outer_of self.old }
    {
        self.items.pop().unwrap_or(0)
    }

    #[tactic(auto, using(crate::proofs::Rows::length_reversed))]
    fn len(&self) -> usize
        ensures { result ≡ length self.now }
    {
        self.items.len()
    }
}

/// What counts behind the tokens that were passed.
#[derive(Debug, Drop)]
pub struct Nesting {
    pub opened: Rows,
    /// The length of the run of `!` and `-`.
    pub run: u64,
    /// How many postfixes stand in one row.
    pub row: u64,
    /// Where a `?` is the last token: how many postfixes in one row end where the `{` behind it is closed.
    pub asked: u64,
}

fn sign_shape(text: &str) -> Shape
    ensures { result ≡ sign_shape text.now }
{
    if is_among(&OPENING, text.as_bytes()) {
        return Shape::Opens;
    }
    if text == "{" {
        return Shape::Braces;
    }
    if is_among(&CLOSING, text.as_bytes()) {
        return Shape::Closes;
    }
    if text == "?" {
        return Shape::Asks;
    }
    if is_among(&PREFIXES, text.as_bytes()) {
        return Shape::Prefixes;
    }
    Shape::Other
}

fn shape_of(t: &Token<'_>) -> Shape
    ensures { result ≡ shape_of t.now.kind t.now.text.now }
{
    match t.kind {
        Kind::Loose | Kind::Hole => Shape::Opens,
        Kind::Tight => Shape::Indexes,
        Kind::HoleEnd => Shape::Closes,
        Kind::Sign => sign_shape(t.text),
        _ => Shape::Other,
    }
}

impl Nesting {
    fn new(alloc: Global) -> Nesting
        ensures { result ≡ at_start }
    {
        Nesting {
            opened: Rows::new(alloc),
            run: 0,
            row: 0,
            asked: 0,
        }
    }

    fn open(&mut self, row: u64) -> Result<(), NoMemory>
        ensures { OnOk result (self.new ≡ record { opened = row ∷ self.old.opened; run = 0; row = 0; asked = 0 }) }
    {
        self.opened.push(row)?;
        self.run = 0;
        self.row = 0;
        self.asked = 0;
        Ok(())
    }

    /// Goes past a token of this shape.
    fn pass(&mut self, shape: Shape) -> Result<(), NoMemory>
        requires row { self.old.row + 1 < 2 ^ 64 }
        requires run { self.old.run + 1 < 2 ^ 64 }
        ensures { OnOk result (self.new ≡ behind_shape self.old shape) }
    {
        match shape {
            Shape::Opens => self.open(0)?,
            Shape::Indexes => self.open(self.row + 1)?,
            Shape::Braces => self.open(self.asked)?,
            Shape::Closes => {
                self.row = self.opened.pop();
                self.run = 0;
                self.asked = 0;
            }
            Shape::Asks => {
                self.run = 0;
                self.asked = self.row + 1;
                self.row = 0;
            }
            Shape::Prefixes => {
                self.run += 1;
                self.row = 0;
                self.asked = 0;
            }
            Shape::Other => {
                self.run = 0;
                self.row = 0;
                self.asked = 0;
            }
        }
        Ok(())
    }

    fn depth_of(&self, shape: Shape) -> u128
        requires { self.now.row < 2 ^ 64 }
        ensures { result ≡ depth_of self.now shape }
    {
        let open = self.opened.len() as u128;
        let row = u128::from(self.row);
        let run = u128::from(self.run);
        match shape {
            Shape::Opens | Shape::Braces => open + 1,
            Shape::Indexes => open + 1 + row,
            Shape::Closes | Shape::Other => open,
            Shape::Asks => open + row,
            Shape::Prefixes => open + run + 1,
        }
    }
}

/// The first token that is nested too deep.
pub fn first_too_deep<'s, 't>(
    alloc: Global,
    tokens: &'s [Token<'t>],
) -> Result<Option<&'s Token<'t>>, NoMemory>
    ensures { IfOk result (λ found. option_map (λ t. lexeme_of t.now) found ≡ first_too_deep at_start (lexemes_of tokens.now)) }
{
    let mut nesting = Nesting::new(alloc);
    for t in tokens {
        let shape = shape_of(t);
        if nesting.depth_of(shape) > u128::from(NESTING) {
            return Ok(Some(t));
        }
        nesting.pass(shape)?;
    }
    Ok(None)
}
