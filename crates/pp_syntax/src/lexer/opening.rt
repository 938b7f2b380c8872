//! What is open at a place: braces, double quotes and `${`.
ghost use Rattle.std.specs.Prelude.{◌≡◌, [], ◌∷◌, OnOk, OnErr};
ghost use Rattle.pp_syntax.specs.Opened.{in_quotes, in_hole, outer_of, closed_brace, ending, ending_of};

use rh_base::NoMemory;
use std::alloc::Global;
use std::marker::Model;

/// What is open where a token stands, with the place of its first byte where a text may end within it.
#[derive(Clone, Copy, Debug, PartialEq, Eq)]
pub enum Opening {
    Brace,
    Quote(u32),
    Hole(u32),
}

/// All that is open, which contracts see as a list with the innermost first.
#[derive(Debug, Drop)]
pub struct Stack {
    items: Vec<Opening>,
}

impl Model for Stack {
    ghost use Rattle.std.specs.Prelude.{List, reverse};
    ghost use Rattle.pp_syntax.specs.declared.lexer.opening.Opening.{Opening};

    ghost Value = { List Opening };

    ghost view = { λ s. reverse s.items.items };
}

impl Stack {
    pub fn new(alloc: Global) -> Stack
        ensures { result ≡ [] }
    {
        Stack {
            items: Vec::new(alloc),
        }
    }

    pub fn push(&mut self, opening: Opening) -> Result<(), NoMemory>
        ensures ok { OnOk result (self.new ≡ opening ∷ self.old) }
        ensures err { OnErr result (self.new ≡ self.old) }
    {
        self.items.push(opening)?;
        Ok(())
    }

    pub fn pop(&mut self)
        ensures { self.new ≡ outer_of self.old }
    {
        let _ = self.items.pop();
    }

    pub fn in_quotes(&self) -> bool
        ensures { result ≡ in_quotes self.now }
    {
        matches!(self.items.last(), Some(Opening::Quote(_)))
    }

    pub fn in_hole(&self) -> bool
        ensures { result ≡ in_hole self.now }
    {
        matches!(self.items.last(), Some(Opening::Hole(_)))
    }

    /// Closes the innermost, if it is a brace.
    pub fn close_brace(&mut self)
        ensures { self.new ≡ closed_brace self.old }
    {
        if let Some(Opening::Brace) = self.items.last() {
            let _ = self.items.pop();
        }
    }

    /// Where the innermost text or expression that isn't closed opens.
    pub fn unclosed(mut self) -> Option<u32>
        ensures { ending_of result ≡ ending self }
    {
        while let Some(opening) = self.items.pop() {
            match opening {
                Opening::Brace => {}
                Opening::Quote(at) | Opening::Hole(at) => return Some(at),
            }
        }
        None
    }
}
