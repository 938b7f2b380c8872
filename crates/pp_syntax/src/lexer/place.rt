//! Places in a text, and the token or gap that stands there.
ghost use Rattle.std.specs.Prelude.{◌≡◌, ◌+◌, ◌<◌, ◌^◌, [], ◌∷◌, length, codes, OnOk};
ghost use Rattle.pp_syntax.specs.Opened.{in_quotes};
ghost use Rattle.pp_syntax.specs.Tokens.{is_among};
ghost use Rattle.std.specs.Option.{option_map};
ghost use Rattle.pp_syntax.specs.Spelling.{bracket_kind, kind_at, opened_behind, ends_tight, behind, behind_gap};
ghost use Rattle.pp_syntax.specs.Scanning.{checked, found_at, token_at, gap_at, code_token, quoted_token};

use crate::lexer::bytes::front_of;
use crate::lexer::gaps::gap_of;
use crate::lexer::opening::{Opening, Stack};
use crate::lexer::quoted::quoted_token;
use crate::lexer::scan::{code_token, number_stands, opens_comment};
use crate::token::Kind;
use rh_base::NoMemory;

/// A place in a text: how many bytes are before it, what is open there, and whether a `[` would be tight there.
#[derive(Debug, Drop)]
pub struct Place {
    pub at: u32,
    pub opened: Stack,
    pub tight: bool,
}

impl Place {
    fn bracket_kind(&self, text: &[u8]) -> Kind
        ensures { result ≡ bracket_kind self.now text.now }
    {
        if text == b"[".as_slice() {
            return if self.tight { Kind::Tight } else { Kind::Loose };
        }
        if text == b"}".as_slice() {
            return if self.opened.in_hole() {
                Kind::HoleEnd
            } else {
                Kind::Sign
            };
        }
        Kind::Sign
    }

    fn kind_at(&self, kind: Kind, text: &[u8]) -> Kind
        ensures { result ≡ kind_at self.now kind text.now }
    {
        match kind {
            Kind::Sign => self.bracket_kind(text),
            _ => kind,
        }
    }

    /// What is left behind a blank or a comment that stands here.
    pub fn gap<'t>(&self, text: &'t [u8]) -> Option<&'t [u8]>
        ensures { option_map (λ r. r.now) result ≡ gap_at self.now text.now }
    {
        if self.opened.in_quotes() {
            return None;
        }
        gap_of(text)
    }

    fn found<'t>(&self, text: &'t [u8]) -> Option<(Kind, &'t [u8])>
        ensures { option_map (λ x. (x.0, x.1.now)) result ≡ found_at (in_quotes self.now.opened) text.now }
    {
        if self.opened.in_quotes() {
            return quoted_token(text);
        }
        if opens_comment(text) {
            return None;
        }
        code_token(text)
    }

    /// The token that stands here, and what is left behind it.
    #[tactic(auto, unfolding(crate::specs::Scanning::token_at), using(crate::proofs::Longest::found_short))]
    pub fn token<'t>(&self, text: &'t [u8]) -> Option<(Kind, &'t [u8])>
        ensures { option_map (λ x. (x.0, x.1.now)) result ≡ token_at self.now text.now }
    {
        let (kind, rest) = self.found(text)?;
        let front = front_of(text, rest);
        if number_stands(kind, front, rest) {
            Some((self.kind_at(kind, front), rest))
        } else {
            None
        }
    }

    fn open(&mut self, kind: Kind, text: &[u8]) -> Result<(), NoMemory>
        ensures { OnOk result (self.new ≡ record self.old { opened = opened_behind kind text.now self.old.at self.old.opened }) }
    {
        match kind {
            Kind::DqOpen => self.opened.push(Opening::Quote(self.at)),
            Kind::Hole => self.opened.push(Opening::Hole(self.at)),
            Kind::DqClose | Kind::HoleEnd => {
                self.opened.pop();
                Ok(())
            }
            Kind::Sign => {
                if text == b"{".as_slice() {
                    return self.opened.push(Opening::Brace);
                }
                if text == b"}".as_slice() {
                    self.opened.close_brace();
                }
                Ok(())
            }
            _ => Ok(()),
        }
    }

    /// Goes past a token.
    pub fn pass(&mut self, kind: Kind, text: &[u8]) -> Result<(), NoMemory>
        requires { self.old.at + length text.now < 2 ^ 32 }
        ensures { OnOk result (self.new ≡ behind self.old kind text.now) }
    {
        self.open(kind, text)?;
        self.at += text.len() as u32;
        self.tight = ends_tight(kind, text);
        Ok(())
    }

    /// Goes past a blank or a comment.
    pub fn pass_gap(&mut self, text: &[u8])
        requires { self.old.at + length text.now < 2 ^ 32 }
        ensures { self.new ≡ behind_gap self.old text.now }
    {
        self.at += text.len() as u32;
        self.tight = false;
    }
}

/// A `[` directly behind such a token is tight.
fn ends_tight(kind: Kind, text: &[u8]) -> bool
    ensures { result ≡ ends_tight kind text.now }
{
    match kind {
        Kind::Word | Kind::Ref | Kind::Var | Kind::Sq | Kind::DqClose => true,
        Kind::Sign => closes(text),
        _ => false,
    }
}

fn closes(text: &[u8]) -> bool
    ensures { result ≡ is_among (codes ")" ∷ codes "]" ∷ []) text.now }
{
    let round = text == b")".as_slice();
    let square = text == b"]".as_slice();
    round || square
}
