//! From a text to its tokens.
ghost use Rattle.std.specs.Prelude.{◌≡◌, ◌<◌, ◌-◌, ◌^◌, List, [], ◌∷◌, ◌++◌, length, take, OnOk, IfOk, IfErr, MatchResult, IsUtf8, ◌⊎◌, ℕ, true, false, codes};
ghost use Rattle.std.specs.List.{AllByRecursion};
ghost use Rattle.rh_base.specs.Refused.{IfRefused};
ghost use Rattle.pp_syntax.specs.declared.token.Kind.{Kind as Sort};
ghost use Rattle.pp_syntax.specs.declared.token.Kind.TheVariants as kind;
ghost use Rattle.pp_syntax.specs.declared.lexer.place.Place.{Place as Opened};
ghost use Rattle.pp_syntax.specs.Opened.{in_quotes};
ghost use Rattle.pp_syntax.specs.Tokens.{Lexeme, Spelling};
ghost use Rattle.pp_syntax.specs.Spelling.{Spells, FailsAt, NumberStands, kind_at, TokenAt};
ghost use Rattle.pp_syntax.specs.SetApart.{IsSetApart};
ghost use Rattle.pp_syntax.specs.Lexing.{lexemes_of, Cut, AreSlices, InOrder, IsTextRefusal, IsLexicalRefusal};

mod bytes;
mod gaps;
mod names;
mod numbers;
mod opening;
mod place;
mod quoted;
mod scan;
mod signs;

pub use crate::lexer::bytes::{digit_of, is_hex};
pub use crate::lexer::numbers::int_value;
use crate::lexer::opening::Stack;
use crate::lexer::place::Place;
pub use crate::lexer::quoted::is_simple_escape;
pub use crate::lexer::signs::{is_among, is_keyword};
use crate::token::{Kind, Token};
use rh_base::{Fault, NoMemory};
use std::alloc::Global;

/// A text, cut before what is left.
fn cut<'t>(text: &'t str, behind: &[u8]) -> (&'t str, &'t str)
    requires { Cut text.now behind.now }
    ensures front { result.0.now ≡ take (length text.now - length behind.now) text.now }
    ensures back { result.1.now ≡ behind.now }
{
    text.split_at(text.as_bytes().len() - behind.len())
}

fn add<'t>(tokens: &mut Vec<Token<'t>>, token: Token<'t>) -> Result<(), NoMemory>
    ensures { OnOk result (tokens.new.items ≡ tokens.old.items ++ token.entry ∷ []) }
{
    tokens.push(token)?;
    Ok(())
}

/// The tokens of a text.
fn tokens_of(alloc: Global, source: &str) -> Result<Vec<Token<'_>>, Fault>
    requires { length source.now < 2 ^ 32 }
    ensures spelled { IfOk result (λ tokens. Spells source.now (lexemes_of tokens.items)) }
    ensures refused { IfErr result (λ e. IfRefused e (IsLexicalRefusal source.now)) }
{
    let mut tokens = Vec::new(alloc);
    let mut place = Place {
        at: 0,
        opened: Stack::new(alloc),
        tight: false,
    };
    let mut rest = source;
    while !rest.is_empty() {
        if let Some(behind) = place.gap(rest.as_bytes()) {
            let (front, more) = cut(rest, behind);
            place.pass_gap(front.as_bytes());
            rest = more;
        } else if let Some((kind, behind)) = place.token(rest.as_bytes()) {
            let (text, more) = cut(rest, behind);
            let at = place.at;
            add(&mut tokens, Token { kind, text, at })?;
            place.pass(kind, text.as_bytes())?;
            rest = more;
        } else {
            return Err(Fault::refused(alloc, 11, place.at, "lexical"));
        }
    }
    match place.opened.unclosed() {
        None => Ok(tokens),
        Some(at) => Err(Fault::refused(alloc, 11, at, "lexical")),
    }
}

/// The tokens of a manifest, each with a slice of its text.
pub fn lex(alloc: Global, text: &[u8]) -> Result<Vec<Token<'_>>, Fault>
    requires { length text.now < 2 ^ 32 }
    // the tokens that the text spells
    ensures spelled { IfOk result (λ tokens. Spells text.now (lexemes_of tokens.items)) }
    ensures utf8 { OnOk result (IsUtf8 text.now) }
    ensures slices { IfOk result (λ tokens. AreSlices text.now (lexemes_of tokens.items)) }
    ensures order { IfOk result (λ tokens. InOrder 0 (lexemes_of tokens.items)) }
    // Where tokens are spelled the answer is these, unless memory runs out.
    ensures only { (ts : List Lexeme) → IsUtf8 text.now → Spells text.now ts
        → MatchResult result (λ tokens. lexemes_of tokens.items ≡ ts) (λ e. IfRefused e (λ r. ⊥)) }
    // A refusal says that the text isn't UTF-8, or that it is and no tokens are spelled; and where.
    ensures refused { IfErr result (λ e. IfRefused e (λ r. IsTextRefusal text.now r ⊎ (IsUtf8 text.now × IsLexicalRefusal text.now r))) }
{
    match str::from_utf8(text) {
        Ok(source) => tokens_of(alloc, source),
        Err(e) => Err(Fault::refused(alloc, 10, e.valid_up_to() as u32, "utf8")),
    }
}

/// Each text spells one list of tokens, or fails at one place.
#[tactic(auto, using(crate::proofs::Slices::same_tokens, crate::proofs::Slices::no_failure, crate::proofs::Slices::same_failure))]
pub fn one_spelling()
    ensures tokens { (text : List ℕ) (ts us : List Lexeme) → Spells text ts → Spells text us → ts ≡ us }
    ensures either { (text : List ℕ) (ts : List Lexeme) (at : ℕ) → Spells text ts → FailsAt text at → ⊥ }
    ensures place { (text : List ℕ) (m n : ℕ) → FailsAt text m → FailsAt text n → m ≡ n }
{}

/// The tokens of a text in UTF-8 are UTF-8.
pub fn tokens_are_utf8()
    ensures { (text : List ℕ) (ts : List Lexeme) → IsUtf8 text → Spells text ts → AllByRecursion (λ t. IsUtf8 t.text) ts }
{}

/// What stands as a token before a given rest: a spelling that is set apart; a `"`, a `}` and a `${` before
/// whatever there is.
pub fn set_apart_tokens_stand()
    ensures spelled { (p : Opened) (k : Sort) (s rest : List ℕ) → in_quotes p.opened ≡ false → Spelling k s
        → NumberStands k s rest → IsSetApart rest → TokenAt p (kind_at p k s) s rest }
    ensures quote { (p : Opened) (rest : List ℕ) → in_quotes p.opened ≡ false → TokenAt p kind.DqOpen (codes "\"") rest }
    ensures brace { (p : Opened) (rest : List ℕ) → in_quotes p.opened ≡ false
        → TokenAt p (kind_at p kind.Sign (codes "}")) (codes "}") rest }
    ensures hole { (p : Opened) (rest : List ℕ) → in_quotes p.opened ≡ true → TokenAt p kind.Hole (codes "${") rest }
    ensures close { (p : Opened) (rest : List ℕ) → in_quotes p.opened ≡ true → TokenAt p kind.DqClose (codes "\"") rest }
{}
