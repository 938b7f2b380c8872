//! Tokens that this language leaves out.
ghost use Rattle.std.specs.Prelude.{◌≡◌, false};
ghost use Rattle.std.specs.Option.{option_map};
ghost use Rattle.pp_syntax.specs.Tokens.{is_among};
ghost use Rattle.pp_syntax.specs.Statements.{functions};
ghost use Rattle.pp_syntax.specs.Lexing.{lexemes_of, lexeme_of};
ghost use Rattle.pp_parser.specs.Scanning.{begins_with, names_by, is_left_out, first_left_out};

use pp_syntax::{Func, Kind, Token, is_among};

const NAMED: [&[u8]; 2] = [b"class", b"define"];

#[tactic(auto, using(crate::proofs::LeftOutLaws::other_word))]
fn is_function(word: &str) -> bool
    ensures { result ≡ is_among functions word.now }
{
    match Func::of(word) {
        Some(_) => true,
        None => false,
    }
}

/// The next token is this sign.
fn begins_with(tokens: &[Token<'_>], text: &str) -> bool
    ensures { result ≡ begins_with text.now (lexemes_of tokens.now) }
{
    match tokens.split_first() {
        Some((t, _)) => {
            let same = t.text == text;
            matches!(t.kind, Kind::Sign) && same
        }
        None => false,
    }
}

fn names_follow(t: &Token<'_>) -> bool
    ensures { result ≡ names_by t.now.kind t.now.text.now }
{
    match t.kind {
        Kind::Keyword => is_among(&NAMED, t.text.as_bytes()),
        _ => false,
    }
}

fn is_left_out(names: bool, t: &Token<'_>, behind: &[Token<'_>]) -> bool
    ensures { result ≡ is_left_out names (lexeme_of t.now) (lexemes_of behind.now) }
{
    match t.kind {
        Kind::LeftOut | Kind::Float => true,
        Kind::Sign => {
            let star = t.text == "*";
            let arrow = begins_with(behind, "=>");
            star && arrow
        }
        Kind::Word => {
            let function = is_function(t.text);
            let bracket = begins_with(behind, "(");
            !function && bracket && !names
        }
        _ => false,
    }
}

/// The first token that this language leaves out.
pub fn first_left_out<'s, 't>(tokens: &'s [Token<'t>]) -> Option<&'s Token<'t>>
    ensures { option_map (λ t. lexeme_of t.now) result ≡ first_left_out false (lexemes_of tokens.now) }
{
    let mut names = false;
    for (i, t) in tokens.iter().enumerate() {
        let (_, behind) = tokens.split_at(i + 1);
        if is_left_out(names, t, behind) {
            return Some(t);
        }
        names = names_follow(t);
    }
    None
}
