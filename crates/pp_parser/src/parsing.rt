//! From tokens to a manifest.
ghost use Rattle.std.specs.Prelude.{◌≡◌, OnOk, IfOk, IfErr, MatchResult};
ghost use Rattle.rh_base.specs.Refused.{IfRefused};
ghost use Rattle.pp_syntax.specs.declared.tree.Manifest.{Manifest as Tree};
ghost use Rattle.pp_syntax.specs.Lexing.{lexemes_of};
ghost use Rattle.pp_syntax.specs.Statements.{IsManifest};
ghost use Rattle.pp_syntax.specs.LeftOut.{IsNowhere, IsLeftOut};
ghost use Rattle.pp_syntax.specs.Depth.{IsTooDeep};
ghost use Rattle.pp_parser.specs.Refusing.{AreLexed, IsParseRefusal, RefusesSyntax};

use crate::checked::check;
use crate::items::items;
use pp_readers::Misread;
use pp_statement::Parser;
use pp_syntax::{Manifest, Token};
use rh_base::Fault;
use std::alloc::Global;

/// Where the token at this index begins, or where the last one ends.
fn place_at(tokens: &[Token<'_>], index: usize) -> u32 {
    if let Some(token) = tokens.get(index) {
        return token.at;
    }
    match tokens.last() {
        Some(token) => match u32::try_from(token.text.len()) {
            Ok(length) => token.at.saturating_add(length),
            Err(_) => token.at,
        },
        None => 0,
    }
}

fn syntax(alloc: Global, tokens: &[Token<'_>], index: usize) -> Fault
    ensures { IfRefused result RefusesSyntax }
{
    Fault::refused(alloc, 12, place_at(tokens, index), "syntax")
}

/// The tree that the tokens of a text spell. Tokens that the language leaves out are refused first,
/// then those that are nested too deep. The place of a refusal of the syntax is the first byte of a token or the
/// end of the last one; which of them, no clause says.
pub fn parse(alloc: Global, tokens: &[Token<'_>]) -> Result<Manifest, Fault>
    requires lexed { AreLexed (lexemes_of tokens.now) }
    ensures spelled { IfOk result (λ m. IsManifest m (lexemes_of tokens.now)) }
    ensures all_in { OnOk result (IsNowhere IsLeftOut (lexemes_of tokens.now)) }
    ensures shallow { OnOk result (IsNowhere IsTooDeep (lexemes_of tokens.now)) }
    // Where the tokens spell a tree, none is left out and none is nested too deep, the answer is that tree, unless memory runs out.
    ensures only { (m : Tree) → IsManifest m (lexemes_of tokens.now) → IsNowhere IsLeftOut (lexemes_of tokens.now)
        → IsNowhere IsTooDeep (lexemes_of tokens.now) → MatchResult result (λ n. n ≡ m) (λ e. IfRefused e (λ r. ⊥)) }
    // The first token that is left out; else the first that is nested too deep; else no tree is spelled.
    ensures refused { IfErr result (λ e. IfRefused e (IsParseRefusal (lexemes_of tokens.now))) }
{
    check(alloc, tokens)?;
    let parser = Parser {
        alloc,
        limit: tokens.len() + 1,
        tokens,
    };
    match items(&parser) {
        Ok((found, _)) => Ok(Manifest { items: found }),
        Err(Misread::Form(index)) => Err(syntax(alloc, tokens, index)),
        Err(Misread::Memory(m)) => Err(Fault::Memory(m)),
    }
}
