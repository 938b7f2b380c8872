//! What is refused before tokens are parsed.
ghost use Rattle.std.specs.Prelude.{OnOk, IfErr};
ghost use Rattle.rh_base.specs.Refused.{IfRefused};
ghost use Rattle.pp_syntax.specs.Lexing.{lexemes_of};
ghost use Rattle.pp_syntax.specs.LeftOut.{IsNowhere, IsLeftOut};
ghost use Rattle.pp_syntax.specs.Depth.{IsTooDeep};
ghost use Rattle.pp_parser.specs.Refusing.{IsCheckRefusal};

use crate::depth::first_too_deep;
use crate::left_out::first_left_out;
use pp_syntax::Token;
use rh_base::Fault;
use std::alloc::Global;

/// Looks for tokens that are left out, and then for those that are nested too deep.
pub fn check(alloc: Global, tokens: &[Token<'_>]) -> Result<(), Fault>
    ensures all_in { OnOk result (IsNowhere IsLeftOut (lexemes_of tokens.now)) }
    ensures shallow { OnOk result (IsNowhere IsTooDeep (lexemes_of tokens.now)) }
    // The first that is left out, or else the first that is too deep.
    ensures refused { IfErr result (λ e. IfRefused e (IsCheckRefusal (lexemes_of tokens.now))) }
{
    if let Some(t) = first_left_out(tokens) {
        return Err(Fault::refused(alloc, 14, t.at, t.text));
    }
    if let Some(t) = first_too_deep(alloc, tokens)? {
        return Err(Fault::refused(alloc, 13, t.at, "nesting"));
    }
    Ok(())
}
