//! From a text to the manifest that it spells.

ghost use Rattle.std.specs.Prelude.{◌<◌, ◌^◌, length, IfOk, IfErr};
ghost use Rattle.rh_base.specs.Refused.{IfRefused};
ghost use Rattle.pp_compile.specs.Sources.{IsParsed, IsSourceRefusal};

use pp_parser::parse;
use pp_syntax::{Manifest, lex};
use rh_base::Fault;
use std::alloc::Global;

/// The manifest that a text spells.
pub fn manifest_of(alloc: Global, text: &[u8]) -> Result<Manifest, Fault>
    requires { length text.now < 2 ^ 32 }
    ensures parsed { IfOk result (IsParsed text.now) }
    ensures refused { IfErr result (λ e. IfRefused e (IsSourceRefusal text.now)) }
{
    let tokens = lex(alloc, text)?;
    parse(alloc, &tokens)
}
