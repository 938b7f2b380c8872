//! Laws of texts and the manifests that they spell, as functions that do nothing.

ghost use Rattle.std.specs.Prelude.{◌≡◌, ℕ, List};
ghost use Rattle.rh_base.specs.declared.fault.Refusal.{Refusal};
ghost use Rattle.pp_syntax.specs.declared.tree.Manifest.{Manifest};
ghost use Rattle.pp_compile.specs.Sources.{IsParsed, IsSourceRefusal};

use pp_parser::one_manifest;
use pp_syntax::one_spelling;

/// A text spells one manifest at most, and one that spells a manifest isn't refused for what it spells: not for its bytes, its
/// tokens, their depth or their order.
pub fn one_reading()
    ensures manifests { (text : List ℕ) (m n : Manifest) → IsParsed text m → IsParsed text n → m ≡ n }
    ensures refusals { (text : List ℕ) (m : Manifest) (r : Refusal) → IsParsed text m → IsSourceRefusal text r → ⊥ }
{
    one_spelling();
    one_manifest();
}
