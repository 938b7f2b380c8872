//! Laws of native resources, as functions that do nothing.

ghost use Rattle.std.specs.Prelude.{◌≡◌, ◌||◌, if◌then◌else◌, [], true, false, map, List, Option, Some, None, Ok};
ghost use Rattle.std.specs.List.{AllByRecursion};
ghost use Rattle.fs_semantics.specs.FileTree.{Path, Tree, is_none};
ghost use Rattle.fs_semantics.specs.Programs.{Id, run};
ghost use Rattle.model_semantics.specs.declared.states.FileState.{FileState};
ghost use Rattle.model_semantics.specs.Models.{new_model, programs as manifest_programs};
ghost use Rattle.compiled_attributes.specs.Attributes.{is_noop};
ghost use Rattle.compiled_models.specs.Assumed.{gives_program};
ghost use Rattle.compiled_models.specs.Files.{spared_row};
ghost use Rattle.compiled_models.specs.Programs.{Setting, Native, assumed_of, program_assumed, program_told, is_idle, done_of, programs};
ghost use Rattle.compiled_models.specs.Alike.{IsOrdinary, done_as, read_through, AreAlike, paths_of, has_filling};

use assumed_models::edits_are_lost;

/// A resource counts as assumed exactly where its program is the one that is assumed of it; else it does nothing where it isn't to be
/// changed or is idle, and what its model does where it is neither.
pub fn assumed_resources()
    ensures assumed { (s : Setting) (n : Native) → gives_program (assumed_of s n) ≡ true
        → program_told s n ≡ program_assumed n.resource (assumed_of s n) }
    ensures others { (s : Setting) (n : Native) → gives_program (assumed_of s n) ≡ false
        → program_told s n ≡ (if is_noop n.text || is_idle n.resource then Some (Ok Id) else None) }
{}

/// An ordinary resource does what the same resource of a manifest does, or has no model for the same cause. And where all are ordinary,
/// they have the programs that they have in a manifest, or both are refused.
pub fn ordinary_resources()
    ensures one { (s : Setting) (seen : List Path) (n : Native) → IsOrdinary s n
        → done_of s [] seen n ≡ done_as (new_model (paths_of s.links) seen s.listing n.resource) }
    ensures all { (s : Setting) (ns : List Native) → AllByRecursion (IsOrdinary s) ns
        → AreAlike (programs s ns) (read_through s.links (manifest_programs (paths_of s.links) s.listing (map (λ n. n.resource) ns))) }
{
    edits_are_lost();
}

/// With `replace` false a file that has something to put changes nothing where something stands already.
pub fn what_stands_is_spared()
    ensures { (p : Path) (state : FileState) (t : Tree) → has_filling state ≡ true → is_none t p ≡ false
        → run (spared_row p state) t ≡ Some t }
{}
