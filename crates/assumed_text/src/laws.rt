//! Laws of assumptions, as functions that do nothing.

ghost use Rattle.std.specs.Prelude.{◌≡◌, ◌↔◌, ℕ, List, Some};
ghost use Rattle.std.specs.List.{AllByRecursion};
ghost use Rattle.assumed_text.specs.declared.assumed.Assumption.{Assumption as Row};
ghost use Rattle.assumed_text.specs.declared.assumed.Subject.{Subject as Named};
ghost use Rattle.assumed_text.specs.Assumptions.{IsSoundAssumption};
ghost use Rattle.assumed_text.specs.Form.{IsSubject, IsAssumptionsText};
ghost use Rattle.assumed_text.specs.Reading.{subject_of};

use compiled_text::compiled_texts;
use pkg_listing::package_paths;

/// A text says one list of assumptions at most, and a key names one subject at most; and what a text says is sound.
pub fn assumption_texts()
    ensures one { (bytes : List ℕ) (rows others : List Row) → IsAssumptionsText bytes rows
        → IsAssumptionsText bytes others → rows ≡ others }
    ensures sound { (bytes : List ℕ) (rows : List Row) → IsAssumptionsText bytes rows → AllByRecursion IsSoundAssumption rows }
    ensures subjects { (key : List ℕ) (s : Named) → (subject_of key ≡ Some s) ↔ IsSubject s key }
{
    compiled_texts();
    package_paths();
}
