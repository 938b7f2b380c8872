//! Laws of compiled catalogs, as functions that do nothing.

ghost use Rattle.std.specs.Prelude.{◌≡◌, ◌↔◌, ℕ, List, Some};
ghost use Rattle.serde_json.specs.Data.{Data};
ghost use Rattle.pp_value.specs.declared.value.Ref.{Ref};
ghost use Rattle.pp_eval.specs.Facts.{fact_of};
ghost use Rattle.compiled_text.specs.Names.{IsReference};
ghost use Rattle.compiled_text.specs.Values.{value_of, SaysNoType};
ghost use Rattle.compiled_text.specs.Compiled.{Compiled, AreDistinct, ids_of, id_at, IsSound};
ghost use Rattle.compiled_text.specs.Form.{IsCompiledText};
ghost use Rattle.compiled_text.specs.Reading.{reference_of, place_of};

/// A text says one compiled catalog at most, and is one reference at most; of references that differ each has one place.
pub fn compiled_texts()
    ensures one { (bytes : List ℕ) (c d : Compiled) → IsCompiledText bytes c → IsCompiledText bytes d → c ≡ d }
    ensures sound { (bytes : List ℕ) (c : Compiled) → IsCompiledText bytes c → IsSound c }
    ensures references { (text : List ℕ) (r : Ref) → (reference_of text ≡ Some r) ↔ IsReference text r }
    ensures places { (c : Compiled) (r : Ref) (place : ℕ) → AreDistinct (ids_of c.resources)
        → (place_of r (ids_of c.resources) ≡ Some place) ↔ (id_at c.resources place ≡ Some r) }
{}

/// Values in which no object says a type of its own are read as facts are.
pub fn untyped_values()
    ensures { (d : Data) → SaysNoType d → value_of d ≡ fact_of d }
{}
