//! Laws of references and relations, as functions that do nothing.

ghost use Rattle.std.specs.Prelude.{◌≡◌, ◌≢◌, ◌↔◌, ℕ, List, [], true, Some, Ok, slice_get};
ghost use Rattle.fs_semantics.specs.FileTree.{Path};
ghost use Rattle.fs_lang.specs.PathText.{IsPathText};
ghost use Rattle.pp_value.specs.declared.value.Value.{Value};
ghost use Rattle.compiled_text.specs.declared.catalog.CompiledResource.{CompiledResource};
ghost use Rattle.compiled_text.specs.Compiled.{Compiled, IsSound};
ghost use Rattle.compiled_relations.specs.Finding.{written, place_found};
ghost use Rattle.compiled_relations.specs.Values.{are_references, related_to};
ghost use Rattle.compiled_relations.specs.Related.{IsRelation};

/// Each resource of a compiled catalog is found by its type and title.
pub fn resources_are_found()
    ensures { (c : Compiled) (place : ℕ) (r : CompiledResource) → IsSound c → slice_get c.resources place ≡ Some r
        → r.id.title ≢ [] → place_found c.resources r.id ≡ Some place }
{}

/// Texts of paths are written alike exactly where they spell one path.
pub fn paths_are_written_alike()
    ensures { (a b : List ℕ) (p q : Path) → IsPathText a p → IsPathText b q → (written a ≡ written b) ↔ (p ≡ q) }
{}

/// What references of a relation find are references of resources, and nothing in them is opaque.
pub fn relations_are_references()
    ensures { (all : List CompiledResource) (r : CompiledResource) (x y : Value) → related_to all r x ≡ Ok y
        → are_references x ≡ true → IsRelation all y }
{}
