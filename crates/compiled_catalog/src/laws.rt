//! Laws of the catalog of a compiled catalog, as functions that do nothing.

ghost use Rattle.std.specs.Prelude.{◌≡◌, Ok};
ghost use Rattle.std.specs.List.{AllByRecursion};
ghost use Rattle.host_limits.specs.declared.limits.Limits.{Limits};
ghost use Rattle.catalog_semantics.specs.Catalogs.{Catalog};
ghost use Rattle.catalog_semantics.specs.Frames.{StandOnce, AreSoundAttributes};
ghost use Rattle.catalog_semantics.specs.States.{references_of};
ghost use Rattle.compiled_text.specs.Compiled.{Compiled, IsSound};
ghost use Rattle.compiled_catalog.specs.Catalogs.{catalog_of};

use compiled_attributes::names_in_order;
use compiled_relations::relations_are_references;

/// In the catalog of a compiled catalog each reference stands once.
pub fn compiled_references_stand_once()
    ensures { (c : Compiled) (limits : Limits) (k : Catalog) → IsSound c → catalog_of c limits ≡ Ok k
        → StandOnce (references_of k.resources) }
{}

/// In it no attribute holds an opaque value, the value of a relation is references, and each attribute stands once.
pub fn compiled_attributes_are_sound()
    ensures { (c : Compiled) (limits : Limits) (k : Catalog) → catalog_of c limits ≡ Ok k
        → AllByRecursion (λ r. AreSoundAttributes r.attrs) k.resources }
{
    names_in_order();
    relations_are_references();
}
