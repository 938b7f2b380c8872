//! A law of catalogs, as a function that does nothing.

ghost use Rattle.catalog_semantics.specs.Catalogs.{Catalog};
ghost use Rattle.catalog_semantics.specs.Frames.{StandOnce, AreSound};
ghost use Rattle.catalog_semantics.specs.States.{references_of};
ghost use Rattle.graph_semantics.specs.Graphs.{plain_places};
ghost use Rattle.allowed_order.specs.AllowedOrder.{AreToldApart};

use catalog_semantics::references_have_one_place;

/// No two real plain resources of a catalog are shown alike: their types are built in, and no such type has a bracket in its name.
pub fn plain_resources_are_told_apart()
    ensures { (c : Catalog) → AreSound c.resources → StandOnce (references_of c.resources) → AreToldApart c (plain_places c) }
{
    references_have_one_place();
}
