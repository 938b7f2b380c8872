//! That resources are told apart by their references, as a function that does nothing.

ghost use Rattle.std.specs.Prelude.{Option};
ghost use Rattle.catalog_semantics.specs.Catalogs.{Catalog};
ghost use Rattle.graph_semantics.specs.Graphs.{plain_places};
ghost use Rattle.allowed_order.specs.AllowedOrder.{AreToldApart};
ghost use Rattle.compiled_text.specs.Compiled.{Compiled};
ghost use Rattle.known_inputs.specs.declared.inputs.Inputs.{Inputs};
ghost use Rattle.known_inputs.specs.declared.inputs.Known.{Known};
ghost use Rattle.reports.specs.Stages.{IsCompiled};

use allowed_order::plain_resources_are_told_apart;
use catalog_semantics::{catalogs_are_sound, references_have_one_place, references_stand_once};
use compiled_catalog::compiled_references_stand_once;
use compiled_text::compiled_texts;

/// No two real plain resources of the catalog that the files of a request give are shown alike.
pub fn resources_are_told_apart()
    ensures { (i : Inputs) (k : Known) (m : Option Compiled) (c : Catalog) → IsCompiled i k m c → AreToldApart c (plain_places c) }
{
    plain_resources_are_told_apart();
    catalogs_are_sound();
    references_stand_once();
    references_have_one_place();
    compiled_references_stand_once();
    compiled_texts();
}
