//! Laws of classes, as functions that do nothing.

ghost use Rattle.std.specs.Prelude.{◌≡◌, ◌+◌, Some, length};
ghost use Rattle.pp_syntax.specs.declared.tree.Stmt.{Stmt};
ghost use Rattle.catalog_semantics.specs.declared.catalog.Resource.{Resource};
ghost use Rattle.catalog_semantics.specs.declared.state.State.{State};
ghost use Rattle.catalog_semantics.specs.Sites.{Definition, Site};
ghost use Rattle.catalog_semantics.specs.States.{Effect};
ghost use Rattle.catalog_semantics.specs.Declaring.{class_runs, parents_of};
ghost use Rattle.pp_declared_bodies.specs.Beginning.{class_goes};
ghost use Rattle.pp_declared_bodies.specs.Parents.{nearest_first, turned};

/// A class runs as it begins, its statements run, and it ends.
pub fn classes_begin_and_end()
    ensures { (run : Stmt → Effect) (d : Definition) (r : Resource) (s : State) → class_runs (Some run) d r s ≡ class_goes run d r s }
{}

/// The parents that aren't declared yet, from the topmost, are those from the nearest, turned around.
pub fn parents_go_from_the_top()
    ensures { (site : Site) (s : State) (d : Definition) → parents_of site s d ≡ turned (nearest_first (length site.classes + 1) site s d) }
{}
