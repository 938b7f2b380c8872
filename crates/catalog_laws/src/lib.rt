//! Laws of the catalogs of manifests, as functions that do nothing.
#![tactic(auto)]

ghost use Rattle.std.specs.Prelude.{◌≡◌, ℕ, List, Ok};
ghost use Rattle.host_limits.specs.declared.limits.Limits.{Limits};
ghost use Rattle.pp_syntax.specs.declared.tree.Manifest.{Manifest};
ghost use Rattle.pp_value.specs.declared.value.Value.{Value};
ghost use Rattle.pp_data.specs.declared.data.Level.{Level};
ghost use Rattle.catalog_semantics.specs.Catalogs.{Catalog, catalog_of};
ghost use Rattle.catalog_laws.specs.Containers.{AreHeld, HoldClasses};

/// What holds a resource is a class or a defined resource of the catalog, and so is what contains a class.
pub fn holders_are_containers()
    ensures holders { (m : Manifest) (facts : Value) (node_name : List ℕ) (data_levels : List Level) (limits : Limits) (c : Catalog)
        → catalog_of m facts node_name data_levels limits ≡ Ok c → AreHeld c.resources }
    ensures holdings { (m : Manifest) (facts : Value) (node_name : List ℕ) (data_levels : List Level) (limits : Limits) (c : Catalog)
        → catalog_of m facts node_name data_levels limits ≡ Ok c → HoldClasses c.resources c.holdings }
{}
