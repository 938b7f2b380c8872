//! What comes before what in a catalog: the graph of its resources, and the laws about it. The definitions are in `specs/`;
//! each function here does nothing, and its contract is a law that callers may use.
#![tactic(auto)]

ghost use Rattle.std.specs.Prelude.{◌≡◌, ◌<◌, ◌↔◌, ℕ, Bool, List, length};
ghost use Rattle.rh_base.specs.declared.fault.Refusal.{Refusal};
ghost use Rattle.fs_semantics.specs.Orders.{Told, IsLinearExtension};
ghost use Rattle.catalog_semantics.specs.Catalogs.{Catalog};
ghost use Rattle.graph_semantics.specs.Graphs.{Node, IsGraphOf, IsGraphRefusal};
ghost use Rattle.graph_semantics.specs.Allowed.{IsLeft, Tells};

/// An order of the plain resources is allowed exactly where the whole graph, with the starts and ends of classes and of
/// defined resources, allows an order of all nodes that leaves it.
pub fn allowed_orders()
    ensures { (c : Catalog) (plain : List ℕ) (before : ℕ → ℕ → Bool) (test : Node → Node → Bool)
        → IsGraphOf c plain (Told before) → Tells c test
        → (o : List ℕ) → IsLinearExtension (length plain) (Told before) o ↔ IsLeft c plain o }
{}

/// A catalog has one graph at most, and one that has a graph isn't refused.
pub fn one_graph()
    ensures places { (c : Catalog) (plain other : List ℕ) (before after : ℕ → ℕ → Bool)
        → IsGraphOf c plain (Told before) → IsGraphOf c other (Told after) → plain ≡ other }
    ensures pairs { (c : Catalog) (plain : List ℕ) (before after : ℕ → ℕ → Bool) → IsGraphOf c plain (Told before)
        → IsGraphOf c plain (Told after)
        → (i j : ℕ) → i < length plain → j < length plain → Told before i j ↔ Told after i j }
    ensures refusals { (c : Catalog) (plain : List ℕ) (before : ℕ → ℕ → Bool) (r : Refusal)
        → IsGraphOf c plain (Told before) → IsGraphRefusal c r → ⊥ }
{}
