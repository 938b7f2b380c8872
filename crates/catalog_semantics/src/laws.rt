//! Laws of catalogs, as functions that do nothing.

ghost use Rattle.std.specs.Prelude.{◌≡◌, ◌↔◌, ◌≤◌, ℕ, true, false, ◌&&◌, Option};
ghost use Rattle.std.specs.Prelude.{not, if◌then◌else◌, List, map, slice_get, Some, None, Ok, Err};
ghost use Rattle.rh_base.specs.declared.fault.Refusal.{Refusal};
ghost use Rattle.host_limits.specs.declared.limits.Limits.{Limits};
ghost use Rattle.pp_syntax.specs.declared.tree.Item.{Item};
ghost use Rattle.pp_syntax.specs.declared.tree.Manifest.{Manifest};
ghost use Rattle.std.specs.List.{flat_map};
ghost use Rattle.pp_syntax.specs.declared.tree.Stmt.{Stmt};
ghost use Rattle.pp_syntax.specs.declared.tree.Stmt.TheVariants as stmt;
ghost use Rattle.pp_syntax.specs.declared.tree.Expr.{Expr};
ghost use Rattle.pp_syntax.specs.declared.tree.Func.{Func};
ghost use Rattle.pp_syntax.specs.declared.tree.Operand.{Operand};
ghost use Rattle.pp_syntax.specs.declared.tree.Arrow.{Arrow};
ghost use Rattle.pp_syntax.specs.declared.tree.Arm.{Arm};
ghost use Rattle.pp_syntax.specs.declared.tree.CaseArm.{CaseArm};
ghost use Rattle.pp_value.specs.declared.value.Ref.{Ref};
ghost use Rattle.pp_value.specs.declared.value.Value.{Value};
ghost use Rattle.pp_value.specs.Values.{Pair, value_at};
ghost use Rattle.pp_eval.specs.declared.scope.Scope.{Scope};
ghost use Rattle.pp_eval.specs.Evaluating.{limited};
ghost use Rattle.pp_eval.specs.Scoping.{pairs_in};
ghost use Rattle.pp_data.specs.declared.data.Level.{Level};
ghost use Rattle.pp_data.specs.Lookup.{lookup};
ghost use Rattle.catalog_semantics.specs.declared.catalog.Resource.{Resource};
ghost use Rattle.catalog_semantics.specs.Sites.{Parameter, Definition, Node, Site, node_of, node_block, definition_of, inherits_itself, MeetsTwice};
ghost use Rattle.catalog_semantics.specs.Rooms.{Room, in_block, in_body, has_room_for};
ghost use Rattle.catalog_semantics.specs.States.{State, Default, Effect, in_turn, references_of, is_declared, with_defaults};
ghost use Rattle.catalog_semantics.specs.Declaring.{given_or_else, entering, opened, Bodies, within, body_in, class_ref, class_resource, class_runs, class_included, parents_of};
ghost use Rattle.catalog_semantics.specs.Effects.{assigned, chained, called, first_true, unless_true, selected_block, effect_with};
ghost use Rattle.catalog_semantics.specs.Effects.{block_with, arm_with, options_with, effect_of, effect_at, bodies_at};
ghost use Rattle.catalog_semantics.specs.Catalogs.{main_ended, is_called_for, made_real, state_after, round_limit, IsSettled, Catalog, catalog_of};
ghost use Rattle.catalog_semantics.specs.Frames.{Extends, StandOnce, AgreeOn, AreSound};
ghost use Rattle.catalog_semantics.specs.Filling.{IsFirstTooLarge};
ghost use Rattle.catalog_semantics.specs.Parents.{AreParents};
ghost use Rattle.catalog_semantics.specs.Nesting.{Deeper};

/// A statement only adds: to scopes, resources, holdings, ties, collectors and realizations. It ends in
/// the scope and the body where it began. So do the statements of a block, and so does opening a body, once its scope is entered.
pub fn statements_only_add()
    ensures whole { (site : Site) (x : Stmt) (s t : State) → effect_of site x s ≡ Ok t → Extends s t }
    ensures within { (room : Room) (site : Site) (x : Stmt) (s t : State) → effect_at room site x s ≡ Ok t → Extends s t }
    ensures blocks { (room : Room) (site : Site) (body : List Stmt) (s t : State)
        → in_turn (map (effect_at room site) body) s ≡ Ok t → Extends s t }
    ensures openings { (d : Definition) (r : Resource) (scope : Scope) (s t : State) → opened d r scope s ≡ Ok t
        → Extends (entering scope s) t }
{}

/// What only adds may be followed by what only adds.
pub fn additions_join()
    ensures { (s t u : State) → Extends s t → Extends t u → Extends s u }
{}

/// A statement keeps it that each reference stands once.
pub fn references_stay_apart()
    ensures { (site : Site) (x : Stmt) (s t : State) → effect_of site x s ≡ Ok t → StandOnce (references_of s.resources)
        → StandOnce (references_of t.resources) }
{}

/// In a catalog each reference stands once.
pub fn references_stand_once()
    ensures { (m : Manifest) (facts : Value) (node_name : List ℕ) (data_levels : List Level) (limits : Limits) (c : Catalog)
        → catalog_of m facts node_name data_levels limits ≡ Ok c → StandOnce (references_of c.resources) }
{}

/// A class's body runs only where the class isn't declared yet. What is declared stays so, and to include a class that is
/// declared does nothing.
pub fn bodies_run_once()
    ensures before { (may_run : Option (Stmt → Effect)) (d : Definition) (at : ℕ) (attributes : List Pair) (s t : State)
        → class_runs may_run d (class_resource at d.name attributes) s ≡ Ok t → is_declared (class_ref d.name) s ≡ false }
    ensures stays { (ref : Ref) (s t : State) → Extends s t → is_declared ref s ≡ true → is_declared ref t ≡ true }
    ensures again { (site : Site) (bodies : Bodies) (at : ℕ) (name : List ℕ) (s : State) → is_declared (class_ref name) s ≡ true
        → class_included site bodies at name s ≡ Ok s }
{}

/// Class data whose look-ups agree, under the facts, for every parameter of every class that the manifest defines,
/// give one catalog or one refusal.
pub fn equal_look_ups_give_one_catalog()
    ensures { (m : Manifest) (facts : Value) (node_name : List ℕ) (data_levels others : List Level) (limits : Limits)
        → AgreeOn (lookup data_levels (pairs_in facts)) (lookup others (pairs_in facts)) m.items
        → catalog_of m facts node_name data_levels limits ≡ catalog_of m facts node_name others limits }
{}

/// The rounds end: as many as resources may be declared, and one more, are enough, and further ones change nothing. Then what
/// is called for is real, and nothing is due.
pub fn rounds_end()
    ensures settled { (site : Site) (items : List Item) (facts : Value) (limits : Limits) (t : State)
        → state_after (round_limit limits) site items facts limits ≡ Ok t → IsSettled t }
    ensures enough { (site : Site) (items : List Item) (facts : Value) (limits : Limits) (n : ℕ) → round_limit limits ≤ n
        → state_after n site items facts limits ≡ state_after (round_limit limits) site items facts limits }
{}

/// What more room for open bodies and blocks may change is only that too much was declared.
pub fn nesting_decides_nothing_else()
    ensures { (room more : Room) (site : Site) (x : Stmt) (s : State) → room.bodies ≤ more.bodies → room.levels ≤ more.levels
        → Deeper (effect_at room site x s) (effect_at more site x s) }
{}

/// What a statement does, by what those in it do. Its blocks are one further in, and a body of a class that runs leaves room for
/// one body less and one block less; it runs exactly where there is room for it with its deepest block.
pub fn statements_do_what_they_say()
    ensures nested { (room : Room) (site : Site) (body : List Stmt)
        → body_in (bodies_at room site) body ≡ (if has_room_for room body then Some (effect_at (in_body room) site) else None) }
    ensures further { (room : Room) (site : Site) → within (bodies_at room site) ≡ bodies_at (in_block room) site }
    ensures chain { (site : Site) (bodies : Bodies) (at : ℕ) (operands : List Operand) (arrows : List Arrow)
        → effect_with site bodies (stmt.Chain at operands arrows) ≡ chained site bodies at operands arrows }
    ensures assign { (site : Site) (bodies : Bodies) (at : ℕ) (name : List ℕ) (value : Expr)
        → effect_with site bodies (stmt.Assign at name value) ≡ assigned at name value }
    ensures call { (site : Site) (bodies : Bodies) (at : ℕ) (func : Func) (args : List Expr)
        → effect_with site bodies (stmt.Call at func args) ≡ called site bodies at func args }
    ensures if_first { (site : Site) (bodies : Bodies) (at : ℕ) (arms : List Arm) (other : List Stmt)
        → effect_with site bodies (stmt.If at arms other)
        ≡ first_true (map (arm_with site (within bodies)) arms) (block_with site (within bodies) other) }
    ensures unless { (site : Site) (bodies : Bodies) (at : ℕ) (test : Expr) (body other : List Stmt)
        → effect_with site bodies (stmt.Unless at test body other) ≡ unless_true test (block_with site (within bodies) body)
        (block_with site (within bodies) other) }
    ensures case { (site : Site) (bodies : Bodies) (at : ℕ) (value : Expr) (arms : List CaseArm)
        → effect_with site bodies (stmt.Case at value arms)
        ≡ selected_block value (flat_map (options_with site (within bodies)) arms) }
{}

/// Of a parameter the given value wins over that from class data, and this over the default.
pub fn given_values_win()
    ensures given { (r : Resource) (p : Parameter) (x : Value) (s : State) → given_or_else r p (Some x) s ≡ Ok x }
    ensures data { (r : Resource) (p : Parameter) (x : Value) (s : State) → p.from_data ≡ Some x
        → given_or_else r p None s ≡ limited r.at x }
{}

/// An attribute that a resource has wins over a default.
pub fn attributes_win_over_defaults()
    ensures { (defaults : List Default) (r : Resource) (name : List ℕ) (x : Value) → value_at name r.attrs ≡ Some x
        → value_at name (with_defaults defaults r).attrs ≡ Some x }
{}

/// The parents that run before a class are those that aren't declared yet, each once, and each ahead of what inherits it.
pub fn parents_go_ahead()
    ensures { (site : Site) (s : State) (d : Definition) (line : List Definition) → inherits_itself site.classes d ≡ false
        → parents_of site s d ≡ Ok line → AreParents site s d line }
{}

/// Where the main code ends every resource has the defaults of its type, or the first is refused with which the attributes are too
/// large.
pub fn defaults_take_hold()
    ensures filled { (s t : State) → main_ended s ≡ Ok t
        → t ≡ record s { main_has_ended = true; resources = map (with_defaults s.defaults) s.resources } }
    ensures refused { (s : State) (e : Refusal) → main_ended s ≡ Err e → IsFirstTooLarge s.defaults s.resources e }
{}

/// The block of the node's name wins over that of `default`.
pub fn named_nodes_win()
    ensures { (site : Site) (n : Node) → node_of (Some site.node_name) site.nodes ≡ Some n → node_block site ≡ Some n }
{}

/// A round makes real exactly the virtual resources that a collector matches or a realization names.
pub fn rounds_make_real()
    ensures { (s : State) (r : Resource) → (made_real s r).is_virtual ≡ (r.is_virtual && not (is_called_for s r)) }
{}

/// Where each reference stands once, a reference has one place.
pub fn references_have_one_place()
    ensures { (refs : List Ref) (i j : ℕ) (r : Ref) → StandOnce refs → slice_get refs i ≡ Some r → slice_get refs j ≡ Some r → i ≡ j }
{}

/// In a catalog no attribute holds an opaque value, a metaparameter's value is references, and a plain resource is of a built-in type.
pub fn catalogs_are_sound()
    ensures { (m : Manifest) (facts : Value) (node_name : List ℕ) (data_levels : List Level) (limits : Limits) (c : Catalog)
        → catalog_of m facts node_name data_levels limits ≡ Ok c → AreSound c.resources }
{}

/// A class is refused for its parents exactly where their chain meets a class twice.
pub fn circles_are_refused()
    ensures { (classes : List Definition) (d : Definition) → definition_of d.name classes ≡ Some d
        → (inherits_itself classes d ≡ true) ↔ MeetsTwice classes d }
{}
