//! Laws of choices, as functions that do nothing.

ghost use Rattle.std.specs.Prelude.{◌≡◌, Bool, true, List, map, Some, Ok};
ghost use Rattle.std.specs.List.{flat_map, AllByRecursion};
ghost use Rattle.pp_eval.specs.Scoping.{Scoped};
ghost use Rattle.pp_syntax.specs.declared.tree.Stmt.{Stmt};
ghost use Rattle.pp_syntax.specs.declared.tree.Expr.{Expr};
ghost use Rattle.pp_syntax.specs.declared.tree.Arm.{Arm, out-Arm};
ghost use Rattle.pp_syntax.specs.declared.tree.CaseArm.{CaseArm, out-CaseArm};
ghost use Rattle.catalog_semantics.specs.declared.state.State.{State};
ghost use Rattle.catalog_semantics.specs.Sites.{Site};
ghost use Rattle.catalog_semantics.specs.Declaring.{Bodies};
ghost use Rattle.catalog_semantics.specs.Effects.{first_true, selected_block, block_with, arm_with, options_with};
ghost use Rattle.pp_declarations.specs.Choosing.{chosen_arm, chosen_option, chosen_runs, option_runs};

/// A condition runs the block that it chooses, and no other.
pub fn conditions_run_one_block()
    ensures { (site : Site) (bodies : Bodies) (arms : List Arm) (other : List Stmt) (s : State)
        → first_true (map (arm_with site bodies) arms) (block_with site bodies other) s ≡ chosen_runs site bodies arms other s }
{}

/// A `case` runs the block that it chooses, if any, and no other.
pub fn cases_run_one_block()
    ensures { (site : Site) (bodies : Bodies) (e : Expr) (arms : List CaseArm) (s : State)
        → selected_block e (flat_map (options_with site bodies) arms) s ≡ option_runs site bodies e arms s }
{}

/// A test that each block passes which stands there is passed by the one that is chosen.
pub fn chosen_blocks_are_own()
    ensures arm { (test : List Stmt → Bool) (s : Scoped) (b : List Stmt) (arms : List Arm) (other : List Stmt)
        → AllByRecursion (λ a. test (out-Arm a).body ≡ true) arms → test other ≡ true
        → chosen_arm s arms other ≡ Ok b → test b ≡ true }
    ensures option { (test : List Stmt → Bool) (s : Scoped) (b : List Stmt) (e : Expr) (arms : List CaseArm)
        → AllByRecursion (λ a. test (out-CaseArm a).body ≡ true) arms
        → chosen_option s e arms ≡ Ok (Some b) → test b ≡ true }
{}
