//! Second runs of groups of programs that commute where the folders stand that are sure before them: it is enough that each group
//! settles by itself. The definitions are in `specs/`; the function does nothing, and its contract is a law that callers may use.
#![tactic(auto)]

ghost use Rattle.std.specs.Prelude.{ℕ, Bool, List, length};
ghost use Rattle.std.specs.List.{AllByRecursion};
ghost use Rattle.fs_semantics.specs.Programs.{Program};
ghost use Rattle.fs_semantics.specs.Changes.{IsProper};
ghost use Rattle.fs_semantics.specs.Orders.{Told, IsLinearExtension, IsDeterministic, IsIdempotent};
ghost use Rattle.settled_groups.specs.Groups.{in_turn, GroupSettles, GroupsCommute};

/// Where programs are deterministic, the groups of an allowed order settle each by itself, and the programs of one group commute
/// with those of later groups where the folders stand that are sure before them, a second run changes nothing.
pub fn settled_groups()
    ensures idempotent { (es : List Program) (before : ℕ → ℕ → Bool) → AllByRecursion IsProper es → IsDeterministic es (Told before)
        → (groups : List (List ℕ)) → IsLinearExtension (length es) (Told before) (in_turn groups)
        → AllByRecursion (GroupSettles es) groups → GroupsCommute es (Told before) groups → IsIdempotent es (Told before) }
{}
