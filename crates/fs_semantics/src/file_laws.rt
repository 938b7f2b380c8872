//! Laws on files that are put.

ghost use Rattle.std.specs.Prelude.{ℕ, Bool, List, length};
ghost use Rattle.fs_semantics.specs.Orders.{Told, IsLinearExtension, IsDeterministic, IsIdempotent, Succeeds};
ghost use Rattle.fs_semantics.specs.PlainFiles.{PlainFile, ArePlain, puts};

/// Files that are put at disjoint paths, whatever comes before what: from every tree all orders have one outcome, a second
/// run changes nothing, and where some order is allowed, they succeed from some tree.
pub fn plain_files()
    ensures deterministic { (files : List PlainFile) (before : ℕ → ℕ → Bool) → ArePlain files → IsDeterministic (puts files) (Told before) }
    ensures idempotent { (files : List PlainFile) (before : ℕ → ℕ → Bool) → ArePlain files → IsIdempotent (puts files) (Told before) }
    ensures succeeds { (files : List PlainFile) (before : ℕ → ℕ → Bool) (o : List ℕ) → ArePlain files
        → IsLinearExtension (length (puts files)) (Told before) o → Succeeds (puts files) (Told before) }
{}
