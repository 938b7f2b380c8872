//! The laws on pruning, and on pairs.

ghost use Rattle.std.specs.Prelude.{◌≡◌, ℕ, Bool, List, ◌++◌, map, length, slice_index_or};
ghost use Rattle.std.specs.List.{AllByRecursion, Contains};
ghost use Rattle.fs_semantics.specs.Programs.{Program, Id};
ghost use Rattle.fs_semantics.specs.Changes.{IsProper, CommuteFrom, Commutes};
ghost use Rattle.fs_semantics.specs.Orders.{Told, up_from, IsLinearExtension, IsDeterministic};
ghost use Rattle.sure_folders.specs.Folders.{nowhere, IsTreeWith};
ghost use Rattle.sure_folders.specs.Before.{IsSureBeforeEither};
ghost use Rattle.commute_prune.specs.Doubtful.{AreApartWhereSure, AreDoubtful};
ghost use Rattle.commute_prune.specs.Pruning.{Leads, Prunes, AreSome, EndsAsKept};
ghost use Rattle.sure_folders.specs.Pruning.{Move, firsts, lasts, chosen, between};

use effect_sets::apart_programs;
use sure_folders::{apart_where_sure, sure_before};

/// The moves of a pruning are determined, and lead to what is kept, which is some of all. Where the kept programs are
/// deterministic, all are; an allowed order of the kept ones, completed by what goes first and what goes last, is one of all;
/// and each allowed order of all ends as one that is completed so.
pub fn pruning()
    ensures leads { (es : List Program) (before : ℕ → ℕ → Bool) (moves : List Move) (ks kept : List ℕ)
        → Prunes es (Told before) moves ks kept → Leads es (Told before) moves ks kept }
    ensures one { (es : List Program) (before : ℕ → ℕ → Bool) (moves others : List Move) (ks kept left : List ℕ)
        → Prunes es (Told before) moves ks kept → Prunes es (Told before) others ks left
        → (moves ≡ others) × (kept ≡ left) }
    ensures some { (es : List Program) (before : ℕ → ℕ → Bool) (moves : List Move) (kept : List ℕ)
        → Leads es (Told before) moves (up_from 0 (length es)) kept → AreSome (length es) kept }
    ensures enough { (es : List Program) → AllByRecursion IsProper es → (before : ℕ → ℕ → Bool) (moves : List Move) (kept : List ℕ)
        → Leads es (Told before) moves (up_from 0 (length es)) kept
        → IsDeterministic (chosen es kept) (between (Told before) kept) → IsDeterministic es (Told before) }
    ensures completed { (es : List Program) → AllByRecursion IsProper es → (before : ℕ → ℕ → Bool) (moves : List Move) (kept : List ℕ)
        → Leads es (Told before) moves (up_from 0 (length es)) kept
        → (o : List ℕ) → IsLinearExtension (length (chosen es kept)) (between (Told before) kept) o
        → IsLinearExtension (length es) (Told before) (firsts moves ++ (map (λ i. slice_index_or kept i 0) o ++ lasts moves)) }
    ensures rearranged { (es : List Program) → AllByRecursion IsProper es → (before : ℕ → ℕ → Bool) (moves : List Move) (kept : List ℕ)
        → Leads es (Told before) moves (up_from 0 (length es)) kept
        → (o : List ℕ) → IsLinearExtension (length es) (Told before) o → EndsAsKept es (Told before) moves kept o }
{
    apart_programs();
}

/// Programs that are apart, each where the folders stand that are sure before it, commute from the trees in which these stand. So
/// where those of each doubtful pair commute, as where there is none, the order doesn't matter.
pub fn sure_pairs()
    ensures commute { (es : List Program) (before : ℕ → ℕ → Bool) → AllByRecursion IsProper es → (a b : ℕ) → AreApartWhereSure es before a b
        → CommuteFrom (IsTreeWith (IsSureBeforeEither nowhere es (Told before) a b)) (slice_index_or es a Id) (slice_index_or es b Id) }
    ensures enough { (es : List Program) (before : ℕ → ℕ → Bool) → AllByRecursion IsProper es → (pairs : List (ℕ × ℕ))
        → AreDoubtful es before pairs
        → ((a b : ℕ) → Contains pairs (a, b) → Commutes (slice_index_or es a Id) (slice_index_or es b Id))
        → IsDeterministic es (Told before) }
{
    apart_where_sure();
    sure_before();
}
