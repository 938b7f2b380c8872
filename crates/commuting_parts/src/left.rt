//! Whether a program leaves a test as it is.

ghost use Rattle.std.specs.Prelude.{IsTrue};
ghost use Rattle.fs_lang.specs.Meaning.{test_of};
ghost use Rattle.effect_sets.specs.Footprints.{nowhere, looking, looking_below, test_footprint, IsClearOf};
ghost use Rattle.effect_sets.specs.Members.{sets_of};

use crate::apart::both;
use effect_sets::Footprint;
use fs_lang::{Path, Test};

/// Whether nothing is changed at the path.
fn is_clear_of_path(f: &Footprint, p: &Path) -> bool
    ensures { IsTrue result → IsClearOf (sets_of f.now) (looking p.now nowhere) }
{
    let written = f.writes().contains(p);
    let made = f.folders().contains(p);
    both(!written, !made)
}

/// Whether nothing is changed at the path or right below it.
fn is_clear_of_folder(f: &Footprint, p: &Path) -> bool
    ensures { IsTrue result → IsClearOf (sets_of f.now) (looking_below p.now nowhere) }
{
    let at = is_clear_of_path(f, p);
    let below = f.parents().contains(p);
    both(at, !below)
}

#[cycle(left)]
fn leaves_both(f: &Footprint, a: &Test, b: &Test) -> bool
    ensures first { IsTrue result → IsClearOf (sets_of f.now) (test_footprint (test_of a.now) nowhere) }
    ensures second { IsTrue result → IsClearOf (sets_of f.now) (test_footprint (test_of b.now) nowhere) }
{
    let first = leaves_test(f, a);
    let second = leaves_test(f, b);
    first && second
}

/// Whether nothing is changed that the test looks at.
#[cycle(left)]
#[tactic(auto, using(fs_lang::specs::Meaning::test_of_not, fs_lang::specs::Meaning::test_of_and, fs_lang::specs::Meaning::test_of_or))]
pub(crate) fn leaves_test(f: &Footprint, test: &Test) -> bool
    ensures { IsTrue result → IsClearOf (sets_of f.now) (test_footprint (test_of test.now) nowhere) }
{
    match test {
        Test::True | Test::False => true,
        Test::Not(a) => leaves_test(f, a.get()),
        Test::And(a, b) => leaves_both(f, a.get(), b.get()),
        Test::Or(a, b) => leaves_both(f, a.get(), b.get()),
        Test::IsFile(p) => is_clear_of_path(f, p),
        Test::IsLink(p) => is_clear_of_path(f, p),
        Test::IsDir(p) => is_clear_of_path(f, p),
        Test::IsEmpty(p) => is_clear_of_folder(f, p),
        Test::IsNone(p) => is_clear_of_path(f, p),
    }
}
