//! What a test looks at.

ghost use Rattle.std.specs.Prelude.{◌≡◌, OnOk};
ghost use Rattle.fs_lang.specs.Meaning.{test_of};
ghost use Rattle.effect_sets.specs.Footprints.{joined, test_footprint};
ghost use Rattle.effect_sets.specs.Members.{members};
ghost use Rattle.effect_sets.specs.Telling.{found_footprint};

use crate::found::{Found, look, look_below};
use fs_lang::{Path, Test};
use rh_base::NoMemory;
use std::alloc::Global;
use std::collections::BTreeSet;

/// What a test looks at.
#[cycle(looked)]
#[tactic(auto, using(crate::proofs::WalkLaws::same_found, fs_lang::specs::Meaning::test_of_not, fs_lang::specs::Meaning::test_of_and, fs_lang::specs::Meaning::test_of_or))]
pub(crate) fn look_for(
    alloc: Global,
    test: &Test,
    sure: &BTreeSet<Path>,
    found: &mut Found,
) -> Result<(), NoMemory>
    ensures { OnOk result (found_footprint found.new ≡ joined (found_footprint found.old) (test_footprint (test_of test.now) (members sure.now))) }
{
    match test {
        Test::True | Test::False => Ok(()),
        Test::Not(a) => look_for(alloc, a.get(), sure, found),
        Test::And(a, b) => look_for_both(alloc, a.get(), b.get(), sure, found),
        Test::Or(a, b) => look_for_both(alloc, a.get(), b.get(), sure, found),
        Test::IsFile(p) => look(alloc, found, p, sure),
        Test::IsLink(p) => look(alloc, found, p, sure),
        Test::IsDir(p) => look(alloc, found, p, sure),
        Test::IsEmpty(p) => look_below(alloc, found, p, sure),
        Test::IsNone(p) => look(alloc, found, p, sure),
    }
}

#[cycle(looked)]
fn look_for_both(
    alloc: Global,
    a: &Test,
    b: &Test,
    sure: &BTreeSet<Path>,
    found: &mut Found,
) -> Result<(), NoMemory>
    ensures { OnOk result (found_footprint found.new ≡ joined (found_footprint found.old)
        (joined (test_footprint (test_of a.now) (members sure.now))
        (test_footprint (test_of b.now) (members sure.now)))) }
{
    look_for(alloc, a, sure, found)?;
    look_for(alloc, b, sure, found)
}
