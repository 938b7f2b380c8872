//! Smaller trees that show the same, found by replays alone: each part goes for good without which the runs show the same. So
//! what is left is as true a counterexample as the one that it was made of; that nothing more could go isn't said. Parts at and
//! above given folders aren't tried, so that they cost none of the trials; that the given folders stand is tested besides.

ghost use Rattle.std.specs.Prelude.{◌≡◌, ◌↔◌, ℕ, Bool, length, map, IsTrue, IfOk};
ghost use Rattle.fs_semantics.specs.Orders.{Told, IsCounterexample, IsSecondRunCounterexample};
ghost use Rattle.fs_lang.specs.Meaning.{program_of};
ghost use Rattle.given_hosts.specs.Given.{Stand};
ghost use Rattle.smaller_witness.specs.Smaller.{IsWithin, AreBelow, IsAnswerable, Shows};

use crate::given::{all_stand, holds_given};
use crate::question::{Question, shows};
use crate::removal::without;
use fs_lang::{Outcome, Path, Program, Tree};
use rh_base::NoMemory;
use rh_base::limits::PATH_SEGMENTS;
use std::alloc::Global;

/// So many parts are tried, with two replays each.
const TRIALS: usize = 128;

/// The paths of a tree, those of fewest segments first: so a part before the parts of it. Those without which a given folder can't
/// stand aren't among them.
fn parts_of<'a>(alloc: Global, tree: &'a Tree, given: &[Path]) -> Result<Vec<&'a Path>, NoMemory> {
    let mut parts = Vec::new(alloc);
    for depth in 0..PATH_SEGMENTS {
        for (p, _) in tree.entries() {
            if p.segments().len() == depth + 1 && !holds_given(p, given) {
                parts.push(p)?;
            }
        }
    }
    Ok(parts)
}

/// Whether a tree shows the same, and the given folders stand in it.
fn may_stay(
    alloc: Global,
    programs: &[Program],
    question: Question,
    tree: &Tree,
    given: &[Path],
) -> Result<bool, NoMemory>
    requires { IsAnswerable (length programs.now) question }
    ensures { IfOk result (λ stays. IsTrue stays
        ↔ (Shows (map program_of programs.now) question.entry tree.now × Stand given.now tree.now)) }
{
    let stand = all_stand(tree, given);
    let shows = shows(alloc, programs, question, tree)?;
    Ok(shows && stand)
}

/// The tree without the part at a path, if it shows the same and the given folders stand in it, else the tree.
fn tried(
    alloc: Global,
    programs: &[Program],
    question: Question,
    tree: Tree,
    p: &Path,
    given: &[Path],
) -> Result<Tree, NoMemory>
    requires { IsAnswerable (length programs.now) question }
    ensures shows { IfOk result (λ t. Shows (map program_of programs.now) question.entry tree
        → Shows (map program_of programs.now) question.entry t) }
    ensures stand { IfOk result (λ t. Stand given.now tree → Stand given.now t) }
    ensures within { IfOk result (λ t. IsWithin t tree) }
{
    if tree.get(p).is_none() {
        return Ok(tree);
    }
    let Outcome::Ended(less) = without(alloc, &tree, p)? else {
        return Ok(tree);
    };
    if may_stay(alloc, programs, question, &less, given)? {
        Ok(less)
    } else {
        Ok(tree)
    }
}

/// A tree with as few parts as were found not to be needed.
#[tactic(auto, using(crate::proofs::SmallerLaws::within_within, crate::proofs::SmallerLaws::within_itself))]
fn shrunk(
    alloc: Global,
    programs: &[Program],
    question: Question,
    tree: &Tree,
    given: &[Path],
) -> Result<Tree, NoMemory>
    requires { IsAnswerable (length programs.now) question }
    ensures shows { IfOk result (λ t. Shows (map program_of programs.now) question.entry tree.now
        → Shows (map program_of programs.now) question.entry t) }
    ensures stand { IfOk result (λ t. Stand given.now tree.now → Stand given.now t) }
    ensures within { IfOk result (λ t. IsWithin t tree.now) }
{
    let parts = parts_of(alloc, tree, given)?;
    let mut smaller = tree.copy(alloc)?;
    let mut trials = TRIALS;
    for p in &parts {
        if trials == 0 {
            return Ok(smaller);
        }
        let stands = smaller.get(p).is_some();
        trials = trials.saturating_sub(usize::from(stands));
        smaller = tried(alloc, programs, question, smaller, p, given)?;
    }
    Ok(smaller)
}

/// A tree from which the two orders end apart as they do from the one given, without parts that this doesn't need. The given
/// folders stand in it where they stand in that tree.
pub fn smaller_apart(
    alloc: Global,
    programs: &[Program],
    left: &[u32],
    right: &[u32],
    tree: &Tree,
    given: &[Path],
) -> Result<Tree, NoMemory>
    requires left { AreBelow (length programs.now) left.now }
    requires right { AreBelow (length programs.now) right.now }
    ensures shows { IfOk result (λ t. (before : ℕ → ℕ → Bool)
        → IsCounterexample (map program_of programs.now) (Told before) tree.now left.now right.now
        → IsCounterexample (map program_of programs.now) (Told before) t left.now right.now) }
    ensures stand { IfOk result (λ t. Stand given.now tree.now → Stand given.now t) }
    ensures within { IfOk result (λ t. IsWithin t tree.now) }
{
    let smaller = shrunk(alloc, programs, Question::Apart(left, right), tree, given)?;
    smaller.is_tree();
    Ok(smaller)
}

/// A tree from which a second run in the order changes what the first left, as from the one given, without parts that this
/// doesn't need. The given folders stand in it where they stand in that tree.
pub fn smaller_again(
    alloc: Global,
    programs: &[Program],
    order: &[u32],
    tree: &Tree,
    given: &[Path],
) -> Result<Tree, NoMemory>
    requires { AreBelow (length programs.now) order.now }
    ensures shows { IfOk result (λ t. (before : ℕ → ℕ → Bool)
        → IsSecondRunCounterexample (map program_of programs.now) (Told before) tree.now order.now
        → IsSecondRunCounterexample (map program_of programs.now) (Told before) t order.now) }
    ensures stand { IfOk result (λ t. Stand given.now tree.now → Stand given.now t) }
    ensures within { IfOk result (λ t. IsWithin t tree.now) }
{
    let smaller = shrunk(alloc, programs, Question::Again(order), tree, given)?;
    smaller.is_tree();
    Ok(smaller)
}
