//! Lists of differences in the order of their paths' texts.

ghost use Rattle.std.specs.Prelude.{◌≡◌, ◌≤◌, ◌++◌, ◌∷◌, length, take, drop, MatchOption, OnOk};
ghost use Rattle.tree_differences.specs.declared.placing.Difference.{Difference as D};
ghost use Rattle.tree_differences.specs.Listed.{placed};

use fs_lang::{Entry, Path};
use rh_base::{NoMemory, Text};
use std::cmp::Ordering;

/// A path at which two trees differ, its text, and what stands there in the first and in the second.
#[derive(Drop)]
pub struct Difference<'a> {
    pub path: &'a Path,
    pub text: Text,
    pub first: Option<&'a Entry>,
    pub second: Option<&'a Entry>,
}

/// The place in the list of a path with this text, unless it is there.
fn place_of(list: &[Difference], text: &Text) -> Option<usize>
    ensures { MatchOption result
        ((d : D) → d.text ≡ text.now → placed d list.now ≡ list.now)
        (λ i. (i ≤ length list.now) × ((d : D) → d.text ≡ text.now → placed d list.now ≡ take i list.now ++ d ∷ drop i list.now)) }
{
    for (i, d) in list.iter().enumerate() {
        match d.text.as_str().cmp(text.as_str()) {
            Ordering::Less => {}
            Ordering::Equal => return None,
            Ordering::Greater => return Some(i),
        }
    }
    Some(list.len())
}

/// Puts a difference in its place, unless its path is there.
pub(crate) fn place<'a>(
    list: &mut Vec<Difference<'a>>,
    difference: Difference<'a>,
) -> Result<(), NoMemory>
    ensures { OnOk result (list.new.items ≡ placed difference.entry list.old.items) }
{
    let Some(i) = place_of(list, &difference.text) else {
        return Ok(());
    };
    list.insert(i, difference)?;
    Ok(())
}
