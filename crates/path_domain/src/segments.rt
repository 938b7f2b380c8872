//! A segment that no path has.

ghost use Rattle.std.specs.Prelude.{◌≡◌, ◌||◌, ℕ, List, IsTrue, IfOk, OnOk};
ghost use Rattle.finite_domain.specs.Domains.{is_text_among};
ghost use Rattle.finite_domain.specs.Matters.{has_segment};
ghost use Rattle.finite_domain.specs.Layouts.{other_segment, IsFirstFailure};
ghost use Rattle.path_domain.specs.Segments.{texts_in, with_text};

use fs_lang::Path;
use rh_base::{NoMemory, Text};
use std::alloc::Global;
use std::collections::BTreeSet;

/// One text more, copied where it is new.
fn add_text(alloc: Global, set: &mut BTreeSet<String>, c: &Text) -> Result<(), NoMemory>
    ensures { OnOk result (texts_in set.new ≡ with_text c.now (texts_in set.old)) }
{
    if set.contains(c.as_str()) {
        return Ok(());
    }
    let copy = String::from_str(alloc, c.as_str())?;
    set.insert(copy)?;
    Ok(())
}

fn add_texts(alloc: Global, set: &mut BTreeSet<String>, texts: &[Text]) -> Result<(), NoMemory>
    ensures { OnOk result ((c : List ℕ) → texts_in set.new c ≡ (is_text_among c texts.now || texts_in set.old c)) }
{
    for text in texts {
        add_text(alloc, set, text)?;
    }
    Ok(())
}

/// The segments of these paths.
pub(crate) fn segments_of(
    alloc: Global,
    paths: &BTreeSet<Path>,
) -> Result<BTreeSet<String>, NoMemory>
    ensures { IfOk result (λ set. (c : List ℕ) → texts_in set c ≡ has_segment c paths.now.keys) }
{
    let mut set = BTreeSet::new(alloc);
    for p in paths {
        add_texts(alloc, &mut set, p.segments())?;
    }
    Ok(set)
}

/// The first of `other`, `otherx`, .. that isn't in the set.
pub(crate) fn fresh_segment(alloc: Global, segments: &BTreeSet<String>) -> Result<Text, NoMemory>
    ensures { IfOk result (λ name. (n : ℕ) × (name ≡ other_segment n)
        × IsFirstFailure (λ k. IsTrue (texts_in segments.now (other_segment k))) n) }
{
    let mut name = Text::new(alloc);
    name.push("other")?;
    while segments.contains(name.as_str()) {
        name.push("x")?;
    }
    Ok(name)
}
