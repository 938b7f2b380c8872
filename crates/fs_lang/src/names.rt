//! Names as segments.

ghost use Rattle.std.specs.Prelude.{◌≡◌, ◌↔◌, ◌∷◌, ◌++◌, ◌<◌, MatchOption, IsTrue, IfOk, IfErr};
ghost use Rattle.fs_semantics.specs.FileTree.{IsSegment};
ghost use Rattle.fs_lang.specs.PathText.{IfBad};
ghost use Rattle.fs_lang.specs.Reading.{HasNo};
ghost use Rattle.fs_lang.specs.Names.{IsName, replaced, is_dots, segment_of};

use crate::path::PathFault;
use rh_base::limits::NAME_BYTES;
use rh_base::{NoMemory, Text};
use std::alloc::Global;

/// What stands ahead of the first c, and behind it.
#[tactic(auto, using(crate::proofs::NameLaws::cut_at))]
fn cut(text: &str, c: char) -> Option<(&str, &str)>
    requires { c < 128 }
    ensures { MatchOption result (HasNo c text.now) (λ x. (text.now ≡ x.0.now ++ c ∷ x.1.now) × HasNo c x.0.now) }
{
    text.split_once(c)
}

/// The text with another one in the place of each c.
#[tactic(auto, using(crate::proofs::NameLaws::next_replaced, crate::proofs::NameLaws::last_replaced))]
fn replaced(alloc: Global, text: &str, c: char, other: &str) -> Result<Text, NoMemory>
    requires { c < 128 }
    ensures { IfOk result (λ t. t ≡ replaced c other.now text.now) }
{
    let mut made = Text::new(alloc);
    let mut rest = text;
    while let Some((front, tail)) = cut(rest, c) {
        made.push(front)?;
        made.push(other)?;
        rest = tail;
    }
    made.push(rest)?;
    Ok(made)
}

fn is_dots(name: &str) -> bool
    ensures { result ≡ is_dots name.now }
{
    let is_dot = name == ".";
    let is_two = name == "..";
    is_dot || is_two
}

fn segment_of(alloc: Global, name: &str) -> Result<Text, NoMemory>
    ensures { IfOk result (λ segment. segment ≡ segment_of name.now) }
{
    if is_dots(name) {
        return replaced(alloc, name, '.', "%2E");
    }
    let escaped = replaced(alloc, name, '%', "%25")?;
    replaced(alloc, escaped.as_str(), '/', "%2F")
}

/// Whether a text may be a name.
fn is_name(name: &str) -> bool
    ensures { IsTrue result ↔ IsName name.now }
{
    let is_there = !name.is_empty();
    let is_short = name.len() <= NAME_BYTES;
    let has_zero = name.as_bytes().contains(&0);
    is_there && is_short && !has_zero
}

/// The one segment of a name.
pub fn segment(alloc: Global, name: &str) -> Result<Text, PathFault>
    ensures found { IfOk result (λ s. s ≡ segment_of name.now) }
    ensures proper { IfOk result IsSegment }
    // It is bad exactly where the text is no name.
    ensures named { IfOk result (λ s. IsName name.now) }
    ensures bad { IfErr result (λ e. IfBad e (IsName name.now → ⊥)) }
{
    if !is_name(name) {
        return Err(PathFault::Bad);
    }
    Ok(segment_of(alloc, name)?)
}
