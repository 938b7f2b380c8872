//! The files that stand for edits.

ghost use Rattle.std.specs.Prelude.{◌≡◌, [], ◌∷◌, ◌++◌, ◌<◌, codes, IsTrue, IfOk, MatchOption};
ghost use Rattle.fs_lang.specs.Reading.{HasNo};
ghost use Rattle.fs_lang.specs.Names.{replaced, is_dots, segment_of};
ghost use Rattle.fs_lang.specs.PathText.{path_text};
ghost use Rattle.model_semantics.specs.Words.{mark_path};
ghost use Rattle.assumed_models.specs.Behaviors.{edit_mark};

use catalog_semantics::Resource;
use fs_lang::Path;
use model_names::{below, top};
use pp_value::shown_ref;
use rh_base::{NoMemory, Text};
use std::alloc::Global;

/// What stands ahead of the first c, and behind it.
#[tactic(auto, using(fs_lang::proofs::NameLaws::cut_at))]
fn cut(text: &str, c: char) -> Option<(&str, &str)>
    requires { c < 128 }
    ensures { MatchOption result (HasNo c text.now) (λ x. (text.now ≡ x.0.now ++ c ∷ x.1.now) × HasNo c x.0.now) }
{
    text.split_once(c)
}

/// The text with another one in the place of each c.
#[tactic(auto, using(fs_lang::proofs::NameLaws::next_replaced, fs_lang::proofs::NameLaws::last_replaced))]
fn replaced(alloc: Global, text: &str, c: char, other: &str) -> Result<Text, NoMemory>
    requires { c < 128 }
    ensures { IfOk result (λ t. t ≡ replaced c other.now text.now) }
{
    let mut made = Text::new(alloc);
    let mut rest = text;
    while let Some((front, tail)) = cut(rest, c) {
        made.push(front)?;
        made.push(other)?;
        rest = tail;
    }
    made.push(rest)?;
    Ok(made)
}

/// The segment of a text, which has no limit of length.
fn segment_of(alloc: Global, name: &str) -> Result<Text, NoMemory>
    ensures { IfOk result (λ segment. segment ≡ segment_of name.now) }
{
    let is_dot = name == ".";
    let is_two = name == "..";
    if is_dot || is_two {
        return replaced(alloc, name, '.', "%2E");
    }
    let escaped = replaced(alloc, name, '%', "%25")?;
    replaced(alloc, escaped.as_str(), '/', "%2F")
}

/// The folder of the marks of edits.
fn edits_folder(alloc: Global) -> Result<Path, NoMemory>
    ensures { IfOk result (λ p. p ≡ mark_path (codes "edit") []) }
{
    let marks = top(alloc, ".rehearsal")?;
    below(alloc, &marks, "edit")
}

/// The folder of the marks of a file's edits.
fn edits_of(alloc: Global, p: &Path) -> Result<Path, NoMemory>
    ensures { IfOk result (λ q. q ≡ mark_path (codes "edit") (segment_of (path_text p.now) ∷ [])) }
{
    let edits = edits_folder(alloc)?;
    let text = p.text(alloc)?;
    let file = segment_of(alloc, text.as_str())?;
    below(alloc, &edits, file.as_str())
}

/// The file that stands for an edit of a file by a resource.
pub fn edit_mark(alloc: Global, r: &Resource, p: &Path) -> Result<Path, NoMemory>
    ensures { IfOk result (λ m. m ≡ edit_mark r.now p.now) }
{
    let edits = edits_of(alloc, p)?;
    let name = shown_ref(alloc, &r.id)?;
    let by = segment_of(alloc, name.as_str())?;
    below(alloc, &edits, by.as_str())
}
