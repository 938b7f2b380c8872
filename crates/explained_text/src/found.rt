//! The words for what stands at a path.

ghost use Rattle.std.specs.Prelude.{◌≡◌, ◌++◌, ◌<◌, length, take, OnOk, IfOk};
ghost use Rattle.json.specs.Print.{quoted};
ghost use Rattle.tree_differences.specs.Listed.{found_of};
ghost use Rattle.explained_text.specs.Words.{cut_at, shortened, found_words};

use fs_lang::Entry;
use rh_base::{NoMemory, Text};
use std::alloc::Global;
use tree_text::quoted;

/// So many bytes of a content or of a target are shown.
pub const SHOWN_BYTES: usize = 60;

/// As many whole characters of a long text as are shown.
#[tactic(auto, using(crate::proofs::CutLaws::cut_is))]
fn front_of(text: &str) -> &str
    requires { SHOWN_BYTES < length text.now }
    ensures { result.now ≡ take (cut_at text.now SHOWN_BYTES) text.now }
{
    let n = text.floor_char_boundary(SHOWN_BYTES);
    &text[..n]
}

fn quoted_text(alloc: Global, text: &str) -> Result<Text, NoMemory>
    ensures { IfOk result (λ shown. shown ≡ quoted text.now) }
{
    let copy = String::from_str(alloc, text)?;
    quoted(alloc, Text::from_string(copy))
}

/// Appends a text, shortened if it is long.
fn push_shortened(alloc: Global, text: &str, into: &mut Text) -> Result<(), NoMemory>
    ensures { OnOk result (into.new ≡ into.old ++ shortened text.now) }
{
    if text.len() <= SHOWN_BYTES {
        let shown = quoted_text(alloc, text)?;
        return into.push(shown.as_str());
    }
    let shown = quoted_text(alloc, front_of(text))?;
    into.push(shown.as_str())?;
    into.push("..")
}

fn push_word(alloc: Global, word: &str, text: &Text, into: &mut Text) -> Result<(), NoMemory>
    ensures { OnOk result (into.new ≡ into.old ++ (word.now ++ shortened text.now)) }
{
    into.push(word)?;
    push_shortened(alloc, text.as_str(), into)
}

/// Appends what stands there.
pub(crate) fn push_found(
    alloc: Global,
    found: Option<&Entry>,
    into: &mut Text,
) -> Result<(), NoMemory>
    ensures { OnOk result (into.new ≡ into.old ++ found_words (found_of found.entry)) }
{
    match found {
        None => into.push("nothing"),
        Some(Entry::Folder) => into.push("folder"),
        Some(Entry::File(content)) => push_word(alloc, "file ", content, into),
        Some(Entry::Link(target)) => push_word(alloc, "link ", target, into),
    }
}
