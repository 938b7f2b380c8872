//! The canonical text of a manifest.
ghost use Rattle.std.specs.Prelude.{◌≡◌, ◌++◌, ℕ, List, IfOk, OnOk, OnErr};
ghost use Rattle.pp_print.specs.Words.{clings, holds, text_of};
ghost use Rattle.pp_print.specs.Canonical.{IsSpelled, canonical, ReadsBack};

use crate::item::items;
use crate::laws::canonical_text_is_read;
use crate::words::{Word, Words};
use pp_syntax::{Kind, Manifest};
use rh_base::NoMemory;
use std::alloc::Global;

fn clings(kind: Kind) -> bool
    ensures { result ≡ clings kind }
{
    matches!(kind, Kind::Tight)
}

fn holds(kind: Kind) -> bool
    ensures { result ≡ holds kind }
{
    matches!(kind, Kind::DqOpen | Kind::HoleEnd)
}

/// Appends words with one space between two of them, but in a few places.
fn push_text(text: &mut Vec<u8>, words: &[Word]) -> Result<(), NoMemory>
    ensures { OnOk result (text.new.items ≡ text.old.items ++ text_of words.now) }
{
    let mut held = true;
    for w in words {
        if !held && !clings(w.kind) {
            text.push(b' ')?;
        }
        text.extend_from_slice(w.text.as_slice())?;
        held = holds(w.kind);
    }
    Ok(())
}

/// The canonical text of a manifest.
pub(crate) fn canonical(alloc: Global, manifest: &Manifest) -> Result<Vec<u8>, NoMemory>
    ensures { IfOk result (λ text. text.items ≡ canonical manifest.now) }
{
    let mut words = Words::new(alloc);
    items(&mut words, manifest.items.as_slice())?;
    let mut text = Vec::new(alloc);
    push_text(&mut text, words.as_slice())?;
    Ok(text)
}

/// Appends the canonical text of a manifest.
pub fn print(alloc: Global, manifest: &Manifest, into: &mut Vec<u8>) -> Result<(), NoMemory>
    requires { IsSpelled manifest.now }
    ensures ok { OnOk result (into.new.items ≡ into.old.items ++ canonical manifest.now) }
    ensures err { OnErr result (into.new.items ≡ into.old.items) }
    // What is appended spells the manifest again, places aside.
    ensures reads { OnOk result ((text : List ℕ) → into.new.items ≡ into.old.items ++ text → ReadsBack text manifest.now) }
{
    canonical_text_is_read();
    let text = canonical(alloc, manifest)?;
    into.extend_from_slice(&text)?;
    Ok(())
}
