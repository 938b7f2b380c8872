//! Reading the text of a path, piece by piece between the slashes.

ghost use Rattle.std.specs.Prelude.{◌≡◌, ◌↔◌, ◌∷◌, ◌++◌, MatchOption, IsTrue};
ghost use Rattle.fs_semantics.specs.FileTree.{IsSegment};
ghost use Rattle.fs_lang.specs.Reading.{is_good, is_segment, piece_of, Adds, begins_with_slash, HasNoSlash, pieces, segments_of, PathGives};

use crate::path::PathFault;
use rh_base::{NoMemory, Seq, Text};
use std::alloc::Global;

fn is_good(piece: &str) -> bool
    ensures { result ≡ is_good piece.now }
{
    let is_dot = piece == ".";
    let is_dots = piece == "..";
    let has_zero = piece.as_bytes().contains(&0);
    !is_dot && !is_dots && !has_zero
}

/// Whether a text is there, has no slash, and is good.
fn is_whole(text: &str) -> bool
    ensures { result ≡ is_segment text.now }
{
    let is_empty = text.is_empty();
    let has_slash = text.as_bytes().contains(&47);
    let good = is_good(text);
    !is_empty && !has_slash && good
}

/// Whether a text is a segment.
pub fn is_segment(text: &str) -> bool
    ensures { IsTrue result ↔ IsSegment text.now }
{
    is_whole(text)
}

fn add_piece(alloc: Global, segments: &mut Seq<Text>, piece: &str) -> Result<(), PathFault>
    ensures { Adds result (piece_of piece.now) segments.old segments.new }
{
    if piece.is_empty() {
        return Ok(());
    }
    if !is_good(piece) {
        return Err(PathFault::Bad);
    }
    let text = String::from_str(alloc, piece).map_err(|_| PathFault::Memory(NoMemory))?;
    segments.push(Text::from_string(text))?;
    Ok(())
}

/// Whether the first byte is a slash.
pub fn begins_with_slash(text: &str) -> bool
    ensures { result ≡ begins_with_slash text.now }
{
    matches!(text.as_bytes(), [b'/', ..])
}

/// What stands before the first slash, and behind it.
#[tactic(auto, using(crate::proofs::Pieces::cut_at_slash))]
fn cut(text: &str) -> Option<(&str, &str)>
    ensures { MatchOption result (HasNoSlash text.now) (λ x. (text.now ≡ x.0.now ++ 47 ∷ x.1.now) × HasNoSlash x.0.now) }
{
    text.split_once('/')
}

/// The segments among the pieces between the slashes.
#[tactic(auto, using(crate::proofs::Pieces::next_piece, crate::proofs::Pieces::bad_piece, crate::proofs::Pieces::last_piece, crate::proofs::Pieces::bad_last))]
pub fn segments_of(alloc: Global, text: &str) -> Result<Seq<Text>, PathFault>
    ensures { PathGives result (segments_of (pieces text.now)) }
{
    let mut segments = Seq::new(alloc);
    let mut rest = text;
    while let Some((piece, more)) = cut(rest) {
        add_piece(alloc, &mut segments, piece)?;
        rest = more;
    }
    add_piece(alloc, &mut segments, rest)?;
    Ok(segments)
}
