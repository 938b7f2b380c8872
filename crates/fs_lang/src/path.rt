//! Paths.

ghost use Rattle.std.specs.Prelude.{◌≡◌, IfOk};
ghost use Rattle.fs_lang.specs.PathText.{spelled};

use crate::fronts::is_proper_front;
use crate::reading::{begins_with_slash, is_segment, segments_of};
use rh_base::limits::{PATH_BYTES, PATH_SEGMENTS};
use rh_base::{NoMemory, Seq, Text};
use std::alloc::Global;
use std::marker::Model;

/// A path, which contracts see as the list of its segments. The root has none.
#[derive(Debug, Drop)]
pub struct Path {
    segments: Seq<Text>,
}

impl Model for Path {
    ghost use Rattle.std.specs.Prelude.{List, ℕ};
    ghost use Rattle.std.specs.List.{AllByRecursion};
    ghost use Rattle.fs_semantics.specs.FileTree.{IsSegment};

    ghost Value = { List (List ℕ) };

    ghost view = { λ p. p.segments };

    ghost invariant = { λ p. AllByRecursion IsSegment p.segments };
}

/// The text is no path, or memory was refused.
#[derive(Clone, Copy, Debug, PartialEq, Eq)]
pub enum PathFault {
    Bad,
    Memory(NoMemory),
}

impl From<NoMemory> for PathFault {
    ghost use Rattle.std.specs.Prelude.{◌≡◌};
    ghost use Rattle.fs_lang.specs.declared.path.PathFault.TheVariants.{Memory};

    ghost from_gives = { λ m e. e ≡ Memory m };

    fn from(m: NoMemory) -> Self {
        PathFault::Memory(m)
    }
}

fn copy_all(alloc: Global, segments: &[Text]) -> Result<Seq<Text>, NoMemory>
    ensures { IfOk result (λ copies. copies ≡ segments.now) }
{
    let mut copies = Seq::new(alloc);
    for segment in segments {
        copies.push(segment.copy(alloc)?)?;
    }
    Ok(copies)
}

/// Each segment after a slash.
fn spelled_out(alloc: Global, segments: &[Text]) -> Result<Text, NoMemory>
    ensures { IfOk result (λ text. text ≡ spelled segments.now) }
{
    let mut text = Text::new(alloc);
    for segment in segments {
        text.push("/")?;
        text.push(segment.as_str())?;
    }
    Ok(text)
}

impl Path {
    ghost use Rattle.std.specs.Prelude.{◌≡◌, ◌↔◌, ◌≤◌, ◌++◌, ◌∷◌, [], length, take, IsTrue, IfOk, IfErr};
    ghost use Rattle.std.specs.List.{AllByRecursion};
    ghost use Rattle.fs_semantics.specs.FileTree.{Path as Segments, IsSegment, parent};
    ghost use Rattle.fs_semantics.specs.Disjoint.{IsAncestor};
    ghost use Rattle.fs_lang.specs.PathText.{IsPathText, IfBad, spelled, path_text};
    ghost use Rattle.fs_lang.specs.Managed.{IsReserved, MayBeManaged};

    /// The path that a text spells.
    #[tactic(auto, using(crate::proofs::PathLaws::path_again))]
    pub fn read(alloc: Global, text: &str) -> Result<Path, PathFault>
        ensures found { IfOk result (IsPathText text.now) }
        // A text spells one path at most.
        ensures only { (p : Segments) → IsPathText text.now p → IfOk result (λ q. q ≡ p) }
        // It is bad exactly where no path is spelled.
        ensures bad { IfErr result (λ e. IfBad e ((p : Segments) → IsPathText text.now p → ⊥)) }
    {
        if text.len() > PATH_BYTES || !begins_with_slash(text) {
            return Err(PathFault::Bad);
        }
        let segments = segments_of(alloc, text)?;
        if segments.len() > PATH_SEGMENTS {
            return Err(PathFault::Bad);
        }
        Ok(Path { segments })
    }

    /// The root, which has no segments.
    pub fn root(alloc: Global) -> Result<Path, NoMemory>
        ensures { IfOk result (λ path. path ≡ []) }
    {
        Ok(Path {
            segments: Seq::new(alloc),
        })
    }

    /// The path one segment further down. It has no limit of length.
    pub fn child(&self, alloc: Global, segment: &str) -> Result<Path, PathFault>
        ensures found { IfOk result (λ path. path ≡ self.now ++ segment.now ∷ []) }
        // It is bad exactly where the text is no segment.
        ensures proper { IfOk result (λ path. IsSegment segment.now) }
        ensures bad { IfErr result (λ e. IfBad e (IsSegment segment.now → ⊥)) }
    {
        if !is_segment(segment) {
            return Err(PathFault::Bad);
        }
        let mut segments = copy_all(alloc, self.segments())?;
        let last = String::from_str(alloc, segment).map_err(|_| PathFault::Memory(NoMemory))?;
        segments.push(Text::from_string(last))?;
        Ok(Path { segments })
    }

    /// The path of the first n segments.
    pub fn front(&self, alloc: Global, n: usize) -> Result<Path, NoMemory>
        requires { n ≤ length self.now }
        ensures { IfOk result (λ path. path ≡ take n self.now) }
    {
        let segments = copy_all(alloc, &self.segments()[..n])?;
        Ok(Path { segments })
    }

    /// The path without its last segment; the root is its own parent.
    #[tactic(auto, using(crate::proofs::ParentLaws::parent_is_front))]
    pub fn parent(&self, alloc: Global) -> Result<Path, NoMemory>
        ensures { IfOk result (λ path. path ≡ parent self.now) }
    {
        self.front(alloc, self.segments().len().saturating_sub(1))
    }

    /// Each segment after a slash; of the root one slash.
    pub fn text(&self, alloc: Global) -> Result<Text, NoMemory>
        ensures { IfOk result (λ text. text ≡ path_text self.now) }
    {
        if self.segments().is_empty() {
            return Ok(Text::from_string(String::from_str(alloc, "/")?));
        }
        spelled_out(alloc, self.segments())
    }

    /// An equal path.
    pub fn copy(&self, alloc: Global) -> Result<Path, NoMemory>
        ensures { IfOk result (λ path. path ≡ self.now) }
    {
        let segments = copy_all(alloc, self.segments())?;
        Ok(Path { segments })
    }

    /// The segments in order, from the root down.
    pub fn segments(&self) -> &[Text]
        ensures value { result.now ≡ self.now }
        ensures segments { AllByRecursion IsSegment self.now }
    {
        self.segments.as_slice()
    }

    /// Whether the other path lies below this one.
    pub fn is_ancestor(&self, other: &Path) -> bool
        ensures { IsTrue result ↔ IsAncestor self.now other.now }
    {
        is_proper_front(self.segments(), other.segments())
    }

    /// Whether the path is at or under the folder of the program's own marks.
    pub fn is_reserved(&self) -> bool
        ensures { IsTrue result ↔ IsReserved self.now }
    {
        match self.segments().first() {
            None => false,
            Some(first) => first.as_str() == ".rehearsal",
        }
    }

    /// Whether a resource may manage what stands at the path.
    pub fn may_be_managed(&self) -> bool
        ensures { IsTrue result ↔ MayBeManaged self.now }
    {
        let is_root = self.segments().is_empty();
        let reserved = self.is_reserved();
        !is_root && !reserved
    }
}
