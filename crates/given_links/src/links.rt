//! What a path is read as.

ghost use Rattle.std.specs.Prelude.{◌≡◌, ◌++◌, IfOk, IfSome, option_map};
ghost use Rattle.std.specs.List.{AllByRecursion};
ghost use Rattle.fs_semantics.specs.FileTree.{IsSegment};
ghost use Rattle.given_links.specs.Reading.{behind, once, read_as};

use fs_lang::{Path, PathFault};
use rh_base::{NoMemory, Text};
use std::alloc::Global;

/// A link at a path: what lies there or below lies at its target or below that.
#[derive(Debug, Drop)]
pub struct GivenLink {
    pub path: Path,
    pub target: Path,
}

/// What is left of a path behind the segments with which it begins, if it does.
fn behind<'a>(front: &[Text], path: &'a [Text]) -> Option<&'a [Text]>
    requires proper { AllByRecursion IsSegment path.now }
    ensures rest { option_map (λ r. r.now) result ≡ behind front.now path.now }
    ensures proper { IfSome result (λ r. AllByRecursion IsSegment r.now) }
{
    let mut left = front;
    let mut rest = path;
    while let Some((s, left_more)) = left.split_first() {
        let Some((r, rest_more)) = rest.split_first() else {
            return None;
        };
        if s.as_str() != r.as_str() {
            return None;
        }
        left = left_more;
        rest = rest_more;
    }
    Some(rest)
}

/// The path with these segments behind it.
fn with_segments(alloc: Global, path: &Path, segments: &[Text]) -> Result<Path, NoMemory>
    requires { AllByRecursion IsSegment segments.now }
    ensures { IfOk result (λ p. p ≡ path.now ++ segments.now) }
{
    let mut whole = path.copy(alloc)?;
    for segment in segments {
        whole = match whole.child(alloc, segment.as_str()) {
            Ok(next) => next,
            Err(PathFault::Bad) => unreachable!(),
            Err(PathFault::Memory(m)) => return Err(m),
        };
    }
    Ok(whole)
}

/// The path behind one link, if it is at a link's path or below.
fn once(alloc: Global, links: &[GivenLink], path: &Path) -> Result<Option<Path>, NoMemory>
    ensures { IfOk result (λ found. option_map (λ p. p) found ≡ once links.now path.now) }
{
    for link in links {
        if let Some(rest) = behind(link.path.segments(), path.segments()) {
            let moved = with_segments(alloc, &link.target, rest)?;
            return Ok(Some(moved));
        }
    }
    Ok(None)
}

/// What a path is read as: where it is a link's path or lies below it, what the same place at or below the target is read as;
/// else itself.
#[tactic(auto, using(crate::proofs::ReadLaws::next_turn))]
pub fn read_path(alloc: Global, links: &[GivenLink], path: &Path) -> Result<Path, NoMemory>
    ensures { IfOk result (λ p. p ≡ read_as links.now path.now) }
{
    let mut read = path.copy(alloc)?;
    for _turn in 0..path.segments().len() {
        match once(alloc, links, &read)? {
            Some(next) => read = next,
            None => return Ok(read),
        }
    }
    Ok(read)
}
