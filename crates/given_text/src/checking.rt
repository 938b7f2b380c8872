//! Whether links stand in the way of one another, or of a folder.

ghost use Rattle.std.specs.Prelude.{◌≡◌, ◌↔◌, IsTrue, IfOk, map};
ghost use Rattle.std.specs.List.{AllByRecursion};
ghost use Rattle.fs_semantics.specs.Disjoint.{AreDisjoint};
ghost use Rattle.given_links.specs.Links.{IsWithin, IsBehindNone, AreLinks};
ghost use Rattle.given_text.specs.Form.{IsSound};

use crate::given::Given;
use fs_lang::{Path, are_disjoint};
use given_links::GivenLink;
use rh_base::{NoMemory, Seq};
use std::alloc::Global;

/// Whether a path is another one or lies below it.
fn is_within(p: &Path, q: &Path) -> bool
    ensures { IsTrue result ↔ IsWithin p.now q.now }
{
    let same = p == q;
    let below = q.is_ancestor(p);
    same || below
}

/// Whether a path lies neither at a link's path nor below one.
fn is_behind_none(p: &Path, links: &[GivenLink]) -> bool
    ensures { IsTrue result ↔ IsBehindNone p.now links.now }
{
    for link in links {
        if is_within(p, &link.path) {
            return false;
        }
    }
    true
}

/// Whether none of these paths does.
fn are_behind_none(paths: &[Path], links: &[GivenLink]) -> bool
    ensures { IsTrue result ↔ AllByRecursion (λ p. IsBehindNone p links.now) paths.now }
{
    for path in paths {
        if !is_behind_none(path, links) {
            return false;
        }
    }
    true
}

/// Whether none of their targets does.
fn targets_are_behind_none(of: &[GivenLink], links: &[GivenLink]) -> bool
    ensures { IsTrue result ↔ AllByRecursion (λ l. IsBehindNone l.target links.now) of.now }
{
    for link in of {
        if !is_behind_none(&link.target, links) {
            return false;
        }
    }
    true
}

/// The paths of links.
pub fn link_paths(alloc: Global, links: &[GivenLink]) -> Result<Seq<Path>, NoMemory>
    ensures { IfOk result (λ paths. paths ≡ map (λ l. l.path) links.now) }
{
    let mut paths = Seq::new(alloc);
    for link in links {
        paths.push(link.path.copy(alloc)?)?;
    }
    Ok(paths)
}

/// Whether links and folders leave one another in peace.
pub fn is_sound(alloc: Global, given: &Given) -> Result<bool, NoMemory>
    ensures { IfOk result (λ b. IsTrue b ↔ IsSound given.now) }
{
    let links = given.links.as_slice();
    let paths = link_paths(alloc, links)?;
    let apart = are_disjoint(paths.as_slice());
    let targets = targets_are_behind_none(links, links);
    let folders = are_behind_none(given.folders.as_slice(), links);
    Ok(apart && targets && folders)
}
