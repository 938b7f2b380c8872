//! Paths that begin other paths.

ghost use Rattle.std.specs.Prelude.{◌≡◌, ◌↔◌, IsTrue};
ghost use Rattle.fs_semantics.specs.Disjoint.{IsAncestor, AreDisjoint};
ghost use Rattle.fs_lang.specs.Fronts.{is_front, is_disjoint, is_disjoint_from_all, are_disjoint};

use crate::Path;
use rh_base::Text;

fn is_front(p: &[Text], q: &[Text]) -> bool
    ensures { result ≡ is_front p.now q.now }
{
    let mut front = p;
    let mut rest = q;
    while let Some((s, front_more)) = front.split_first() {
        let Some((r, rest_more)) = rest.split_first() else {
            return false;
        };
        if s.as_str() != r.as_str() {
            return false;
        }
        front = front_more;
        rest = rest_more;
    }
    true
}

/// Whether the second begins with the first and goes on.
pub fn is_proper_front(p: &[Text], q: &[Text]) -> bool
    ensures { IsTrue result ↔ IsAncestor p.now q.now }
{
    p.len() < q.len() && is_front(p, q)
}

fn is_disjoint(p: &Path, q: &Path) -> bool
    ensures { result ≡ is_disjoint p.now q.now }
{
    let above = is_front(p.segments(), q.segments());
    let below = is_front(q.segments(), p.segments());
    !above && !below
}

fn is_disjoint_from_all(p: &Path, paths: &[Path]) -> bool
    ensures { result ≡ is_disjoint_from_all p.now paths.now }
{
    for q in paths {
        if !is_disjoint(p, q) {
            return false;
        }
    }
    true
}

fn test_all(paths: &[Path]) -> bool
    ensures { result ≡ are_disjoint paths.now }
{
    let mut rest = paths;
    while let Some((p, others)) = rest.split_first() {
        if !is_disjoint_from_all(p, others) {
            return false;
        }
        rest = others;
    }
    true
}

/// Whether no path is another one or above it.
pub fn are_disjoint(paths: &[Path]) -> bool
    ensures { IsTrue result ↔ AreDisjoint paths.now }
{
    test_all(paths)
}
