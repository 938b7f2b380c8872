//! The order of paths, segment by segment, each by its bytes, and how they are hashed.

ghost use Rattle.std.specs.Prelude.{◌≡◌, Some, refl};
ghost use Rattle.std.specs.Cmp.{eq_by_cmp_equiv, partial_equiv_from_equiv, partial_order_from_total};
ghost use Rattle.std.specs.Ordering.{as_partial_cmp, eq_by_cmp};
ghost use Rattle.std.specs.Hash as fed;
ghost use Rattle.std.proofs.Common.{ap};
ghost use Rattle.fs_semantics.specs.FileTree.{path_cmp};
ghost use Rattle.fs_semantics.proofs.Trees.{path_total, path_eq_same};

use crate::Path;
use rh_base::Text;
use std::cmp::Ordering;
use std::hash::{Hash, Hasher};

fn compare(p: &[Text], q: &[Text]) -> Ordering
    ensures { result ≡ path_cmp p.now q.now }
{
    let mut left = p;
    let mut right = q;
    while let Some((s, left_more)) = left.split_first() {
        let Some((r, right_more)) = right.split_first() else {
            return Ordering::Greater;
        };
        let order = s.as_str().cmp(r.as_str());
        if order != Ordering::Equal {
            return order;
        }
        left = left_more;
        right = right_more;
    }
    if right.is_empty() {
        Ordering::Equal
    } else {
        Ordering::Less
    }
}

impl PartialEq for Path {
    ghost eq = { eq_by_cmp path_cmp };

    ghost laws = { partial_equiv_from_equiv (eq_by_cmp_equiv path_total) };

    fn eq(&self, other: &Path) -> bool {
        compare(self.segments(), other.segments()) == Ordering::Equal
    }
}

impl Eq for Path {
    ghost laws = { eq_by_cmp_equiv path_total };
}

/// As the list of the segments is hashed.
impl Hash for Path {
    ghost hash_input = { λ p. fed.slice fed.str p };

    ghost respects_eq = { λ x y h. ap (fed.slice fed.str) (path_eq_same x y h) };

    fn hash<H: Hasher>(&self, state: &mut H) {
        self.segments().hash(state);
    }
}

impl PartialOrd for Path {
    ghost partial_cmp = { as_partial_cmp path_cmp };

    ghost laws = { partial_order_from_total path_total };

    fn partial_cmp(&self, other: &Path) -> Option<Ordering> {
        Some(self.cmp(other))
    }
}

impl Ord for Path {
    ghost cmp = { path_cmp };

    ghost total = { path_total };

    ghost matches_partial_cmp = { λ a b. refl };

    ghost matches_eq = { λ a b. refl };

    fn cmp(&self, other: &Path) -> Ordering {
        compare(self.segments(), other.segments())
    }
}
