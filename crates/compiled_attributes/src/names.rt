//! Names, in the order of their bytes.

ghost use Rattle.std.specs.Prelude.{◌≡◌};
ghost use Rattle.std.specs.Cmp.{eq_by_cmp_equiv, partial_equiv_from_equiv, partial_order_from_total};
ghost use Rattle.std.specs.Cmp.Lexicographic.{slice_cmp, nat_list_cmp_total};
ghost use Rattle.std.specs.Ordering.{nat_cmp, as_partial_cmp, eq_by_cmp};
ghost use Rattle.std.specs.Prelude.{refl};

use rh_base::Text;
use std::cmp::Ordering;
use std::marker::Model;

/// A text, ordered by its bytes.
#[derive(Debug, Drop)]
pub(crate) struct Name {
    text: Text,
}

impl Model for Name {
    ghost use Rattle.std.specs.Prelude.{List, ℕ};

    ghost Value = { List ℕ };

    ghost view = { λ n. n.text };
}

impl PartialEq for Name {
    ghost eq = { eq_by_cmp (slice_cmp nat_cmp) };

    ghost laws = { partial_equiv_from_equiv (eq_by_cmp_equiv nat_list_cmp_total) };

    fn eq(&self, other: &Name) -> bool {
        self.text.as_str().cmp(other.text.as_str()) == Ordering::Equal
    }
}

impl Eq for Name {
    ghost laws = { eq_by_cmp_equiv nat_list_cmp_total };
}

impl PartialOrd for Name {
    ghost partial_cmp = { as_partial_cmp (slice_cmp nat_cmp) };

    ghost laws = { partial_order_from_total nat_list_cmp_total };

    fn partial_cmp(&self, other: &Name) -> Option<Ordering> {
        Some(self.cmp(other))
    }
}

impl Ord for Name {
    ghost cmp = { slice_cmp nat_cmp };

    ghost total = { nat_list_cmp_total };

    ghost matches_partial_cmp = { λ a b. refl };

    ghost matches_eq = { λ a b. refl };

    fn cmp(&self, other: &Name) -> Ordering {
        self.text.as_str().cmp(other.text.as_str())
    }
}

impl Name {
    ghost use Rattle.std.specs.Prelude.{◌≡◌};

    pub(crate) fn of(text: Text) -> Name
        ensures { result ≡ text }
    {
        Name { text }
    }

    pub(crate) fn into_text(self) -> Text
        ensures { result ≡ self }
    {
        let Name { text } = self;
        text
    }
}
