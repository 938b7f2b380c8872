//! The sizes of attributes.

ghost use Rattle.std.specs.Prelude.{◌≡◌, ◌-◌, ◌^◌, min, filter};
ghost use Rattle.catalog_semantics.specs.States.{size_of_attributes, lacks};

use pp_value::{Pairs, Value, size};
use rh_base::Text;

/// The size of all values; where it is larger than the greatest u64, that.
pub fn size_of_attributes(attributes: &[(Text, Value)]) -> u64
    ensures { result ≡ min (size_of_attributes attributes.now) (2 ^ 64 - 1) }
{
    let mut total = 0u64;
    for pair in attributes {
        total = total.saturating_add(size(&pair.1));
    }
    total
}

/// The size of the values of those pairs whose names aren't there; where it is larger than the greatest u64, that.
pub fn size_of_lacking(attributes: &Pairs, pairs: &[(Text, Value)]) -> u64
    ensures { result ≡ min (size_of_attributes (filter (lacks attributes.now) pairs.now)) (2 ^ 64 - 1) }
{
    let mut total = 0u64;
    for pair in pairs {
        if attributes.find(pair.0.as_str()).is_none() {
            total = total.saturating_add(size(&pair.1));
        }
    }
    total
}
