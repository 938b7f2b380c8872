//! Where a comparison with an opaque value is refused.

ghost use Rattle.std.specs.Prelude.{◌≡◌};
ghost use Rattle.pp_eval.specs.Evaluation.{blamed};

use pp_value::{Value, has_opaque};

/// What refuses a comparison with an opaque value.
#[derive(Clone, Copy, Debug)]
pub enum Blame {
    /// The selector at this place.
    Selector(u32),
    /// Of a `case` its value at this place, if that holds the opaque one, or else the option.
    Case(u32),
}

/// The place where a comparison of a value with the option at a place is refused.
pub fn blamed(blame: Blame, value: &Value, option: u32) -> u32
    ensures { result ≡ blamed blame value.now option }
{
    match blame {
        Blame::Selector(at) => at,
        Blame::Case(at) => { if has_opaque(value) { at } else { option } }
    }
}
