//! Literals by their indexes, in MiniSat's way: variable k, counted from 0, is the literal 2 k, and its opposite is 2 k + 1. So arrays
//! over literals are indexed by literals, those over variables by half of them. Variable k is the one that formulas and logs call k + 1.

ghost use Rattle.std.specs.Prelude.{◌≡◌};
ghost use Rattle.unit_propagation.specs.Literals.{opposite};

/// The literal of the same variable with the other sign.
#[inline(always)]
pub fn opposite(literal: u32) -> u32
    ensures { result ≡ opposite literal }
{
    if literal % 2 == 0 {
        literal + 1
    } else {
        literal - 1
    }
}
