//! Which manifest a refusal speaks of.

ghost use Rattle.std.specs.Prelude.{◌≡◌};
ghost use Rattle.reports.specs.Sides.{refused_in};

use rh_base::{Fault, NoMemory, Refusal};

/// The manifest that a refusal speaks of.
#[derive(Clone, Copy, Debug, PartialEq, Eq)]
pub enum Side {
    /// The input; it stands too for files that two manifests share, and for both manifests together.
    Input,
    /// The manifest that the input is compared with.
    Other,
}

/// Why nothing is told: of which manifest there is a refusal, or that memory was refused.
#[derive(Debug, Drop)]
pub enum Untold {
    Refused(Side, Refusal),
    Memory(NoMemory),
}

/// The fault, as one of this manifest.
pub fn refused_in(side: Side, fault: Fault) -> Untold
    ensures { result ≡ refused_in side fault }
{
    match fault {
        Fault::Refused(refusal) => Untold::Refused(side, refusal),
        Fault::Memory(m) => Untold::Memory(m),
    }
}

impl From<Fault> for Untold {
    ghost use Rattle.std.specs.Prelude.{◌≡◌};
    ghost use Rattle.reports.specs.Sides.{refused_in};
    ghost use Rattle.reports.specs.declared.sides.Side.TheVariants.{Input};

    ghost from_gives = { λ e u. u ≡ refused_in Input e };

    fn from(fault: Fault) -> Self {
        refused_in(Side::Input, fault)
    }
}

impl From<NoMemory> for Untold {
    ghost use Rattle.std.specs.Prelude.{◌≡◌};
    ghost use Rattle.reports.specs.declared.sides.Untold.TheVariants.{Memory};

    ghost from_gives = { λ m u. u ≡ Memory m };

    fn from(m: NoMemory) -> Self {
        Untold::Memory(m)
    }
}
