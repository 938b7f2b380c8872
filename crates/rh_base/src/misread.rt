//! What keeps a text from being read.

use crate::text::NoMemory;

/// Why a text gives no value.
#[derive(Clone, Copy, Debug, PartialEq, Eq)]
pub enum Misread {
    /// It has another form.
    Form,
    Memory(NoMemory),
}

impl From<NoMemory> for Misread {
    ghost use Rattle.std.specs.Prelude.{◌≡◌};
    ghost use Rattle.rh_base.specs.declared.misread.Misread.TheVariants.{Memory};

    ghost from_gives = { λ m e. e ≡ Memory m };

    fn from(m: NoMemory) -> Self {
        Misread::Memory(m)
    }
}
