//! What keeps a tree from being read.
ghost use Rattle.std.specs.Prelude.{◌≡◌};
ghost use Rattle.pp_readers.specs.declared.misread.Misread.TheVariants.{Memory};

use rh_base::NoMemory;

/// Why no tree was read.
#[derive(Clone, Copy, Debug, PartialEq, Eq)]
pub enum Misread {
    /// The tokens from this index on can't go on as they do.
    Form(usize),
    Memory(NoMemory),
}

impl From<NoMemory> for Misread {
    ghost from_gives = { λ m e. e ≡ Memory m };

    fn from(m: NoMemory) -> Self {
        Misread::Memory(m)
    }
}

/// A tree and the index of the token behind it, or why there is none.
pub type Read<T> = Result<(T, usize), Misread>;
