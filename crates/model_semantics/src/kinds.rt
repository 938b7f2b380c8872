//! The built-in types, what their attributes accept, and why a resource has no program.

use rh_base::{NoMemory, Text};

/// A built-in type that has a model.
#[derive(Clone, Copy, Debug, PartialEq, Eq)]
pub enum Kind {
    File,
    Package,
    User,
    Group,
    Service,
    Cron,
    /// `ssh_authorized_key`
    Key,
}

/// Which values an attribute accepts.
#[derive(Clone, Copy, Debug, PartialEq, Eq)]
pub enum Accepts {
    Anything,
    Text,
    TextOrNumber,
    TextOrTexts,
    /// A text, a number, or a list of texts and numbers.
    Times,
    /// A truth value, or its text.
    Truth,
    /// A false truth value, or its text.
    OnlyFalse,
    /// The true truth value itself.
    OnlyTrue,
}

/// Why a resource has no program.
#[derive(Debug, Drop)]
pub enum Cause {
    /// Its type has no model.
    Unmodelled,
    /// `ensure` or `enable` has a value that the tables lack.
    State,
    /// An attribute isn't accepted, or is missing.
    Attribute(Text),
    /// A text is no path or no name.
    Name,
    /// A path is at or under `/.rehearsal`, or something else stands there on every host.
    Reserved,
    /// The package isn't listed.
    Unlisted,
    /// An earlier resource of its type has its modelled name.
    Twice,
}

/// A resource has no program, or memory is refused.
#[derive(Debug, Drop)]
pub enum ModelFault {
    Because(Cause),
    Memory(NoMemory),
}

impl From<NoMemory> for ModelFault {
    ghost use Rattle.std.specs.Prelude.{◌≡◌};
    ghost use Rattle.model_semantics.specs.declared.kinds.ModelFault.TheVariants.{Memory};

    ghost from_gives = { λ m e. e ≡ Memory m };

    fn from(m: NoMemory) -> Self {
        ModelFault::Memory(m)
    }
}
