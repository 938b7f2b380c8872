//! Why an operation has no result.

ghost use Rattle.std.specs.Prelude.{◌≡◌};
ghost use Rattle.pp_value.specs.declared.fault.ValueFault.TheVariants as fault;
ghost use Rattle.pp_value.specs.Faults.{as_fault};

use rh_base::NoMemory;
use thiserror::Error;

/// Why an operation has no result.
#[derive(Clone, Copy, Debug, PartialEq, Eq, Error)]
pub enum Misfit {
    /// It isn't defined on these values.
    #[error("the operation has no result on these values")]
    Operand,
    /// A whole number leaves 64 bits.
    #[error("a whole number leaves 64 bits")]
    Range,
}

/// Why an operation that makes a value gave none.
#[derive(Clone, Copy, Debug, PartialEq, Eq, Error)]
pub enum ValueFault {
    #[error("the operation has no result on these values")]
    Operand,
    #[error("a whole number leaves 64 bits")]
    Range,
    /// The result exceeds the limits of one value.
    #[error("the value is too large or too deep")]
    Large,
    #[error("out of memory")]
    Memory(NoMemory),
}

impl From<NoMemory> for ValueFault {
    ghost from_gives = { λ m e. e ≡ fault.Memory m };

    fn from(m: NoMemory) -> Self {
        ValueFault::Memory(m)
    }
}

impl From<Misfit> for ValueFault {
    ghost from_gives = { λ m e. e ≡ as_fault m };

    fn from(m: Misfit) -> Self {
        match m {
            Misfit::Operand => ValueFault::Operand,
            Misfit::Range => ValueFault::Range,
        }
    }
}
