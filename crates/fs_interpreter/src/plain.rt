//! Truth values and numbers as they are.

use crate::bits::Bits;
use rh_base::NoMemory;

/// Bits that are truth values, and codes that are numbers.
#[derive(Clone, Copy, Debug)]
pub struct Plain;

impl Bits for Plain {
    type Bit = bool;

    type Code = u64;

    ghost use Rattle.fs_interpreter.specs.Meanings.{plain_meanings};

    ghost meanings = { λ p. plain_meanings };

    fn constant(&mut self, b: bool) -> Result<bool, NoMemory> {
        Ok(b)
    }

    fn not(&mut self, a: &bool) -> Result<bool, NoMemory> {
        Ok(!*a)
    }

    fn and(&mut self, a: &bool, b: &bool) -> Result<bool, NoMemory> {
        let (left, right) = (*a, *b);
        Ok(left && right)
    }

    fn mux(&mut self, c: &bool, a: &bool, b: &bool) -> Result<bool, NoMemory> {
        if *c { Ok(*a) } else { Ok(*b) }
    }

    fn code(&mut self, n: u64) -> Result<u64, NoMemory> {
        Ok(n)
    }

    fn pick(&mut self, c: &bool, a: &u64, b: &u64) -> Result<u64, NoMemory> {
        if *c { Ok(*a) } else { Ok(*b) }
    }

    fn same(&mut self, a: &u64, b: &u64) -> Result<bool, NoMemory> {
        Ok(*a == *b)
    }
}
