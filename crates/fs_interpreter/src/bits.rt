//! What the interpreter computes with.

ghost use Rattle.std.specs.Prelude.{◌==◌, not, ◌&&◌, if◌then◌else◌, IfOk};
ghost use Rattle.fs_interpreter.specs.Meanings.{Grows, IsBit, IsCode};

use rh_base::NoMemory;

/// Truth values and numbers to compute with: those themselves, or wires that tell them once the inputs are known.
pub trait Bits: Drop {
    ghost use Rattle.fs_interpreter.specs.Meanings.{Meanings};

    /// What stands for a truth value.
    type Bit: Copy + Drop;

    /// What stands for a number.
    type Code: Drop;

    /// Which bits and codes are its own, and what each means under a valuation.
    ghost meanings: { Self → Meanings Self.Bit Self.Code };

    /// A bit that means this, whatever the inputs are.
    fn constant(&mut self, b: bool) -> Result<Self::Bit, NoMemory>
        ensures gives { IfOk result (IsBit (meanings self.new) (λ v. b)) }
        ensures grows { Grows (meanings self.old) (meanings self.new) };

    /// The opposite of a bit.
    fn not(&mut self, a: &Self::Bit) -> Result<Self::Bit, NoMemory>
        requires { (meanings self.old).owns a.now }
        ensures gives { IfOk result (IsBit (meanings self.new) (λ v. not ((meanings self.old).bit v a.now))) }
        ensures grows { Grows (meanings self.old) (meanings self.new) };

    /// Whether both bits hold.
    fn and(&mut self, a: &Self::Bit, b: &Self::Bit) -> Result<Self::Bit, NoMemory>
        requires a { (meanings self.old).owns a.now }
        requires b { (meanings self.old).owns b.now }
        ensures gives { IfOk result (IsBit (meanings self.new) (λ v. (meanings self.old).bit v a.now && (meanings self.old).bit v b.now)) }
        ensures grows { Grows (meanings self.old) (meanings self.new) };

    /// The one where the condition holds, else the other.
    fn mux(&mut self, c: &Self::Bit, a: &Self::Bit, b: &Self::Bit) -> Result<Self::Bit, NoMemory>
        requires c { (meanings self.old).owns c.now }
        requires a { (meanings self.old).owns a.now }
        requires b { (meanings self.old).owns b.now }
        ensures gives { IfOk result
            (IsBit (meanings self.new)
            (λ v. if (meanings self.old).bit v c.now then (meanings self.old).bit v a.now else
            (meanings self.old).bit v b.now)) }
        ensures grows { Grows (meanings self.old) (meanings self.new) };

    /// A code that means this number, whatever the inputs are.
    fn code(&mut self, n: u64) -> Result<Self::Code, NoMemory>
        ensures gives { IfOk result (IsCode (meanings self.new) (λ v. n)) }
        ensures grows { Grows (meanings self.old) (meanings self.new) };

    /// The one where the condition holds, else the other.
    fn pick(
        &mut self,
        c: &Self::Bit,
        a: &Self::Code,
        b: &Self::Code,
    ) -> Result<Self::Code, NoMemory>
        requires c { (meanings self.old).owns c.now }
        requires a { (meanings self.old).owns_code a.now }
        requires b { (meanings self.old).owns_code b.now }
        ensures gives { IfOk result
            (IsCode (meanings self.new)
            (λ v. if (meanings self.old).bit v c.now then (meanings self.old).code v a.now else
            (meanings self.old).code v b.now)) }
        ensures grows { Grows (meanings self.old) (meanings self.new) };

    /// Whether the two mean one number.
    fn same(&mut self, a: &Self::Code, b: &Self::Code) -> Result<Self::Bit, NoMemory>
        requires a { (meanings self.old).owns_code a.now }
        requires b { (meanings self.old).owns_code b.now }
        ensures gives { IfOk result
            (IsBit (meanings self.new) (λ v. (meanings self.old).code v a.now == (meanings self.old).code v b.now)) }
        ensures grows { Grows (meanings self.old) (meanings self.new) };
}
