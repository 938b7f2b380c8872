//! Copies of tests and programs.

ghost use Rattle.std.specs.Prelude.{◌≡◌, IfOk};
ghost use Rattle.fs_lang.specs.declared.program.Test.TheVariants.{Not, And, Or};
ghost use Rattle.fs_lang.specs.declared.program.Program.TheVariants.{If};

use crate::program::{Entry, Program, Test};
use rh_base::{Boxed, NoMemory, Seq};
use std::alloc::Global;

#[cycle(copied_test)]
fn boxed_test(alloc: Global, test: &Test) -> Result<Boxed<Test>, NoMemory>
    ensures { IfOk result (λ b. b ≡ test.now) }
{
    let copy = copy_test(alloc, test)?;
    Boxed::new(alloc, copy)
}

#[cycle(copied_test)]
fn negation(alloc: Global, a: &Test) -> Result<Test, NoMemory>
    ensures { IfOk result (λ test. test ≡ Not a.now) }
{
    Ok(Test::Not(boxed_test(alloc, a)?))
}

#[cycle(copied_test)]
fn conjunction(alloc: Global, a: &Test, b: &Test) -> Result<Test, NoMemory>
    ensures { IfOk result (λ test. test ≡ And a.now b.now) }
{
    let left = boxed_test(alloc, a)?;
    Ok(Test::And(left, boxed_test(alloc, b)?))
}

#[cycle(copied_test)]
fn disjunction(alloc: Global, a: &Test, b: &Test) -> Result<Test, NoMemory>
    ensures { IfOk result (λ test. test ≡ Or a.now b.now) }
{
    let left = boxed_test(alloc, a)?;
    Ok(Test::Or(left, boxed_test(alloc, b)?))
}

#[cycle(copied_test)]
#[tactic(auto, using(crate::specs::Meaning::test_of_not, crate::specs::Meaning::test_of_and, crate::specs::Meaning::test_of_or))]
pub(crate) fn copy_test(alloc: Global, test: &Test) -> Result<Test, NoMemory>
    ensures { IfOk result (λ copy. copy ≡ test.now) }
{
    match test {
        Test::True => Ok(Test::True),
        Test::False => Ok(Test::False),
        Test::Not(a) => negation(alloc, a.get()),
        Test::And(a, b) => conjunction(alloc, a.get(), b.get()),
        Test::Or(a, b) => disjunction(alloc, a.get(), b.get()),
        Test::IsFile(p) => Ok(Test::IsFile(p.copy(alloc)?)),
        Test::IsLink(p) => Ok(Test::IsLink(p.copy(alloc)?)),
        Test::IsDir(p) => Ok(Test::IsDir(p.copy(alloc)?)),
        Test::IsEmpty(p) => Ok(Test::IsEmpty(p.copy(alloc)?)),
        Test::IsNone(p) => Ok(Test::IsNone(p.copy(alloc)?)),
    }
}

#[cycle(program)]
fn boxed_program(alloc: Global, program: &Program) -> Result<Boxed<Program>, NoMemory>
    ensures { IfOk result (λ b. b ≡ program.now) }
{
    let copy = copy_program(alloc, program)?;
    Boxed::new(alloc, copy)
}

#[cycle(program)]
fn copy_steps(alloc: Global, programs: &[Program]) -> Result<Seq<Program>, NoMemory>
    ensures { IfOk result (λ copies. copies ≡ programs.now) }
{
    let mut copies = Seq::new(alloc);
    for program in programs {
        copies.push(copy_program(alloc, program)?)?;
    }
    Ok(copies)
}

#[cycle(program)]
fn choice(alloc: Global, a: &Test, e: &Program, f: &Program) -> Result<Program, NoMemory>
    ensures { IfOk result (λ program. program ≡ If a.now e.now f.now) }
{
    let test = copy_test(alloc, a)?;
    let left = boxed_program(alloc, e)?;
    Ok(Program::If(test, left, boxed_program(alloc, f)?))
}

#[cycle(program)]
#[tactic(auto, using(crate::specs::Meaning::program_of_if, crate::specs::Meaning::program_of_steps))]
fn copy_program(alloc: Global, program: &Program) -> Result<Program, NoMemory>
    ensures { IfOk result (λ copy. copy ≡ program.now) }
{
    match program {
        Program::Id => Ok(Program::Id),
        Program::Err => Ok(Program::Err),
        Program::Mkdir(p) => Ok(Program::Mkdir(p.copy(alloc)?)),
        Program::Creat(p, content) => Ok(Program::Creat(p.copy(alloc)?, content.copy(alloc)?)),
        Program::Link(p, target) => Ok(Program::Link(p.copy(alloc)?, target.copy(alloc)?)),
        Program::Rm(p) => Ok(Program::Rm(p.copy(alloc)?)),
        Program::Cp(p, q) => Ok(Program::Cp(p.copy(alloc)?, q.copy(alloc)?)),
        Program::Steps(es) => Ok(Program::Steps(copy_steps(alloc, es.as_slice())?)),
        Program::If(a, e, f) => choice(alloc, a, e.get(), f.get()),
    }
}

impl Program {
    /// An equal program.
    pub fn copy(&self, alloc: Global) -> Result<Program, NoMemory>
        ensures { IfOk result (λ copy. copy ≡ self.now) }
    {
        copy_program(alloc, self)
    }
}

impl Entry {
    /// An equal entry.
    pub fn copy(&self, alloc: Global) -> Result<Entry, NoMemory>
        ensures { IfOk result (λ copy. copy ≡ self.now) }
    {
        match self {
            Entry::Folder => Ok(Entry::Folder),
            Entry::File(content) => Ok(Entry::File(content.copy(alloc)?)),
            Entry::Link(target) => Ok(Entry::Link(target.copy(alloc)?)),
        }
    }
}
