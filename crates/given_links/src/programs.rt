//! What programs are read as.

ghost use Rattle.std.specs.Prelude.{◌≡◌, map, IfOk};
ghost use Rattle.fs_semantics.specs.Programs.{Not, And, Or, If};
ghost use Rattle.fs_lang.specs.Meaning.{test_of, program_of};
ghost use Rattle.given_links.specs.Reading.{read_as, test_with, program_read_as};

use crate::links::{GivenLink, read_path};
use fs_lang::{Program, Test};
use rh_base::{Boxed, NoMemory, Seq};
use std::alloc::Global;

#[cycle(read_test)]
fn boxed_test(alloc: Global, links: &[GivenLink], test: &Test) -> Result<Boxed<Test>, NoMemory>
    ensures { IfOk result (λ b. test_of b ≡ test_with (read_as links.now) (test_of test.now)) }
{
    let read = read_test(alloc, links, test)?;
    Boxed::new(alloc, read)
}

#[cycle(read_test)]
#[tactic(auto, using(fs_lang::specs::Meaning::test_of_not))]
fn negation(alloc: Global, links: &[GivenLink], a: &Test) -> Result<Test, NoMemory>
    ensures { IfOk result (λ b. test_of b ≡ Not (test_with (read_as links.now) (test_of a.now))) }
{
    Ok(Test::Not(boxed_test(alloc, links, a)?))
}

#[cycle(read_test)]
#[tactic(auto, using(fs_lang::specs::Meaning::test_of_and))]
fn conjunction(alloc: Global, links: &[GivenLink], a: &Test, b: &Test) -> Result<Test, NoMemory>
    ensures { IfOk result (λ c. test_of c ≡ And (test_with (read_as links.now) (test_of a.now))
        (test_with (read_as links.now) (test_of b.now))) }
{
    let left = boxed_test(alloc, links, a)?;
    Ok(Test::And(left, boxed_test(alloc, links, b)?))
}

#[cycle(read_test)]
#[tactic(auto, using(fs_lang::specs::Meaning::test_of_or))]
fn disjunction(alloc: Global, links: &[GivenLink], a: &Test, b: &Test) -> Result<Test, NoMemory>
    ensures { IfOk result (λ c. test_of c ≡ Or (test_with (read_as links.now) (test_of a.now))
        (test_with (read_as links.now) (test_of b.now))) }
{
    let left = boxed_test(alloc, links, a)?;
    Ok(Test::Or(left, boxed_test(alloc, links, b)?))
}

/// What a test is read as: each of its paths is.
#[cycle(read_test)]
#[tactic(auto, using(fs_lang::specs::Meaning::test_of_not, fs_lang::specs::Meaning::test_of_and, fs_lang::specs::Meaning::test_of_or))]
pub fn read_test(alloc: Global, links: &[GivenLink], test: &Test) -> Result<Test, NoMemory>
    ensures { IfOk result (λ read. test_of read ≡ test_with (read_as links.now) (test_of test.now)) }
{
    match test {
        Test::True => Ok(Test::True),
        Test::False => Ok(Test::False),
        Test::Not(a) => negation(alloc, links, a.get()),
        Test::And(a, b) => conjunction(alloc, links, a.get(), b.get()),
        Test::Or(a, b) => disjunction(alloc, links, a.get(), b.get()),
        Test::IsFile(p) => Ok(Test::IsFile(read_path(alloc, links, p)?)),
        Test::IsLink(p) => Ok(Test::IsLink(read_path(alloc, links, p)?)),
        Test::IsDir(p) => Ok(Test::IsDir(read_path(alloc, links, p)?)),
        Test::IsEmpty(p) => Ok(Test::IsEmpty(read_path(alloc, links, p)?)),
        Test::IsNone(p) => Ok(Test::IsNone(read_path(alloc, links, p)?)),
    }
}

#[cycle(read_program)]
fn boxed_program(
    alloc: Global,
    links: &[GivenLink],
    program: &Program,
) -> Result<Boxed<Program>, NoMemory>
    ensures { IfOk result (λ b. program_of b ≡ program_read_as links.now (program_of program.now)) }
{
    let read = read_program(alloc, links, program)?;
    Boxed::new(alloc, read)
}

/// What programs are read as, in order.
#[cycle(read_program)]
pub fn read_programs(
    alloc: Global,
    links: &[GivenLink],
    programs: &[Program],
) -> Result<Seq<Program>, NoMemory>
    ensures { IfOk result (λ read. map program_of read ≡ map (program_read_as links.now) (map program_of programs.now)) }
{
    let mut read = Seq::new(alloc);
    for program in programs {
        read.push(read_program(alloc, links, program)?)?;
    }
    Ok(read)
}

#[cycle(read_program)]
#[tactic(auto, using(fs_lang::specs::Meaning::program_of_if))]
fn choice(
    alloc: Global,
    links: &[GivenLink],
    a: &Test,
    e: &Program,
    f: &Program,
) -> Result<Program, NoMemory>
    ensures { IfOk result (λ read. program_of read ≡ If (test_with (read_as links.now) (test_of a.now))
        (program_read_as links.now (program_of e.now)) (program_read_as links.now (program_of f.now))) }
{
    let test = read_test(alloc, links, a)?;
    let left = boxed_program(alloc, links, e)?;
    Ok(Program::If(test, left, boxed_program(alloc, links, f)?))
}

/// What a program is read as: each of its paths is. Contents, and the targets of links that it makes, stay.
#[cycle(read_program)]
#[tactic(auto, using(fs_lang::specs::Meaning::program_of_if, fs_lang::specs::Meaning::program_of_steps, crate::proofs::ProgramLaws::steps_alike))]
pub fn read_program(
    alloc: Global,
    links: &[GivenLink],
    program: &Program,
) -> Result<Program, NoMemory>
    ensures { IfOk result (λ read. program_of read ≡ program_read_as links.now (program_of program.now)) }
{
    match program {
        Program::Id => Ok(Program::Id),
        Program::Err => Ok(Program::Err),
        Program::Mkdir(p) => Ok(Program::Mkdir(read_path(alloc, links, p)?)),
        Program::Creat(p, content) => Ok(Program::Creat(
            read_path(alloc, links, p)?,
            content.copy(alloc)?,
        )),
        Program::Link(p, target) => Ok(Program::Link(
            read_path(alloc, links, p)?,
            target.copy(alloc)?,
        )),
        Program::Rm(p) => Ok(Program::Rm(read_path(alloc, links, p)?)),
        Program::Cp(from, p) => {
            let from = read_path(alloc, links, from)?;
            Ok(Program::Cp(from, read_path(alloc, links, p)?))
        }
        Program::Steps(es) => Ok(Program::Steps(read_programs(alloc, links, es.as_slice())?)),
        Program::If(a, e, f) => choice(alloc, links, a, e.get(), f.get()),
    }
}
