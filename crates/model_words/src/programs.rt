//! Programs of one construct, and choices.

ghost use Rattle.std.specs.Prelude.{◌≡◌, IfOk};
ghost use Rattle.fs_lang.specs.Meaning.{test_of, program_of};
ghost use Rattle.fs_semantics.specs.Programs.{Mkdir, Creat, Link, Rm, Cp, If, Or, IsFile, IsLink};

use fs_lang::{Path, Program, Test};
use rh_base::{Boxed, NoMemory, Text};
use std::alloc::Global;

/// Makes a folder.
pub fn making(alloc: Global, p: &Path) -> Result<Program, NoMemory>
    ensures { IfOk result (λ e. program_of e ≡ Mkdir p.now) }
{
    Ok(Program::Mkdir(p.copy(alloc)?))
}

/// Makes a file with this content.
pub fn creation(alloc: Global, p: &Path, content: &str) -> Result<Program, NoMemory>
    ensures { IfOk result (λ e. program_of e ≡ Creat p.now content.now) }
{
    let text = Text::from_string(String::from_str(alloc, content)?);
    Ok(Program::Creat(p.copy(alloc)?, text))
}

/// Makes a link with this target.
pub fn link(alloc: Global, p: &Path, target: &str) -> Result<Program, NoMemory>
    ensures { IfOk result (λ e. program_of e ≡ Link p.now target.now) }
{
    let text = Text::from_string(String::from_str(alloc, target)?);
    Ok(Program::Link(p.copy(alloc)?, text))
}

/// Removes what stands at a path.
pub fn removal(alloc: Global, p: &Path) -> Result<Program, NoMemory>
    ensures { IfOk result (λ e. program_of e ≡ Rm p.now) }
{
    Ok(Program::Rm(p.copy(alloc)?))
}

/// Copies the file at the one path to the other.
pub fn copy(alloc: Global, from: &Path, p: &Path) -> Result<Program, NoMemory>
    ensures { IfOk result (λ e. program_of e ≡ Cp from.now p.now) }
{
    let source = from.copy(alloc)?;
    Ok(Program::Cp(source, p.copy(alloc)?))
}

/// One program where a test holds, and another where it doesn't.
#[tactic(auto, using(fs_lang::specs::Meaning::program_of_if))]
pub fn branching(a: Test, e: Boxed<Program>, f: Boxed<Program>) -> Program
    ensures { program_of result ≡ If (test_of a) (program_of e) (program_of f) }
{
    Program::If(a, e, f)
}

/// Whether one of two tests holds.
#[tactic(auto, using(fs_lang::specs::Meaning::test_of_or))]
pub fn either(alloc: Global, a: Test, b: Test) -> Result<Test, NoMemory>
    ensures { IfOk result (λ t. test_of t ≡ Or (test_of a) (test_of b)) }
{
    let left = Boxed::new(alloc, a)?;
    let right = Boxed::new(alloc, b)?;
    Ok(Test::Or(left, right))
}

/// Whether a file stands at a path.
pub fn is_file(alloc: Global, p: &Path) -> Result<Test, NoMemory>
    ensures { IfOk result (λ t. test_of t ≡ IsFile p.now) }
{
    Ok(Test::IsFile(p.copy(alloc)?))
}

/// Whether a link stands at a path.
pub fn is_link(alloc: Global, p: &Path) -> Result<Test, NoMemory>
    ensures { IfOk result (λ t. test_of t ≡ IsLink p.now) }
{
    Ok(Test::IsLink(p.copy(alloc)?))
}
