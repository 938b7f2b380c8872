//! Words of one program.

ghost use Rattle.std.specs.Prelude.{◌≡◌, ◌∷◌, [], IfOk};
ghost use Rattle.fs_lang.specs.Meaning.{test_of, program_of};
ghost use Rattle.fs_semantics.specs.Programs.{Link, Rm, Cp, If, IsFile};
ghost use Rattle.model_semantics.specs.Words.{sequence, dir, sweep, put, drop_file, need};
ghost use Rattle.model_semantics.specs.Rows.{is_taken};

use crate::programs::{branching, copy, creation, is_file, is_link, link, making, removal};
use crate::steps::{push, sequence};
use fs_lang::{Path, Program, Test};
use rh_base::{Boxed, NoMemory, Seq};
use std::alloc::Global;

/// Makes a folder unless it is there.
pub fn dir(alloc: Global, p: &Path) -> Result<Program, NoMemory>
    ensures { IfOk result (λ e. program_of e ≡ dir p.now) }
{
    let nothing = Boxed::new(alloc, Program::Id)?;
    let made = Boxed::new(alloc, making(alloc, p)?)?;
    let test = Test::IsDir(p.copy(alloc)?);
    Ok(branching(test, nothing, made))
}

/// Removes a folder that has become empty.
pub fn sweep(alloc: Global, p: &Path) -> Result<Program, NoMemory>
    ensures { IfOk result (λ e. program_of e ≡ sweep p.now) }
{
    let gone = Boxed::new(alloc, removal(alloc, p)?)?;
    let nothing = Boxed::new(alloc, Program::Id)?;
    let test = Test::IsEmpty(p.copy(alloc)?);
    Ok(branching(test, gone, nothing))
}

/// Removes a file, if it is there.
pub fn drop_file(alloc: Global, p: &Path) -> Result<Program, NoMemory>
    ensures { IfOk result (λ e. program_of e ≡ drop_file p.now) }
{
    let gone = Boxed::new(alloc, removal(alloc, p)?)?;
    let nothing = Boxed::new(alloc, Program::Id)?;
    let test = is_file(alloc, p)?;
    Ok(branching(test, gone, nothing))
}

/// Fails where a file isn't there.
pub fn need(alloc: Global, m: &Path) -> Result<Program, NoMemory>
    ensures { IfOk result (λ e. program_of e ≡ need m.now) }
{
    let there = Boxed::new(alloc, Program::Id)?;
    let missing = Boxed::new(alloc, Program::Err)?;
    let test = is_file(alloc, m)?;
    Ok(branching(test, there, missing))
}

/// Removes what stands at a path, and then does this.
fn instead(alloc: Global, p: &Path, made: Boxed<Program>) -> Result<Boxed<Program>, NoMemory>
    ensures { IfOk result (λ e. program_of e ≡ sequence (Rm p.now ∷ program_of made ∷ [])) }
{
    let mut steps = Seq::new(alloc);
    let gone = removal(alloc, p)?;
    push(&mut steps, gone)?;
    push(&mut steps, made.into_inner())?;
    Boxed::new(alloc, sequence(steps))
}

/// Puts a file with this content, whether one was there or not.
pub fn put(alloc: Global, p: &Path, content: &str) -> Result<Program, NoMemory>
    ensures { IfOk result (λ e. program_of e ≡ put p.now content.now) }
{
    let made = Boxed::new(alloc, creation(alloc, p, content)?)?;
    let over = instead(alloc, p, made)?;
    let fresh = Boxed::new(alloc, creation(alloc, p, content)?)?;
    let test = is_file(alloc, p)?;
    Ok(branching(test, over, fresh))
}

/// Puts a copy of a file, whether one was there or not.
pub fn copied(alloc: Global, from: &Path, p: &Path) -> Result<Program, NoMemory>
    ensures { IfOk result (λ e. program_of e ≡ If (IsFile p.now) (sequence (Rm p.now ∷ Cp from.now p.now ∷ [])) (Cp from.now p.now)) }
{
    let made = Boxed::new(alloc, copy(alloc, from, p)?)?;
    let over = instead(alloc, p, made)?;
    let fresh = Boxed::new(alloc, copy(alloc, from, p)?)?;
    let test = is_file(alloc, p)?;
    Ok(branching(test, over, fresh))
}

/// Whether a file or a link stands at a path.
#[tactic(auto, using(fs_lang::specs::Meaning::test_of_or))]
pub fn is_taken(alloc: Global, p: &Path) -> Result<Test, NoMemory>
    ensures { IfOk result (λ t. test_of t ≡ is_taken p.now) }
{
    let file = Boxed::new(alloc, is_file(alloc, p)?)?;
    let link = Boxed::new(alloc, is_link(alloc, p)?)?;
    Ok(Test::Or(file, link))
}

/// Puts a link with this target, whether a file or a link was there or not.
pub fn linked(alloc: Global, p: &Path, target: &str) -> Result<Program, NoMemory>
    ensures { IfOk result (λ e. program_of e ≡ If (is_taken p.now) (sequence (Rm p.now ∷ Link p.now target.now ∷ []))
        (Link p.now target.now)) }
{
    let made = Boxed::new(alloc, link(alloc, p, target)?)?;
    let over = instead(alloc, p, made)?;
    let fresh = Boxed::new(alloc, link(alloc, p, target)?)?;
    let test = is_taken(alloc, p)?;
    Ok(branching(test, over, fresh))
}
