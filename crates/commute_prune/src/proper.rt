//! What the types of paths and texts keep, said of whole programs.

ghost use Rattle.std.specs.Prelude.{map};
ghost use Rattle.std.specs.List.{AllByRecursion};
ghost use Rattle.fs_semantics.specs.FileTree.{IsSegment, IsBytes};
ghost use Rattle.fs_semantics.specs.Changes.{IsProper, AreProperSteps};
ghost use Rattle.fs_lang.specs.Meaning.{program_of, programs_in};

use fs_lang::{Path, Program};
use rh_base::Text;

fn path_is_proper(p: &Path)
    ensures { AllByRecursion IsSegment p.now }
{
    p.segments();
}

/// Each byte of a text is below 256.
#[tactic(auto, using(fs_lang::proofs::Bytes::utf8_bytes))]
fn text_is_bytes(text: &Text)
    ensures { IsBytes text.now }
{
    let _text = text.as_str();
}

fn entry_is_proper(p: &Path, text: &Text)
    ensures path { AllByRecursion IsSegment p.now }
    ensures text { IsBytes text.now }
{
    path_is_proper(p);
    text_is_bytes(text);
}

#[cycle(proper)]
#[tactic(auto, using(fs_lang::specs::Meaning::program_of_steps, fs_lang::specs::Meaning::program_of_if))]
fn is_proper(program: &Program)
    ensures { IsProper (program_of program.now) }
{
    match program {
        Program::Id | Program::Err | Program::Rm(_) => {}
        Program::Mkdir(p) => path_is_proper(p),
        Program::Creat(p, content) => entry_is_proper(p, content),
        Program::Link(p, target) => entry_is_proper(p, target),
        Program::Cp(_, p) => path_is_proper(p),
        Program::Steps(es) => are_proper_steps(es.as_slice()),
        Program::If(_, e, f) => both_are_proper(e.get(), f.get()),
    }
}

#[cycle(proper)]
fn are_proper_steps(programs: &[Program])
    ensures { AreProperSteps (programs_in programs.now) }
{
    for program in programs {
        is_proper(program);
    }
}

#[cycle(proper)]
fn both_are_proper(e: &Program, f: &Program)
    ensures first { IsProper (program_of e.now) }
    ensures second { IsProper (program_of f.now) }
{
    is_proper(e);
    is_proper(f);
}

/// Each path at which a program may make an entry is made of segments, and its contents and targets are of bytes.
#[tactic(auto, using(crate::proofs::ProperLaws::all_proper))]
pub fn are_proper(programs: &[Program])
    ensures { AllByRecursion IsProper (map program_of programs.now) }
{
    are_proper_steps(programs);
}
