//! Files.

ghost use Rattle.std.specs.Prelude.{◌≡◌, ◌||◌, ◌∷◌, [], IfOk};
ghost use Rattle.fs_lang.specs.Meaning.{program_of};
ghost use Rattle.model_semantics.specs.Rows.{file_row};
ghost use Rattle.model_semantics.specs.Names.{Meets, is_reserved, unless_reserved};
ghost use Rattle.model_semantics.specs.declared.states.FileState.TheVariants as file;
ghost use Rattle.model_semantics.specs.Models.{model, source_state, state_of_file, file_state, copies_reserved, file_model};
ghost use Rattle.model_names.specs.Seen.{seen};

use catalog_semantics::Resource;
use fs_lang::{Path, Program, Test};
use model_attributes::{begins, text_at};
use model_names::{Model, is_reserved, spelled, text_or, unless_reserved};
use model_semantics::{Ensure, FileState, ModelFault};
use model_words::{
    branching, copied, creation, dir, is_file, is_taken, linked, push, put, removal,
};
use pp_value::Pairs;
use rh_base::{Boxed, NoMemory, Seq, Text};
use std::alloc::Global;

fn text_of(alloc: Global, text: &str) -> Result<Text, NoMemory>
    ensures { IfOk result (λ t. t ≡ text.now) }
{
    Ok(Text::from_string(String::from_str(alloc, text)?))
}

/// What a source says: the file at a path, or what an address has.
fn source_state(alloc: Global, text: &str) -> Result<FileState, ModelFault>
    ensures { Meets (λ s. s) (source_state text.now) result }
{
    if begins(b"/", text.as_bytes()) {
        let from = spelled(alloc, text)?;
        return Ok(FileState::Copied(from));
    }
    Ok(FileState::Fetched(text_of(alloc, text)?))
}

/// The state by `content` or `source`, or else another.
fn filled(alloc: Global, attrs: &Pairs, other: FileState) -> Result<FileState, ModelFault>
    ensures { Meets (λ s. s) (state_of_file attrs.now other) result }
{
    if let Some(content) = text_at(attrs, "content") {
        return Ok(FileState::Content(content.copy(alloc)?));
    }
    match text_at(attrs, "source") {
        Some(source) => source_state(alloc, source.as_str()),
        None => Ok(other),
    }
}

pub fn file_state(alloc: Global, e: Ensure, attrs: &Pairs) -> Result<FileState, ModelFault>
    ensures { Meets (λ s. s) (file_state e attrs.now) result }
{
    match e {
        Ensure::Absent => Ok(FileState::Absent),
        Ensure::Directory => Ok(FileState::Folder),
        Ensure::Link => {
            let target = text_or(attrs, "target", "");
            Ok(FileState::Link(text_of(alloc, target)?))
        }
        Ensure::Present => filled(alloc, attrs, FileState::Present),
        Ensure::File => filled(alloc, attrs, FileState::File),
        Ensure::Unsaid | Ensure::Running | Ensure::Stopped => {
            filled(alloc, attrs, FileState::Unsaid)
        }
    }
}

fn present(alloc: Global, p: &Path) -> Result<Program, NoMemory>
    ensures { IfOk result (λ e. program_of e ≡ file_row p.now file.Present) }
{
    let made = Boxed::new(alloc, creation(alloc, p, "")?)?;
    let nothing = Boxed::new(alloc, Program::Id)?;
    let test = Test::IsNone(p.copy(alloc)?);
    Ok(branching(test, made, nothing))
}

fn existing(alloc: Global, p: &Path) -> Result<Program, NoMemory>
    ensures { IfOk result (λ e. program_of e ≡ file_row p.now file.File) }
{
    let nothing = Boxed::new(alloc, Program::Id)?;
    let made = Boxed::new(alloc, creation(alloc, p, "")?)?;
    let test = is_file(alloc, p)?;
    Ok(branching(test, nothing, made))
}

fn absent(alloc: Global, p: &Path) -> Result<Program, NoMemory>
    ensures { IfOk result (λ e. program_of e ≡ file_row p.now file.Absent) }
{
    let gone = Boxed::new(alloc, removal(alloc, p)?)?;
    let nothing = Boxed::new(alloc, Program::Id)?;
    let test = is_taken(alloc, p)?;
    Ok(branching(test, gone, nothing))
}

fn fetched(alloc: Global, p: &Path, address: &Text) -> Result<Program, NoMemory>
    ensures { IfOk result (λ e. program_of e ≡ file_row p.now (file.Fetched address.now)) }
{
    let mut content = text_of(alloc, "source:")?;
    content.push(address.as_str())?;
    put(alloc, p, content.as_str())
}

/// The program of a file in a state.
pub fn file_row(alloc: Global, p: &Path, state: &FileState) -> Result<Program, NoMemory>
    ensures { IfOk result (λ e. program_of e ≡ file_row p.now state.now) }
{
    match state {
        FileState::Unsaid => Ok(Program::Id),
        FileState::Present => present(alloc, p),
        FileState::File => existing(alloc, p),
        FileState::Content(content) => put(alloc, p, content.as_str()),
        FileState::Copied(from) => copied(alloc, from, p),
        FileState::Fetched(address) => fetched(alloc, p, address),
        FileState::Folder => dir(alloc, p),
        FileState::Absent => absent(alloc, p),
        FileState::Link(target) => linked(alloc, p, target.as_str()),
    }
}

fn copies_reserved(state: &FileState) -> bool
    ensures { result ≡ copies_reserved state.now }
{
    match state {
        FileState::Copied(from) => is_reserved(from),
        _ => false,
    }
}

pub fn are_free(p: &Path, state: &FileState) -> Result<(), ModelFault>
    ensures { Meets (λ done. done) (unless_reserved (is_reserved p.now || copies_reserved state.now)) result }
{
    let place = is_reserved(p);
    let source = copies_reserved(state);
    unless_reserved(place || source)
}

/// A model of one step.
pub fn one_step(alloc: Global, place: Path, step: Program) -> Result<Model, NoMemory>
    ensures { IfOk result (λ m. seen m ≡ model place (program_of step ∷ [])) }
{
    let mut steps = Seq::new(alloc);
    push(&mut steps, step)?;
    Ok(Model { place, steps })
}

/// The model of a file, whose place is its path.
pub fn file_model(alloc: Global, e: Ensure, r: &Resource) -> Result<Model, ModelFault>
    ensures { Meets seen (file_model e r.now) result }
{
    let place = spelled(alloc, text_or(&r.attrs, "path", r.id.title.as_str()))?;
    let state = file_state(alloc, e, &r.attrs)?;
    are_free(&place, &state)?;
    let step = file_row(alloc, &place, &state)?;
    Ok(one_step(alloc, place, step)?)
}
