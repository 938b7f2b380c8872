//! The models of files that are put only where nothing stands.

ghost use Rattle.std.specs.Prelude.{◌≡◌, ◌∷◌, [], IfOk};
ghost use Rattle.fs_semantics.specs.Programs.{Creat, Cp};
ghost use Rattle.fs_lang.specs.Meaning.{program_of};
ghost use Rattle.model_semantics.specs.Names.{Meets};
ghost use Rattle.model_names.specs.Seen.{seen};
ghost use Rattle.model_semantics.specs.declared.states.FileState.TheVariants as file;
ghost use Rattle.compiled_models.specs.Files.{is_spared, where_none, spared_row, row_of, file_model};

use catalog_semantics::Resource;
use fs_lang::{Path, Program, Test};
use model_attributes::truth_of;
use model_files::{are_free, file_row, file_state, one_step};
use model_names::{Model, spelled, text_or};
use model_semantics::{Ensure, FileState, ModelFault};
use model_words::{branching, creation};
use rh_base::{Boxed, NoMemory, Text};
use std::alloc::Global;

/// Whether what stands there already stays as it is.
pub(crate) fn is_spared(r: &Resource) -> bool
    ensures { result ≡ is_spared r.now }
{
    let Some(value) = r.attrs.find("replace") else {
        return false;
    };
    match truth_of(value) {
        Some(truth) => !truth,
        None => false,
    }
}

/// Puts something where nothing stands.
fn where_none(alloc: Global, p: &Path, put: Boxed<Program>) -> Result<Program, NoMemory>
    ensures { IfOk result (λ e. program_of e ≡ where_none p.now (program_of put)) }
{
    let nothing = Boxed::new(alloc, Program::Id)?;
    let test = Test::IsNone(p.copy(alloc)?);
    Ok(branching(test, put, nothing))
}

/// Makes a file with this content where nothing stands.
fn created(alloc: Global, p: &Path, content: &str) -> Result<Program, NoMemory>
    ensures { IfOk result (λ e. program_of e ≡ where_none p.now (Creat p.now content.now)) }
{
    let put = Boxed::new(alloc, creation(alloc, p, content)?)?;
    where_none(alloc, p, put)
}

/// Copies a file where nothing stands.
fn copied(alloc: Global, from: &Path, p: &Path) -> Result<Program, NoMemory>
    ensures { IfOk result (λ e. program_of e ≡ where_none p.now (Cp from.now p.now)) }
{
    let source = from.copy(alloc)?;
    let put = Boxed::new(alloc, Program::Cp(source, p.copy(alloc)?))?;
    where_none(alloc, p, put)
}

/// What stands for the content at an address.
fn fetched(alloc: Global, p: &Path, address: &Text) -> Result<Program, NoMemory>
    ensures { IfOk result (λ e. program_of e ≡ spared_row p.now (file.Fetched address.now)) }
{
    let mut content = Text::new(alloc);
    content.push("source:")?;
    content.push(address.as_str())?;
    created(alloc, p, content.as_str())
}

/// The program of a file that is put only where nothing stands.
fn spared_row(alloc: Global, p: &Path, state: &FileState) -> Result<Program, NoMemory>
    ensures { IfOk result (λ e. program_of e ≡ spared_row p.now state.now) }
{
    match state {
        FileState::Content(content) => created(alloc, p, content.as_str()),
        FileState::Copied(from) => copied(alloc, from, p),
        FileState::Fetched(address) => fetched(alloc, p, address),
        FileState::Unsaid
        | FileState::Present
        | FileState::File
        | FileState::Folder
        | FileState::Absent
        | FileState::Link(_) => file_row(alloc, p, state),
    }
}

/// The program of a file in a state.
fn row_of(alloc: Global, spared: bool, p: &Path, state: &FileState) -> Result<Program, NoMemory>
    ensures { IfOk result (λ e. program_of e ≡ row_of spared p.now state.now) }
{
    if spared {
        return spared_row(alloc, p, state);
    }
    file_row(alloc, p, state)
}

/// The model of a file, whose place is its path.
pub(crate) fn file_model(alloc: Global, e: Ensure, r: &Resource) -> Result<Model, ModelFault>
    ensures { Meets seen (file_model e r.now) result }
{
    let place = spelled(alloc, text_or(&r.attrs, "path", r.id.title.as_str()))?;
    let state = file_state(alloc, e, &r.attrs)?;
    are_free(&place, &state)?;
    let step = row_of(alloc, is_spared(r), &place, &state)?;
    Ok(one_step(alloc, place, step)?)
}
