//! The programs of behaviors.

ghost use Rattle.std.specs.Prelude.{◌≡◌, ◌∷◌, ◌++◌, [], map, not, IfOk, OnOk};
ghost use Rattle.std.specs.List.{flat_map};
ghost use Rattle.fs_lang.specs.Meaning.{program_of};
ghost use Rattle.pp_value.specs.Shown.{shown_ref};
ghost use Rattle.model_semantics.specs.Words.{need, drop_file, put};
ghost use Rattle.model_semantics.specs.Names.{Meets, is_name};
ghost use Rattle.assumed_models.specs.Behaviors.{own_attributes, attributes_text, made_content, folder_made, file_made, file_edited, steps_of, unless_there, writes_files, program_of_behavior};

use crate::marks::edit_mark;
use assumed_text::Behavior;
use catalog_semantics::{Resource, is_metaparameter};
use catalog_text::json_text;
use fs_lang::{Path, Program, Test};
use model_names::named;
use model_semantics::{Cause, ModelFault};
use model_words::{branching, drop_file, need, push, push_dir, push_dirs, put, sequence};
use pp_value::{Pairs, Value, distinct_pairs_are_kept, shown_ref};
use rh_base::{Boxed, NoMemory, Seq, Text};
use std::alloc::Global;

/// The attributes that say nothing of the order.
fn own_attributes(alloc: Global, attrs: &Pairs) -> Result<Pairs, NoMemory>
    ensures { IfOk result (λ own. own ≡ own_attributes attrs.now) }
{
    distinct_pairs_are_kept();
    let mut own = Pairs::new(alloc);
    for pair in attrs.as_slice() {
        if !is_metaparameter(pair.0.as_str()) {
            let name = pair.0.copy(alloc)?;
            let value = pair.1.copy(alloc)?;
            own.put(name, value)?;
        }
    }
    Ok(own)
}

/// The attributes that say nothing of the order, as compact JSON.
fn attributes_text(alloc: Global, r: &Resource) -> Result<Text, NoMemory>
    ensures { IfOk result (λ text. text ≡ attributes_text r.now) }
{
    let own = own_attributes(alloc, &r.attrs)?;
    json_text(alloc, &Value::Map(own))
}

/// What a file has that a resource makes.
fn made_content(alloc: Global, r: &Resource, p: &Path) -> Result<Text, NoMemory>
    ensures { IfOk result (λ text. text ≡ made_content r.now p.now) }
{
    let name = shown_ref(alloc, &r.id)?;
    let path = p.text(alloc)?;
    let attributes = attributes_text(alloc, r)?;
    let content = format!(in alloc;
        "made:{}:{}:{}",
        name.as_str(),
        path.as_str(),
        attributes.as_str()
    )?;
    Ok(Text::from_string(content))
}

/// Adds the step that needs a file.
fn push_need(alloc: Global, p: &Path, steps: &mut Seq<Program>) -> Result<(), NoMemory>
    ensures { OnOk result (map program_of steps.new ≡ map program_of steps.old ++ need p.now ∷ []) }
{
    let step = need(alloc, p)?;
    push(steps, step)
}

/// Adds the steps that need files.
fn push_needs(alloc: Global, paths: &[Path], steps: &mut Seq<Program>) -> Result<(), NoMemory>
    ensures { OnOk result (map program_of steps.new ≡ map program_of steps.old ++ map need paths.now) }
{
    for p in paths {
        push_need(alloc, p, steps)?;
    }
    Ok(())
}

/// Adds the steps that make folders.
fn push_folders(alloc: Global, paths: &[Path], steps: &mut Seq<Program>) -> Result<(), NoMemory>
    ensures { OnOk result (map program_of steps.new ≡ map program_of steps.old ++ flat_map folder_made paths.now) }
{
    for p in paths {
        push_dirs(alloc, p, steps)?;
        push_dir(alloc, p, steps)?;
    }
    Ok(())
}

/// Adds the steps that write files whole.
fn push_made(
    alloc: Global,
    r: &Resource,
    paths: &[Path],
    steps: &mut Seq<Program>,
) -> Result<(), NoMemory>
    ensures { OnOk result (map program_of steps.new ≡ map program_of steps.old ++ map (file_made r.now) paths.now) }
{
    for p in paths {
        let content = made_content(alloc, r, p)?;
        let step = put(alloc, p, content.as_str())?;
        push(steps, step)?;
    }
    Ok(())
}

/// Adds the step that writes the mark of an edit.
fn push_written(
    alloc: Global,
    r: &Resource,
    mark: &Path,
    steps: &mut Seq<Program>,
) -> Result<(), NoMemory>
    ensures { OnOk result (map program_of steps.new ≡ map program_of steps.old ++ put mark.now (attributes_text r.now) ∷ []) }
{
    let content = attributes_text(alloc, r)?;
    let step = put(alloc, mark, content.as_str())?;
    push(steps, step)
}

/// Adds the steps of the edit of a file.
fn push_edit(
    alloc: Global,
    r: &Resource,
    p: &Path,
    steps: &mut Seq<Program>,
) -> Result<(), NoMemory>
    ensures { OnOk result (map program_of steps.new ≡ map program_of steps.old ++ file_edited r.now p.now) }
{
    push_need(alloc, p, steps)?;
    let mark = edit_mark(alloc, r, p)?;
    push_dirs(alloc, &mark, steps)?;
    push_written(alloc, r, &mark, steps)
}

/// Adds the steps of the edits of files.
fn push_edits(
    alloc: Global,
    r: &Resource,
    paths: &[Path],
    steps: &mut Seq<Program>,
) -> Result<(), NoMemory>
    ensures { OnOk result (map program_of steps.new ≡ map program_of steps.old ++ flat_map (file_edited r.now) paths.now) }
{
    for p in paths {
        push_edit(alloc, r, p, steps)?;
    }
    Ok(())
}

/// Adds the steps that remove files.
fn push_removed(alloc: Global, paths: &[Path], steps: &mut Seq<Program>) -> Result<(), NoMemory>
    ensures { OnOk result (map program_of steps.new ≡ map program_of steps.old ++ map drop_file paths.now) }
{
    for p in paths {
        let step = drop_file(alloc, p)?;
        push(steps, step)?;
    }
    Ok(())
}

/// The steps of a behavior.
fn steps_of(alloc: Global, r: &Resource, b: &Behavior) -> Result<Seq<Program>, NoMemory>
    ensures { IfOk result (λ steps. map program_of steps ≡ steps_of r.now b.now) }
{
    let mut steps = Seq::new(alloc);
    push_needs(alloc, b.needs.as_slice(), &mut steps)?;
    push_folders(alloc, b.folders.as_slice(), &mut steps)?;
    push_made(alloc, r, b.makes.as_slice(), &mut steps)?;
    push_edits(alloc, r, b.edits.as_slice(), &mut steps)?;
    push_removed(alloc, b.removes.as_slice(), &mut steps)?;
    Ok(steps)
}

/// The program, only where nothing stands at the path, if there is one.
fn unless_there(
    alloc: Global,
    creates: &Option<Path>,
    e: Boxed<Program>,
) -> Result<Program, NoMemory>
    ensures { IfOk result (λ f. program_of f ≡ unless_there creates.now (program_of e)) }
{
    match creates {
        Some(c) => {
            let nothing = Boxed::new(alloc, Program::Id)?;
            let test = Test::IsNone(c.copy(alloc)?);
            Ok(branching(test, e, nothing))
        }
        None => Ok(e.into_inner()),
    }
}

/// Whether a behavior makes or edits a file.
fn writes_files(b: &Behavior) -> bool
    ensures { result ≡ writes_files b.now }
{
    let makes = !b.makes.is_empty();
    let edits = !b.edits.is_empty();
    makes || edits
}

/// Whether the reference of a resource may be a name.
#[tactic(auto, using(crate::proofs::NamedLaws::named_ok, crate::proofs::NamedLaws::named_err))]
fn has_name(alloc: Global, r: &Resource) -> Result<bool, NoMemory>
    ensures { IfOk result (λ b. b ≡ is_name (shown_ref r.now.id)) }
{
    let name = shown_ref(alloc, &r.id)?;
    match named(alloc, name.as_str()) {
        Ok(_) => Ok(true),
        Err(ModelFault::Because(_)) => Ok(false),
        Err(ModelFault::Memory(m)) => Err(m),
    }
}

/// The program of a resource of which a behavior is assumed. One that makes or edits files needs a reference that may be a name.
pub fn program_of_behavior(alloc: Global, r: &Resource, b: &Behavior) -> Result<Program, ModelFault>
    ensures { Meets program_of (program_of_behavior r.now b.now) result }
{
    if writes_files(b) {
        if !has_name(alloc, r)? {
            return Err(ModelFault::Because(Cause::Name));
        }
    }
    let steps = steps_of(alloc, r, b)?;
    let program = Boxed::new(alloc, sequence(steps))?;
    Ok(unless_there(alloc, &b.creates, program)?)
}
