//! Packages.

ghost use Rattle.std.specs.Prelude.{◌≡◌, ◌++◌, ◌∷◌, [], map, IfOk, OnOk};
ghost use Rattle.fs_lang.specs.Meaning.{program_of};
ghost use Rattle.fs_semantics.specs.Programs.{Id, Creat, Rm, If, IsFile};
ghost use Rattle.model_semantics.specs.declared.states.Ensure.TheVariants as ensure;
ghost use Rattle.model_semantics.specs.Words.{sequence, drop_file, sweep, deepest_first};
ghost use Rattle.model_semantics.specs.Rows.{content_of, installed_file, package_row};
ghost use Rattle.model_semantics.specs.Names.{Meets};
ghost use Rattle.model_semantics.specs.Models.{package_model};
ghost use Rattle.model_names.specs.Seen.{seen};

use crate::folders::push_folders;
use catalog_semantics::Resource;
use fs_lang::{Path, Program};
use model_names::{Model, mark_named, name_of};
use model_semantics::{Cause, Ensure, ModelFault};
use model_words::{
    branching, creation, drop_file, is_file, push, push_sweeps, put, removal, sequence,
};
use pkg_listing::{Listed, Listing, Package};
use rh_base::{Boxed, NoMemory, Seq, Text};
use std::alloc::Global;

/// What stands for the content of a package's file.
fn content_of(alloc: Global, name: &str, f: &Listed) -> Result<Text, NoMemory>
    ensures { IfOk result (λ t. t ≡ content_of name.now f.now.path f.now.digest) }
{
    let mut text = Text::new(alloc);
    match &f.digest {
        Some(digest) => {
            text.push("digest:")?;
            text.push(digest.as_str())?;
        }
        None => {
            let path = f.path.text(alloc)?;
            text.push("package:")?;
            text.push(name)?;
            text.push(":")?;
            text.push(path.as_str())?;
        }
    }
    Ok(text)
}

fn installed_file(alloc: Global, name: &str, f: &Listed) -> Result<Program, NoMemory>
    ensures { IfOk result (λ e. program_of e ≡ installed_file name.now f.now) }
{
    let content = content_of(alloc, name, f)?;
    put(alloc, &f.path, content.as_str())
}

fn push_files(
    alloc: Global,
    name: &str,
    files: &[Listed],
    steps: &mut Seq<Program>,
) -> Result<(), NoMemory>
    ensures { OnOk result (map program_of steps.new ≡ map program_of steps.old ++ map (installed_file name.now) files.now) }
{
    for file in files {
        let step = installed_file(alloc, name, file)?;
        push(steps, step)?;
    }
    Ok(())
}

fn push_drops(alloc: Global, files: &[Listed], steps: &mut Seq<Program>) -> Result<(), NoMemory>
    ensures { OnOk result (map program_of steps.new ≡ map program_of steps.old ++ map (λ f. drop_file f.path) files.now) }
{
    for file in files {
        let step = drop_file(alloc, &file.path)?;
        push(steps, step)?;
    }
    Ok(())
}

/// Writes the files of a package, and then its mark.
fn files_written(alloc: Global, name: &str, p: &Package, m: &Path) -> Result<Program, NoMemory>
    ensures { IfOk result (λ e. program_of e ≡ sequence (map (installed_file name.now) p.now.files ++ Creat m.now [] ∷ [])) }
{
    let mut steps = Seq::new(alloc);
    push_files(alloc, name, p.files.as_slice(), &mut steps)?;
    let last = creation(alloc, m, "")?;
    push(&mut steps, last)?;
    Ok(sequence(steps))
}

/// Removes the files of a package and the folders that have become empty, and then its mark.
fn files_removed(alloc: Global, p: &Package, m: &Path) -> Result<Program, NoMemory>
    ensures { IfOk result (λ e. program_of e ≡ sequence
        (map (λ f. drop_file f.path) p.now.files ++ (map sweep (deepest_first p.now.folders) ++ Rm m.now ∷ []))) }
{
    let mut steps = Seq::new(alloc);
    push_drops(alloc, p.files.as_slice(), &mut steps)?;
    push_sweeps(alloc, p.folders.as_slice(), &mut steps)?;
    let last = removal(alloc, m)?;
    push(&mut steps, last)?;
    Ok(sequence(steps))
}

/// Writes the files of a package unless its mark is there.
fn unless_marked(alloc: Global, name: &str, p: &Package, m: &Path) -> Result<Program, NoMemory>
    ensures { IfOk result (λ e. program_of e ≡ If (IsFile m.now) Id
        (sequence (map (installed_file name.now) p.now.files ++ Creat m.now [] ∷ []))) }
{
    let nothing = Boxed::new(alloc, Program::Id)?;
    let written = Boxed::new(alloc, files_written(alloc, name, p, m)?)?;
    let test = is_file(alloc, m)?;
    Ok(branching(test, nothing, written))
}

/// Removes the files of a package if its mark is there.
fn if_marked(alloc: Global, p: &Package, m: &Path) -> Result<Program, NoMemory>
    ensures { IfOk result (λ e. program_of e ≡ If (IsFile m.now) (sequence
        (map (λ f. drop_file f.path) p.now.files ++ (map sweep (deepest_first p.now.folders) ++ Rm m.now ∷ []))) Id) }
{
    let removed = Boxed::new(alloc, files_removed(alloc, p, m)?)?;
    let nothing = Boxed::new(alloc, Program::Id)?;
    let test = is_file(alloc, m)?;
    Ok(branching(test, removed, nothing))
}

fn installed(alloc: Global, name: &str, p: &Package, m: &Path) -> Result<Seq<Program>, NoMemory>
    ensures { IfOk result (λ es. map program_of es ≡ package_row name.now p.now m.now ensure.Present) }
{
    let mut steps = Seq::new(alloc);
    push_folders(alloc, p, m, &mut steps)?;
    let step = unless_marked(alloc, name, p, m)?;
    push(&mut steps, step)?;
    Ok(steps)
}

fn uninstalled(alloc: Global, name: &str, p: &Package, m: &Path) -> Result<Seq<Program>, NoMemory>
    ensures { IfOk result (λ es. map program_of es ≡ package_row name.now p.now m.now ensure.Absent) }
{
    let mut steps = Seq::new(alloc);
    let step = if_marked(alloc, p, m)?;
    push(&mut steps, step)?;
    Ok(steps)
}

fn package_row(
    alloc: Global,
    name: &str,
    p: &Package,
    m: &Path,
    e: Ensure,
) -> Result<Seq<Program>, NoMemory>
    ensures { IfOk result (λ es. map program_of es ≡ package_row name.now p.now m.now e) }
{
    match e {
        Ensure::Absent => uninstalled(alloc, name, p, m),
        Ensure::Unsaid
        | Ensure::Present
        | Ensure::File
        | Ensure::Directory
        | Ensure::Link
        | Ensure::Running
        | Ensure::Stopped => installed(alloc, name, p, m),
    }
}

/// The model of a package, whose place is the mark of its name.
pub fn package_model(
    alloc: Global,
    e: Ensure,
    listing: &Listing,
    r: &Resource,
) -> Result<Model, ModelFault>
    ensures { Meets seen (package_model e listing.now r.now) result }
{
    let name = name_of(r);
    let place = mark_named(alloc, "package", name)?;
    let Some(p) = listing.find(name) else {
        return Err(ModelFault::Because(Cause::Unlisted));
    };
    let steps = package_row(alloc, name, p, &place, e)?;
    Ok(Model { place, steps })
}
