//! The folders that a package makes sure of.

ghost use Rattle.std.specs.Prelude.{◌≡◌, ◌++◌, ◌∷◌, [], map, IfOk, OnOk};
ghost use Rattle.std.specs.List.{flat_map};
ghost use Rattle.fs_lang.specs.Meaning.{program_of};
ghost use Rattle.model_semantics.specs.Words.{ancestors, kept, dir};
ghost use Rattle.model_semantics.specs.Rows.{folders_of};

use fs_lang::{Path, Program};
use model_words::push_dir;
use pkg_listing::{Listed, Package, PathSet};
use rh_base::{NoMemory, Seq};
use std::alloc::Global;

/// Keeps the paths above a path.
fn keep_above(alloc: Global, p: &Path, set: &mut PathSet) -> Result<(), NoMemory>
    ensures { OnOk result (set.new ≡ kept set.old (ancestors p.now)) }
{
    let count = p.segments().len().saturating_sub(1);
    for n in 0..count {
        let above = p.front(alloc, n + 1)?;
        set.insert(alloc, &above)?;
    }
    Ok(())
}

fn keep_above_files(alloc: Global, files: &[Listed], set: &mut PathSet) -> Result<(), NoMemory>
    ensures { OnOk result (set.new ≡ kept set.old (flat_map (λ f. ancestors f.path) files.now)) }
{
    for file in files {
        keep_above(alloc, &file.path, set)?;
    }
    Ok(())
}

/// Keeps the paths above a folder, and the folder.
fn keep_folder(alloc: Global, d: &Path, set: &mut PathSet) -> Result<(), NoMemory>
    ensures { OnOk result (set.new ≡ kept set.old (ancestors d.now ++ d.now ∷ [])) }
{
    keep_above(alloc, d, set)?;
    set.insert(alloc, d)?;
    Ok(())
}

fn keep_folders(alloc: Global, folders: &[Path], set: &mut PathSet) -> Result<(), NoMemory>
    ensures { OnOk result (set.new ≡ kept set.old (flat_map (λ d. ancestors d ++ d ∷ []) folders.now)) }
{
    for d in folders {
        keep_folder(alloc, d, set)?;
    }
    Ok(())
}

/// The folders of a package and those above its mark.
fn folders_of(alloc: Global, p: &Package, m: &Path) -> Result<PathSet, NoMemory>
    ensures { IfOk result (λ set. set ≡ folders_of p.now m.now) }
{
    let mut set = PathSet::new(alloc);
    keep_above_files(alloc, p.files.as_slice(), &mut set)?;
    keep_folders(alloc, p.folders.as_slice(), &mut set)?;
    keep_above(alloc, m, &mut set)?;
    Ok(set)
}

/// Adds the steps that make the folders of a package.
pub fn push_folders(
    alloc: Global,
    p: &Package,
    m: &Path,
    steps: &mut Seq<Program>,
) -> Result<(), NoMemory>
    ensures { OnOk result (map program_of steps.new ≡ map program_of steps.old ++ map dir (folders_of p.now m.now)) }
{
    let folders = folders_of(alloc, p, m)?;
    for pair in folders.as_slice() {
        push_dir(alloc, &pair.1, steps)?;
    }
    Ok(())
}
