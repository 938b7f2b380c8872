//! The paths that texts spell.

ghost use Rattle.std.specs.Prelude.{◌≡◌, IfOk};
ghost use Rattle.fs_lang.specs.Reading.{path_in};
ghost use Rattle.compiled_relations.specs.Finding.{written};

use fs_lang::{Path, PathFault};
use rh_base::{NoMemory, Text};
use std::alloc::Global;

/// The path that a text spells, if any.
pub fn path_in(alloc: Global, text: &str) -> Result<Option<Path>, NoMemory>
    ensures { IfOk result (λ path. path ≡ path_in text.now) }
{
    match Path::read(alloc, text) {
        Ok(path) => Ok(Some(path)),
        Err(PathFault::Bad) => Ok(None),
        Err(PathFault::Memory(m)) => Err(m),
    }
}

/// The path that a text spells, as it is written.
pub fn written(alloc: Global, text: &str) -> Result<Option<Text>, NoMemory>
    ensures { IfOk result (λ w. w ≡ written text.now) }
{
    match path_in(alloc, text)? {
        Some(path) => Ok(Some(path.text(alloc)?)),
        None => Ok(None),
    }
}
