//! The program that puts a file.

ghost use Rattle.std.specs.Prelude.{◌≡◌, IfOk};
ghost use Rattle.fs_lang.specs.Meaning.{program_of};
ghost use Rattle.fs_semantics.specs.Models as model;

use fs_lang::{Path, Program};
use rh_base::{NoMemory, Text};
use std::alloc::Global;

/// Puts a file with this content, whether one was there or not.
pub fn put(alloc: Global, path: &Path, content: &Text) -> Result<Program, NoMemory>
    ensures { IfOk result (λ e. program_of e ≡ model.put path.now content.now) }
{
    model_words::put(alloc, path, content.as_str())
}
