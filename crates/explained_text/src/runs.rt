//! Words on how runs end.

ghost use Rattle.std.specs.Prelude.{◌≡◌, ◌++◌, OnOk};
ghost use Rattle.explained_text.specs.Lines.{fails_words};
ghost use Rattle.fs_lang.specs.Meaning.{program_of};
ghost use Rattle.failure_search.specs.Found.{reason_of};

use crate::steps::push_step;
use failure_search::Failure;
use rh_base::{NoMemory, Text};
use std::alloc::Global;

/// Appends that a run fails at the resource of this name, by this construct.
pub fn push_failure(
    alloc: Global,
    name: &str,
    failure: &Failure,
    into: &mut Text,
) -> Result<(), NoMemory>
    ensures { OnOk result (into.new ≡ into.old ++ fails_words name.now (program_of failure.now.construct.now)
        (reason_of failure.now.reason)) }
{
    into.push("fails at ")?;
    into.push(name)?;
    into.push(": ")?;
    push_step(alloc, failure, into)
}
