//! A run over files and sinks in memory, of which none fails.

ghost use Rattle.std.specs.Prelude.{◌≡◌};
ghost use Rattle.rh_base.specs.Kept.{files_of};
ghost use Rattle.rh_base.specs.Shelf.{ElseEmpty};
ghost use Rattle.rehearsal_core.specs.Runs.{sure_put, sure_run};
ghost use Rattle.rehearsal_core.specs.Headline.{Headline};
ghost use Rattle.rehearsal_core.specs.Answers.{Tells, Owes};

use crate::run::rehearse;
use rh_base::{SureShelf, SureSink};
use std::alloc::Global;

/// As `rehearse` does. No write fails, and no read: a missing name reads as empty.
pub fn rehearse_in_memory(
    alloc: Global,
    words: &[String],
    shelf: &mut SureShelf,
    out: &mut SureSink,
    err: &mut SureSink,
) -> u8
    ensures headline { Headline
        (sure_run words.now (ElseEmpty (files_of shelf.old)) (sure_put out.old.bytes out.new.bytes)
        (sure_put err.old.bytes err.new.bytes)) result }
    ensures tells { Tells (sure_run words.now (ElseEmpty (files_of shelf.old)) (sure_put out.old.bytes out.new.bytes)
        (sure_put err.old.bytes err.new.bytes)) result }
    ensures owes { Owes (sure_run words.now (ElseEmpty (files_of shelf.old)) (sure_put out.old.bytes out.new.bytes)
        (sure_put err.old.bytes err.new.bytes)) result }
    ensures writes { result ≡ 7 → ⊥ }
    ensures reads { result ≡ 6 → ⊥ }
{
    rehearse(alloc, words, shelf, out, err)
}
