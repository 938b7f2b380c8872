//! A law of the words, as a function that does nothing.

ghost use Rattle.std.specs.Prelude.{◌≡◌, List};
ghost use Rattle.clap.specs.Walk.{Text};
ghost use Rattle.command_line.specs.declared.request.Request.{Request as Asked};
ghost use Rattle.command_line.specs.Words.{Makes};

use fs_lang::path_texts;

/// Words make one request at most.
pub fn one_request()
    ensures { (words : List Text) (r s : Asked) → Makes words r → Makes words s → r ≡ s }
{
    path_texts();
}
