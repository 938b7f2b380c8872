//! Laws of what the files of a request say, as a function that does nothing.

ghost use Rattle.std.specs.Prelude.{◌≡◌};
ghost use Rattle.rh_base.specs.declared.fault.Refusal.{Refusal};
ghost use Rattle.known_inputs.specs.declared.inputs.Inputs.{Inputs as Given};
ghost use Rattle.known_inputs.specs.declared.inputs.Known.{Known as Said};
ghost use Rattle.known_inputs.specs.Inputs.{IsKnown, FirstUnread};

use assumed_text::assumption_texts;
use compiled_text::compiled_texts;
use given_text::given_texts;
use pkg_listing::listing_texts;
use pp_data::text_has_one_data;
use tree_text::tree_texts;

/// Files say one thing at most, and where all of them say something none is refused.
pub fn files_say_one_thing()
    ensures one { (i : Given) (k m : Said) → IsKnown i k → IsKnown i m → k ≡ m }
    ensures refusals { (i : Given) (k : Said) (r : Refusal) → IsKnown i k → FirstUnread i r → ⊥ }
{
    listing_texts();
    text_has_one_data();
    tree_texts();
    compiled_texts();
    assumption_texts();
    given_texts();
}
