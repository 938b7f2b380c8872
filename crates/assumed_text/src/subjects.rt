//! Of what an assumption is, as the key of its text tells.

ghost use Rattle.std.specs.Prelude.{◌≡◌};
ghost use Rattle.rh_base.specs.Reading.{Gives};
ghost use Rattle.assumed_text.specs.Reading.{has_bracket, type_of, subject_of};

use crate::assumed::Subject;
use compiled_text::reference_of;
use rh_base::{Misread, Text};
use std::alloc::Global;

/// Whether a `[` stands in a text.
fn has_bracket(text: &str) -> bool
    ensures { result ≡ has_bracket text.now }
{
    for byte in text.as_bytes() {
        if *byte == b'[' {
            return true;
        }
    }
    false
}

/// The type that a text without a `[` is, in lower case: it is one where it makes a reference with a title behind it.
fn type_of(alloc: Global, key: &str) -> Result<Text, Misread>
    ensures { Gives (λ t. t) result (type_of key.now) }
{
    let mut text = Text::new(alloc);
    text.push(key)?;
    text.push("[x]")?;
    let reference = reference_of(alloc, text.as_str())?;
    Ok(reference.kind)
}

/// What a key names: with a `[` a resource, without one a type.
pub fn subject_of(alloc: Global, key: &str) -> Result<Subject, Misread>
    ensures { Gives (λ s. s) result (subject_of key.now) }
{
    if has_bracket(key) {
        Ok(Subject::One(reference_of(alloc, key)?))
    } else {
        Ok(Subject::EachOf(type_of(alloc, key)?))
    }
}
