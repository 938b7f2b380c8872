//! Bytes of texts.

ghost use Rattle.std.specs.Prelude.{◌≡◌, string_bytes};

use rh_base::{Seq, Text};

/// The bytes of a string.
pub fn bytes_in(text: String) -> Seq<u8>
    ensures { result ≡ string_bytes text }
{
    Seq::from_vec(text.into_bytes())
}

/// The bytes of a text.
pub fn bytes_of(text: Text) -> Seq<u8>
    ensures { result ≡ text }
{
    bytes_in(text.into_string())
}
