//! Texts as bytes.

ghost use Rattle.std.specs.Prelude.{◌≡◌, string_bytes};

use rh_base::Seq;

/// The bytes of a text.
pub fn bytes_of(text: String) -> Seq<u8>
    ensures { result ≡ string_bytes text }
{
    Seq::from_vec(text.into_bytes())
}
