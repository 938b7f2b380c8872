//! How the attributes of a resource are read.

ghost use Rattle.std.specs.Prelude.{◌≡◌};
ghost use Rattle.compiled_attributes.specs.Attributes.{reading_of};

use compiled_text::{CompiledResource, is_concat_file};
use model_attributes::kind_of;
use model_semantics::Kind;

/// As what the attributes of a resource are read.
#[derive(Clone, Copy, Debug, PartialEq, Eq)]
pub(crate) enum Reading {
    /// those of what contains others
    Container,
    /// those of a file that is put together of fragments
    Concat,
    /// those of any other native resource, whose type may have a model
    Native(Option<Kind>),
}

/// As what the attributes of a resource are read.
pub(crate) fn reading_of(r: &CompiledResource) -> Reading
    ensures { result ≡ reading_of r.now }
{
    if r.is_container {
        return Reading::Container;
    }
    if is_concat_file(r) {
        return Reading::Concat;
    }
    Reading::Native(kind_of(r.id.kind.as_str()))
}
