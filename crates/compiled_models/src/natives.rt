//! Native resources.

ghost use Rattle.std.specs.Prelude.{◌≡◌, ◌<◌, length, slice_get, Some, IfOk};
ghost use Rattle.compiled_models.specs.Hosts.{native_of};

use catalog::Catalog;
use catalog_semantics::Resource;
use compiled_text::{CompiledCatalog, CompiledResource};

/// A native resource: its place, as the text tells it, and as it stands in the catalog.
#[derive(Clone, Copy)]
pub(crate) struct Native<'n> {
    pub(crate) place: u32,
    pub(crate) text: &'n CompiledResource,
    pub(crate) resource: &'n Resource,
}

/// The resource at a place of both.
pub(crate) fn native_at<'n>(
    texts: &'n CompiledCatalog,
    catalog: &'n Catalog,
    place: u32,
) -> Native<'n>
    requires told { place < length texts.now.resources }
    requires made { place < length catalog.now.resources }
    ensures place { result.place ≡ place }
    ensures text { slice_get texts.now.resources place ≡ Some result.text.now }
    ensures resource { slice_get catalog.now.resources place ≡ Some result.resource.now }
{
    Native {
        place,
        text: &texts.resources()[place as usize],
        resource: catalog.get(place),
    }
}
