//! The places of native resources.

ghost use Rattle.std.specs.Prelude.{◌<◌, length, IfOk};
ghost use Rattle.std.specs.List.{AllByRecursion};

use catalog::Catalog;
use catalog_semantics::Sort;
use compiled_text::CompiledCatalog;
use rh_base::{NoMemory, Seq};
use std::alloc::Global;

/// The places at which both have a resource that is no container.
pub fn native_places(
    alloc: Global,
    texts: &CompiledCatalog,
    catalog: &Catalog,
) -> Result<Seq<u32>, NoMemory>
    ensures told { IfOk result (λ plain. AllByRecursion (λ i. i < length texts.now.resources) plain) }
    ensures made { IfOk result (λ plain. AllByRecursion (λ i. i < length catalog.now.resources) plain) }
{
    let told = texts.resources().len();
    let mut plain = Seq::new(alloc);
    for place in 0..catalog.count() {
        let is_told = (place as usize) < told;
        let is_plain = catalog.get(place).sort == Sort::Plain;
        if is_told && is_plain {
            plain.push(place)?;
        }
    }
    Ok(plain)
}
