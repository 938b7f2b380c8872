//! The texts of compiled catalogs.

use compiled_text::{CompiledCatalog, compiled_from_json};
use std::alloc::Global;
use std::test::Fail;
use test_hosts::catalog_of;

/// The compiled catalog of these resources and edges.
pub fn compiled(alloc: Global, resources: &str, edges: &str) -> Result<CompiledCatalog, Fail> {
    let text = catalog_of(alloc, resources, edges)?;
    Ok(compiled_from_json(alloc, text.as_bytes())?)
}
