//! Texts of compiled catalogs that a table puts together.

use rh_base::NoMemory;
use std::alloc::Global;
use test_rows::joined;

/// The text of a compiled catalog that has resources and edges, as they stand in JSON.
pub fn catalog_of(alloc: Global, resources: &str, edges: &str) -> Result<String, NoMemory> {
    joined(
        alloc,
        &[
            r#"{"catalog_format":2,"resources":["#,
            resources,
            r#"],"edges":["#,
            edges,
            "]}",
        ],
    )
}
