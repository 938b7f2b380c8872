//! The limits are those that the pages state.

use rh_base::limits::{
    ATTRIBUTES_SIZE, DECLARED, DOMAIN_PATHS, FACTS_BYTES, LISTING_BYTES, MANIFEST_BYTES,
    NAME_BYTES, NESTING, ORDER_BYTES, PATH_BYTES, PATH_SEGMENTS, PROOF_BYTES, RESOURCES,
    TREE_BYTES, VALUE_DEPTH, VALUE_SIZE, WEIGHT,
};
use std::alloc::Global;
use std::test::Fail;
use test_rows::same_number;

/// Each row: what is limited, the limit, and the one that is stated.
fn are_stated(alloc: Global, rows: &[(&str, u64, u64)]) -> Result<(), Fail> {
    for (words, limit, stated) in rows {
        same_number(alloc, *words, *limit, *stated)?;
    }
    Ok(())
}

#[test]
fn limits_of_what_is_read(rt: HostRuntime) -> Result<(), Fail> {
    are_stated(
        rt.alloc(),
        &[
            ("bytes of a manifest", MANIFEST_BYTES as u64, 262_144),
            ("bytes of facts", FACTS_BYTES as u64, 262_144),
            ("bytes of a listing", LISTING_BYTES as u64, 4_194_304),
            ("bytes of a tree", TREE_BYTES as u64, 4_194_304),
            ("bytes of an order", ORDER_BYTES as u64, 1_048_576),
            ("bytes of proofs", PROOF_BYTES as u64, 67_108_864),
            ("bytes of a path", PATH_BYTES as u64, 1_024),
            ("segments of a path", PATH_SEGMENTS as u64, 32),
            ("bytes of a name", NAME_BYTES as u64, 255),
        ],
    )
}

#[test]
fn limits_of_what_is_worked_on(rt: HostRuntime) -> Result<(), Fail> {
    are_stated(
        rt.alloc(),
        &[
            ("size of a value", VALUE_SIZE, 262_144),
            ("depth of a value", VALUE_DEPTH, 1_000),
            ("size of attributes", ATTRIBUTES_SIZE, 16_777_216),
            ("paths of a domain", DOMAIN_PATHS, 4_096),
            ("weight", WEIGHT, 700_000),
        ],
    )
}

#[test]
fn limits_of_what_is_declared(rt: HostRuntime) -> Result<(), Fail> {
    are_stated(
        rt.alloc(),
        &[
            ("nesting", u64::from(NESTING), 64),
            ("declared", u64::from(DECLARED), 4_096),
            ("resources", u64::from(RESOURCES), 256),
        ],
    )
}
