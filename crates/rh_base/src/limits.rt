//! The limits of what the program reads and works on.

/// Bytes of a manifest.
pub const MANIFEST_BYTES: usize = 262_144;

/// Bytes of a file of facts, or of class data.
pub const FACTS_BYTES: usize = 262_144;

/// Bytes of a listing of packages.
pub const LISTING_BYTES: usize = 4_194_304;

/// Bytes of a file tree's text.
pub const TREE_BYTES: usize = 4_194_304;

/// Bytes of an order's text.
pub const ORDER_BYTES: usize = 1_048_576;

/// Bytes of a text of proofs.
pub const PROOF_BYTES: usize = 67_108_864;

/// Depth of nesting in a manifest.
pub const NESTING: u32 = 64;

/// Size of one value.
pub const VALUE_SIZE: u64 = 262_144;

/// How many lists and maps of one value stand within one another.
pub const VALUE_DEPTH: u64 = 1_000;

/// Declared resources and classes, virtual ones too.
pub const DECLARED: u32 = 4_096;

/// Sum of the sizes of all attribute values.
pub const ATTRIBUTES_SIZE: u64 = 16_777_216;

/// Real plain resources.
pub const RESOURCES: u32 = 256;

/// Bytes of a path's text.
pub const PATH_BYTES: usize = 1_024;

/// Segments of a path that is read.
pub const PATH_SEGMENTS: usize = 32;

/// Bytes of a modelled name.
pub const NAME_BYTES: usize = 255;

/// Paths of a finite domain.
pub const DOMAIN_PATHS: u64 = 4_096;

/// Weight of a graph: what its questions cost.
pub const WEIGHT: u64 = 700_000;
