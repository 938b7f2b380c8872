//! Packages by their names, and the limits of digests and paths.

use pkg_listing::{Listing, listing_from_json};
use std::alloc::Global;
use std::test::Fail;
use test_rows::{joined, same, same_number};

const TWO: &str =
    r#"{"version":1,"packages":{"a":{"files":["/a"],"folders":[]},"b":{"files":[],"folders":[]}}}"#;

fn told(alloc: Global, bytes: &[u8]) -> &'static str {
    match listing_from_json(alloc, bytes) {
        Ok(_) => "accepted",
        Err(_) => "refused",
    }
}

/// The text of these parts is accepted or refused.
fn is_told(alloc: Global, parts: &[&str], want: &str) -> Result<(), Fail> {
    let text = joined(alloc, parts)?;
    same(alloc, text.as_str(), told(alloc, text.as_bytes()), want)
}

/// How many files a package of this name has.
fn files(listing: &Listing, name: &str) -> &'static str {
    match listing.find(name) {
        Some(package) => match package.files.len() {
            0 => "no files",
            1 => "one file",
            _ => "several files",
        },
        None => "no package",
    }
}

/// Each row: a name, and how many files its package has.
fn are_found(alloc: Global, listing: &Listing, rows: &[(&str, &str)]) -> Result<(), Fail> {
    for (name, want) in rows {
        same(alloc, *name, files(listing, *name), *want)?;
    }
    Ok(())
}

#[test]
fn packages_are_found(rt: HostRuntime) -> Result<(), Fail> {
    let listing = listing_from_json(rt.alloc(), TWO.as_bytes())?;
    are_found(
        rt.alloc(),
        &listing,
        &[
            ("a", "one file"),
            ("b", "no files"),
            ("A", "no package"),
            ("", "no package"),
        ],
    )
}

fn has_digest(alloc: Global, count: usize, want: &str) -> Result<(), Fail> {
    let digest = "d".repeat(alloc, count)?;
    is_told(
        alloc,
        &[
            r#"{"version":2,"packages":{"a":{"files":[["/a",""#,
            digest.as_str(),
            r#""]],"folders":[]}}}"#,
        ],
        want,
    )
}

/// Each row: how many letters a digest has, and whether it is accepted.
fn have_digests(alloc: Global, rows: &[(usize, &str)]) -> Result<(), Fail> {
    for (count, want) in rows {
        has_digest(alloc, *count, *want)?;
    }
    Ok(())
}

#[test]
fn digests_are_short(rt: HostRuntime) -> Result<(), Fail> {
    have_digests(
        rt.alloc(),
        &[(1, "accepted"), (255, "accepted"), (256, "refused")],
    )
}

fn has_path(alloc: Global, part: &str, count: usize, want: &str) -> Result<(), Fail> {
    let path = part.repeat(alloc, count)?;
    is_told(
        alloc,
        &[
            r#"{"version":1,"packages":{"a":{"files":[],"folders":[""#,
            path.as_str(),
            r#""]}}}"#,
        ],
        want,
    )
}

/// Each row: a part, how many times a path has it, and whether the path is accepted.
fn have_paths(alloc: Global, rows: &[(&str, usize, &str)]) -> Result<(), Fail> {
    for (part, count, want) in rows {
        has_path(alloc, *part, *count, *want)?;
    }
    Ok(())
}

#[test]
fn paths_are_short(rt: HostRuntime) -> Result<(), Fail> {
    have_paths(
        rt.alloc(),
        &[
            ("/a", 32, "accepted"),
            ("/a", 33, "refused"),
            ("/234567890123456", 64, "refused"),
            // 1,024 bytes, and one more
            ("/2345678901234567890123456789012", 32, "accepted"),
            ("/2345678901234567890123456789012345678901", 25, "refused"),
        ],
    )
}

#[test]
fn other_bytes_are_refused(rt: HostRuntime) -> Result<(), Fail> {
    same(
        rt.alloc(),
        "no text",
        told(rt.alloc(), &[b'{', 255, b'}']),
        "refused",
    )
}

fn is_empty(alloc: Global, listing: &Listing) -> Result<(), Fail> {
    same_number(alloc, "packages", listing.packages().len() as u64, 0)
}

#[test]
fn the_empty_listing(rt: HostRuntime) -> Result<(), Fail> {
    let none = Listing::empty(rt.alloc())?;
    is_empty(rt.alloc(), &none)
}
