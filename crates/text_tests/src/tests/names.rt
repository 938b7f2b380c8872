//! Names as segments, and paths that may be managed.

use fs_lang::{Path, PathFault, segment};
use std::alloc::Global;
use std::test::Fail;
use test_rows::{same, same_number};

/// A name has this segment.
fn is_segment(alloc: Global, name: &str, want: &str) -> Result<(), Fail> {
    let found = segment(alloc, name)?;
    same(alloc, name, found.as_str(), want)
}

/// Each name has the segment beside it.
fn are_segments(alloc: Global, rows: &[(&str, &str)]) -> Result<(), Fail> {
    for (name, want) in rows {
        is_segment(alloc, *name, *want)?;
    }
    Ok(())
}

#[test]
fn names_and_their_segments(rt: HostRuntime) -> Result<(), Fail> {
    are_segments(
        rt.alloc(),
        &[
            ("ntp", "ntp"),
            ("a/b%", "a%2Fb%25"),
            ("/", "%2F"),
            ("%2F", "%252F"),
            (".", "%2E"),
            ("..", "%2E%2E"),
            ("...", "..."),
            (".a", ".a"),
            ("ü x", "ü x"),
        ],
    )
}

fn fault_of(alloc: Global, name: &str) -> &'static str {
    match segment(alloc, name) {
        Ok(_) => "a segment",
        Err(PathFault::Bad) => "bad",
        Err(PathFault::Memory(_)) => "memory",
    }
}

/// A name has no segment.
fn is_bad(alloc: Global, name: &str) -> Result<(), Fail> {
    same(alloc, name, fault_of(alloc, name), "bad")
}

/// Names that have no segment.
fn are_bad(alloc: Global, names: &[&str]) -> Result<(), Fail> {
    for name in names {
        is_bad(alloc, *name)?;
    }
    Ok(())
}

#[test]
fn names_without_a_segment(rt: HostRuntime) -> Result<(), Fail> {
    are_bad(rt.alloc(), &["", "\0", "a\0b"])
}

/// How many bytes the segment of a name has.
fn size_of(alloc: Global, name: &str) -> Result<u64, Fail> {
    let found = segment(alloc, name)?;
    Ok(found.as_str().len() as u64)
}

/// The same of a name of so many slashes.
fn size_of_slashes(alloc: Global, count: usize) -> Result<u64, Fail> {
    let name = "/".repeat(alloc, count)?;
    size_of(alloc, name.as_str())
}

#[test]
fn the_longest_name(rt: HostRuntime) -> Result<(), Fail> {
    same_number(
        rt.alloc(),
        "slashes",
        size_of_slashes(rt.alloc(), 255)?,
        765,
    )
}

#[test]
fn longer_names(rt: HostRuntime) -> Result<(), Fail> {
    let name = "/".repeat(rt.alloc(), 256)?;
    is_bad(rt.alloc(), name.as_str())
}

fn word(reserved: bool, managed: bool) -> &'static str {
    match (reserved, managed) {
        (true, true) => "reserved, and may be managed",
        (true, false) => "reserved",
        (false, true) => "may be managed",
        (false, false) => "neither",
    }
}

/// Whether a path is reserved, and whether it may be managed.
fn is_told(alloc: Global, text: &str, reserved: bool, managed: bool) -> Result<(), Fail> {
    let path = Path::read(alloc, text)?;
    let told = word(path.is_reserved(), path.may_be_managed());
    same(alloc, text, told, word(reserved, managed))
}

/// The same of each row's path.
fn are_told(alloc: Global, rows: &[(&str, bool, bool)]) -> Result<(), Fail> {
    for (text, reserved, managed) in rows {
        is_told(alloc, *text, *reserved, *managed)?;
    }
    Ok(())
}

#[test]
fn paths_that_may_be_managed(rt: HostRuntime) -> Result<(), Fail> {
    are_told(
        rt.alloc(),
        &[
            ("/", false, false),
            ("/etc/motd", false, true),
            ("/.rehearsal", true, false),
            ("//.rehearsal/package/p", true, false),
            ("/.rehearsals", false, true),
            ("/etc/.rehearsal", false, true),
        ],
    )
}
