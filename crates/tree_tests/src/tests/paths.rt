//! Paths from texts.

use super::answers::is_answered;
use fs_lang::{Path, PathFault, are_disjoint};
use rh_base::{NoMemory, Seq};
use std::alloc::Global;
use std::test::Fail;
use test_rows::{nested, same, same_number};

fn push_segment(text: &mut String, segment: &str) -> Result<(), NoMemory> {
    text.push('/')?;
    Ok(text.push_str(segment)?)
}

/// The segments, each after a slash.
fn spelled(alloc: Global, path: &Path) -> Result<String, NoMemory> {
    let mut text = String::new(alloc);
    for segment in path.segments() {
        push_segment(&mut text, segment.as_str())?;
    }
    Ok(text)
}

fn is_spelled(alloc: Global, path: &Path, text: &str, want: &str) -> Result<(), Fail> {
    let found = spelled(alloc, path)?;
    same(alloc, text, found.as_str(), want)
}

fn copy_is_spelled(alloc: Global, path: &Path, text: &str, want: &str) -> Result<(), Fail> {
    let copy = path.copy(alloc)?;
    is_spelled(alloc, &copy, text, want)
}

fn path_is_spelled(alloc: Global, text: &str, want: &str) -> Result<(), Fail> {
    let path = Path::read(alloc, text)?;
    is_spelled(alloc, &path, text, want)?;
    copy_is_spelled(alloc, &path, text, want)
}

/// Each row: a text, and how its path is spelled, and the copy of it.
fn are_spelled(alloc: Global, rows: &[(&str, &str)]) -> Result<(), Fail> {
    for (text, want) in rows {
        path_is_spelled(alloc, *text, *want)?;
    }
    Ok(())
}

#[test]
fn texts_that_are_paths(rt: HostRuntime) -> Result<(), Fail> {
    are_spelled(
        rt.alloc(),
        &[
            ("/", ""),
            ("///", ""),
            ("/a", "/a"),
            ("//a//b/", "/a/b"),
            ("/etc/ntp.conf", "/etc/ntp.conf"),
            ("/...", "/..."),
            ("/.rehearsal/x", "/.rehearsal/x"),
            ("/ü", "/ü"),
        ],
    )
}

fn told(read: Result<Path, PathFault>) -> &'static str {
    match read {
        Ok(_) => "a path",
        Err(PathFault::Bad) => "bad",
        Err(PathFault::Memory(_)) => "memory",
    }
}

/// Each text is no path.
fn are_refused(alloc: Global, texts: &[&str]) -> Result<(), Fail> {
    for text in texts {
        same(alloc, *text, told(Path::read(alloc, *text)), "bad")?;
    }
    Ok(())
}

#[test]
fn texts_that_are_no_paths(rt: HostRuntime) -> Result<(), Fail> {
    are_refused(
        rt.alloc(),
        &["", "a", "a/b", "/.", "/a/..", "/../a", "/a\0b", " /a"],
    )
}

fn has_segments(alloc: Global, text: &str, want: u64) -> Result<(), Fail> {
    let path = Path::read(alloc, text)?;
    same_number(alloc, text, path.segments().len() as u64, want)
}

/// A front, and a piece that is repeated behind it so many times.
fn repeated(
    alloc: Global,
    front: &'static str,
    piece: &'static str,
    count: usize,
) -> Result<String, NoMemory> {
    nested(alloc, &(front, piece, "", ""), count)
}

fn is_counted(alloc: Global, row: &(&'static str, &'static str, usize, u64)) -> Result<(), Fail> {
    let text = repeated(alloc, row.0, row.1, row.2)?;
    has_segments(alloc, text.as_str(), row.3)
}

/// Each row: a front, a piece that is repeated so many times, and how many segments the path has.
fn are_counted(
    alloc: Global,
    rows: &[(&'static str, &'static str, usize, u64)],
) -> Result<(), Fail> {
    for row in rows {
        is_counted(alloc, row)?;
    }
    Ok(())
}

#[test]
fn the_longest_paths(rt: HostRuntime) -> Result<(), Fail> {
    are_counted(rt.alloc(), &[("", "/s", 32, 32), ("/", "s", 1023, 1)])
}

fn is_too_long(alloc: Global, row: &(&'static str, &'static str, usize)) -> Result<(), Fail> {
    let text = repeated(alloc, row.0, row.1, row.2)?;
    are_refused(alloc, &[text.as_str()])
}

/// Each row: a front, and a piece that is repeated more often than a path may have it.
fn are_too_long(alloc: Global, rows: &[(&'static str, &'static str, usize)]) -> Result<(), Fail> {
    for row in rows {
        is_too_long(alloc, row)?;
    }
    Ok(())
}

#[test]
fn longer_paths(rt: HostRuntime) -> Result<(), Fail> {
    are_too_long(rt.alloc(), &[("", "/s", 33), ("/", "s", 1024)])
}

fn is_ancestor(alloc: Global, above: &Path, below: &str) -> Result<bool, Fail> {
    let below = Path::read(alloc, below)?;
    Ok(above.is_ancestor(&below))
}

fn is_above(alloc: Global, above: &str, below: &str, want: bool) -> Result<(), Fail> {
    let path = Path::read(alloc, above)?;
    let got = is_ancestor(alloc, &path, below)?;
    is_answered(alloc, &[above, " above ", below], got, want)
}

/// Each row: two paths, and whether the first stands above the second.
fn are_above(alloc: Global, rows: &[(&str, &str, bool)]) -> Result<(), Fail> {
    for (above, below, want) in rows {
        is_above(alloc, *above, *below, *want)?;
    }
    Ok(())
}

#[test]
fn paths_above_others(rt: HostRuntime) -> Result<(), Fail> {
    are_above(
        rt.alloc(),
        &[
            ("/", "/a", true),
            ("/a", "/a/b/c", true),
            ("/a", "/a", false),
            ("/a", "/ab", false),
            ("/a/b", "/a", false),
        ],
    )
}

fn push_path(alloc: Global, paths: &mut Seq<Path>, text: &str) -> Result<(), Fail> {
    Ok(paths.push(Path::read(alloc, text)?)?)
}

fn two(alloc: Global, left: &str, right: &str) -> Result<Seq<Path>, Fail> {
    let mut paths = Seq::new(alloc);
    push_path(alloc, &mut paths, left)?;
    push_path(alloc, &mut paths, right)?;
    Ok(paths)
}

fn is_apart(alloc: Global, left: &str, right: &str, want: bool) -> Result<(), Fail> {
    let both = two(alloc, left, right)?;
    let got = are_disjoint(both.as_slice());
    is_answered(alloc, &[left, " and ", right], got, want)
}

/// Each row: two paths, and whether neither is the other or stands above it.
fn are_apart(alloc: Global, rows: &[(&str, &str, bool)]) -> Result<(), Fail> {
    for (left, right, want) in rows {
        is_apart(alloc, *left, *right, *want)?;
    }
    Ok(())
}

#[test]
fn disjoint_paths(rt: HostRuntime) -> Result<(), Fail> {
    are_apart(
        rt.alloc(),
        &[
            ("/a/b", "/a/c", true),
            ("/a/b", "//a/b/", false),
            ("/a/b", "/a", false),
        ],
    )
}

fn is_written(alloc: Global, path: &Path, text: &str, want: &str) -> Result<(), Fail> {
    let found = path.text(alloc)?;
    same(alloc, text, found.as_str(), want)
}

fn parent_is_written(alloc: Global, path: &Path, text: &str, want: &str) -> Result<(), Fail> {
    let parent = path.parent(alloc)?;
    is_written(alloc, &parent, text, want)
}

fn both_are_written(alloc: Global, text: &str, want: &str, above: &str) -> Result<(), Fail> {
    let path = Path::read(alloc, text)?;
    is_written(alloc, &path, text, want)?;
    parent_is_written(alloc, &path, text, above)
}

/// Each row: a text, how its path is written, and how the parent is.
fn are_written(alloc: Global, rows: &[(&str, &str, &str)]) -> Result<(), Fail> {
    for (text, want, above) in rows {
        both_are_written(alloc, *text, *want, *above)?;
    }
    Ok(())
}

#[test]
fn paths_written_and_their_parents(rt: HostRuntime) -> Result<(), Fail> {
    are_written(
        rt.alloc(),
        &[
            ("/", "/", "/"),
            ("/a", "/a", "/"),
            ("//a/b/", "/a/b", "/a"),
            ("/etc/ntp.conf", "/etc/ntp.conf", "/etc"),
        ],
    )
}

/// A child of the root has the segment as its name.
fn is_named(alloc: Global, child: &Path, segment: &str) -> Result<(), Fail> {
    let text = child.text(alloc)?;
    let name = text.as_str().strip_prefix('/').unwrap_or("no slash");
    same(alloc, segment, name, segment)
}

fn is_child(alloc: Global, root: &Path, segment: &str) -> Result<(), Fail> {
    let child = root.child(alloc, segment)?;
    is_named(alloc, &child, segment)
}

/// Each segment gives a child of the root.
fn are_children(alloc: Global, root: &Path, segments: &[&str]) -> Result<(), Fail> {
    for segment in segments {
        is_child(alloc, root, *segment)?;
    }
    Ok(())
}

/// None of these segments gives a child of the root.
fn are_no_children(alloc: Global, root: &Path, segments: &[&str]) -> Result<(), Fail> {
    for segment in segments {
        same(alloc, *segment, told(root.child(alloc, *segment)), "bad")?;
    }
    Ok(())
}

#[test]
fn children_of_paths(rt: HostRuntime) -> Result<(), Fail> {
    let root = Path::root(rt.alloc())?;
    are_children(rt.alloc(), &root, &["a", "...", "a.b", "ü", ".rehearsal"])
}

#[test]
fn segments_of_no_child(rt: HostRuntime) -> Result<(), Fail> {
    let root = Path::root(rt.alloc())?;
    are_no_children(rt.alloc(), &root, &["", ".", "..", "a/b", "/", "a\0b"])
}
