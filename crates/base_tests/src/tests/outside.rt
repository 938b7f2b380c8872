//! Shelves and sinks, in memory and of the system.

ghost use Rattle.std.specs.Prelude.{◌<◌};

use rh_base::{
    Fetched, FileShelf, MemoryShelf, MemorySink, NoMemory, Shelf, ShelfFault, Sink, SinkFault,
    StdSink, SureShelf, SureSink, Text,
};
use std::alloc::Global;
use std::fs;
use std::test::Fail;
use test_rows::{joined, same};

/// Files of these names and bytes.
fn files(alloc: Global, rows: &[(&str, &[u8])]) -> Result<Vec<(Text, Vec<u8>)>, Fail> {
    let mut files = Vec::new(alloc);
    for (name, bytes) in rows {
        let name = String::from_str(alloc, *name)?;
        files.push((Text::from_string(name), bytes.to_vec(alloc)?))?;
    }
    Ok(files)
}

/// What a fetch answers, in a word, and what it read.
fn shown(
    alloc: Global,
    answer: Result<Fetched, ShelfFault>,
    read: &[u8],
) -> Result<String, NoMemory> {
    let word = match answer {
        Ok(Fetched::Whole) => "whole: ",
        Ok(Fetched::Longer) => "longer: ",
        Err(ShelfFault::Failed) => "failed: ",
        Err(ShelfFault::Memory(_)) => "memory: ",
    };
    joined(alloc, &[word, str::from_utf8(read).unwrap_or("no text")])
}

/// What a shelf answers, and what is read from it.
fn fetched<S: Shelf>(
    shelf: &mut S,
    alloc: Global,
    name: &str,
    limit: usize,
) -> Result<String, NoMemory>
    requires { limit < usize.MAX }
{
    let mut into = Vec::new(alloc);
    let answer = shelf.fetch(name, limit, &mut into);
    shown(alloc, answer, &into)
}

/// A rule, a name, a limit, and what the fetch answers and reads.
type Row = (&'static str, &'static str, usize, &'static str);

fn is_fetched<S: Shelf>(shelf: &mut S, alloc: Global, row: &Row) -> Result<(), Fail> {
    let (rule, name, limit, want) = *row;
    if limit == usize::MAX {
        return Err("a limit that is none".into());
    }
    let got = fetched(shelf, alloc, name, limit)?;
    same(alloc, rule, got.as_str(), want)
}

/// Fetches one after the other are answered so.
fn are_fetched<S: Shelf>(shelf: &mut S, alloc: Global, rows: &[Row]) -> Result<(), Fail> {
    for row in rows {
        is_fetched(shelf, alloc, row)?;
    }
    Ok(())
}

#[test]
fn shelves_in_memory_give_what_they_hold(rt: HostRuntime) -> Result<(), Fail> {
    let alloc = rt.alloc();
    let files = files(alloc, &[("a", b"first"), ("a", b"second")])?;
    let mut shelf = MemoryShelf::new(files, vec![in alloc; 2u64]?);
    are_fetched(
        &mut shelf,
        alloc,
        &[
            ("the first of a name is read", "a", 5, "whole: first"),
            ("the second read fails", "a", 5, "failed: "),
            ("a longer file gives nothing", "a", 4, "longer: "),
            ("a missing file is a fault", "b", 4, "failed: "),
        ],
    )
}

#[test]
fn sure_shelves_give_what_they_hold(rt: HostRuntime) -> Result<(), Fail> {
    let mut shelf = SureShelf::new(files(rt.alloc(), &[("a", b"first")])?);
    are_fetched(
        &mut shelf,
        rt.alloc(),
        &[
            ("a file is read whole", "a", 5, "whole: first"),
            ("a missing file is empty", "b", 5, "whole: "),
        ],
    )
}

fn is_put<S: Sink>(sink: &mut S, alloc: Global, piece: &str, want: &str) -> Result<(), Fail> {
    let got = match sink.put(piece.as_bytes()) {
        Ok(()) => "kept",
        Err(SinkFault::Failed) => "failed",
        Err(SinkFault::Memory(_)) => "memory",
    };
    same(alloc, piece, got, want)
}

/// Pieces that are put one after the other are answered so.
fn are_put<S: Sink>(sink: &mut S, alloc: Global, rows: &[(&str, &str)]) -> Result<(), Fail> {
    for (piece, want) in rows {
        is_put(sink, alloc, *piece, *want)?;
    }
    Ok(())
}

/// A sink holds these bytes.
fn are_held(alloc: Global, bytes: &[u8], want: &str) -> Result<(), Fail> {
    same(
        alloc,
        "what a sink holds",
        str::from_utf8(bytes).unwrap_or("no text"),
        want,
    )
}

/// The second piece that isn't empty is put in part.
fn are_put_in_part(alloc: Global, sink: &mut MemorySink) -> Result<(), Fail> {
    are_put(sink, alloc, &[("", "kept")])?;
    sink.reserve(10)?;
    are_put(
        sink,
        alloc,
        &[("abc", "kept"), ("defgh", "failed"), ("xyz", "kept")],
    )
}

#[test]
fn sinks_in_memory_keep_what_is_put(rt: HostRuntime) -> Result<(), Fail> {
    let alloc = rt.alloc();
    let mut sink = MemorySink::new(alloc, vec![in alloc; 2u64]?);
    are_put_in_part(alloc, &mut sink)?;
    are_held(alloc, sink.bytes(), "abcdexyz")
}

/// A piece is put where there is room for it.
fn are_put_within(alloc: Global, sink: &mut SureSink) -> Result<(), Fail> {
    sink.reserve(5)?;
    are_put(sink, alloc, &[("12345", "kept")])
}

#[test]
fn sure_sinks_keep_what_is_put(rt: HostRuntime) -> Result<(), Fail> {
    let mut sure = SureSink::new(rt.alloc());
    are_put_within(rt.alloc(), &mut sure)?;
    are_held(rt.alloc(), sure.bytes(), "12345")
}

#[test]
fn streams_of_the_system(rt: HostRuntime) -> Result<(), Fail> {
    let mut out = StdSink::new(rt.stdout());
    are_put(
        &mut out,
        rt.alloc(),
        &[("", "kept"), ("a line on standard output\n", "kept")],
    )
}

#[test]
fn files_of_the_system(rt: HostRuntime) -> Result<(), Fail> {
    let alloc = rt.alloc();
    fs::write(&rt, "shelved.txt", "0123456789")?;
    let mut shelf = FileShelf::new(rt);
    are_fetched(
        &mut shelf,
        alloc,
        &[
            (
                "a file within the limit is read whole",
                "shelved.txt",
                10,
                "whole: 0123456789",
            ),
            ("a longer file gives nothing", "shelved.txt", 9, "longer: "),
            ("a missing file is a fault", "no such file", 9, "failed: "),
            ("a folder is a fault", ".", 9, "failed: "),
        ],
    )
}
