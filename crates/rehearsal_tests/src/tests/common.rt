//! The drivers: a run over files and sinks in memory, and what is told compared with a row.

use rehearsal_core::{rehearse, rehearse_in_memory};
use rh_base::{MemoryShelf, MemorySink, SureShelf, SureSink, Text};
use std::alloc::{AllocError, Global};
use std::test::Fail;
use test_rows::{joined, same, same_number, same_of};

/// A manifest, and the listing beside it.
pub type Site<'a> = (&'a str, &'a str);

/// What is told of nothing, and of one and two resources of which pruning keeps none.
pub const NONE: &str =
    "resources 0\npruned 0\ndeterministic\nidempotent\nsucceeds from some tree\n";

pub const ONE: &str = "resources 1\npruned 1\ndeterministic\nidempotent\nsucceeds from some tree\n";

pub const TWO: &str = "resources 2\npruned 2\ndeterministic\nidempotent\nsucceeds from some tree\n";

/// What a run ended with: the status, and what was written to out and err.
#[derive(Drop)]
pub struct Told {
    pub status: u8,
    pub out: String,
    pub err: String,
}

fn string(alloc: Global, bytes: &[u8]) -> Result<String, Fail> {
    let text = str::from_utf8(bytes).map_err(|_| Fail::from("the output is text"))?;
    Ok(String::from_str(alloc, text)?)
}

fn ending(alloc: Global, status: u8, out: &[u8], err: &[u8]) -> Result<Told, Fail> {
    let out = string(alloc, out)?;
    let err = string(alloc, err)?;
    Ok(Told { status, out, err })
}

fn words(alloc: Global, named: &[&str]) -> Result<Vec<String>, AllocError> {
    let mut words = Vec::new(alloc);
    for word in named {
        words.push(String::from_str(alloc, word)?)?;
    }
    Ok(words)
}

fn file(alloc: Global, name: &str, bytes: &[u8]) -> Result<(Text, Vec<u8>), AllocError> {
    let name = Text::from_string(String::from_str(alloc, name)?);
    Ok((name, bytes.to_vec(alloc)?))
}

fn files(alloc: Global, named: &[(&str, &[u8])]) -> Result<Vec<(Text, Vec<u8>)>, AllocError> {
    let mut files = Vec::new(alloc);
    for (name, bytes) in named {
        files.push(file(alloc, name, bytes)?)?;
    }
    Ok(files)
}

/// What words give where the file `site.pp` has these bytes and nothing fails.
pub fn run(alloc: Global, named: &[&str], bytes: &[u8]) -> Result<Told, Fail> {
    run_over(alloc, named, &[("site.pp", bytes)])
}

/// What a run over this shelf writes to sinks of which no call fails.
fn told_over(alloc: Global, named: &[String], shelf: &mut SureShelf) -> Result<Told, Fail> {
    let mut out = SureSink::new(alloc);
    let mut err = SureSink::new(alloc);
    let status = rehearse_in_memory(alloc, named, shelf, &mut out, &mut err);
    ending(alloc, status, out.bytes(), err.bytes())
}

fn told_of(alloc: Global, named: &[String], over: &[(&str, &[u8])]) -> Result<Told, Fail> {
    let mut shelf = SureShelf::new(files(alloc, over)?);
    told_over(alloc, named, &mut shelf)
}

/// What words give over these files, where nothing fails.
pub fn run_over(alloc: Global, named: &[&str], over: &[(&str, &[u8])]) -> Result<Told, Fail> {
    let named = words(alloc, named)?;
    told_of(alloc, named.as_slice(), over)
}

/// The numbers of the calls that are to fail: of reading, of out and of err.
pub type Failing = (&'static [u64], &'static [u64], &'static [u64]);

/// What words give over one manifest, a shelf and sinks of which some calls fail.
pub fn run_failing(alloc: Global, named: &[&str], failing: &Failing) -> Result<Told, Fail> {
    let manifest = b"file { '/etc/motd': content => 'hi' }";
    run_over_failing(alloc, named, &[("site.pp", manifest)], failing)
}

/// The same over this manifest, and with a file of each kind beside it.
pub fn run_files_failing(
    alloc: Global,
    named: &[&str],
    manifest: &str,
    failing: &Failing,
) -> Result<Told, Fail> {
    let over: [(&str, &[u8]); 6] = [
        ("site.pp", manifest.as_bytes()),
        ("facts", b"{}"),
        ("data", br#"{"levels":[]}"#),
        (
            "listing",
            br#"{"version":1,"packages":{"ntp":{"files":["/etc/ntp.conf"],"folders":[]}}}"#,
        ),
        ("tree", b"{}"),
        ("order", br#"["File[/x]"]"#),
    ];
    run_over_failing(alloc, named, &over, failing)
}

fn shelf(alloc: Global, over: &[(&str, &[u8])], reads: &[u64]) -> Result<MemoryShelf, AllocError> {
    let files = files(alloc, over)?;
    Ok(MemoryShelf::new(files, reads.to_vec(alloc)?))
}

fn sink(alloc: Global, writes: &[u64]) -> Result<MemorySink, AllocError> {
    Ok(MemorySink::new(alloc, writes.to_vec(alloc)?))
}

/// What a run over this shelf writes to sinks of which out is this one, and of err some calls fail.
fn told_to(
    alloc: Global,
    named: &[String],
    shelf: &mut MemoryShelf,
    out: &mut MemorySink,
    writes: &[u64],
) -> Result<Told, Fail> {
    let mut err = sink(alloc, writes)?;
    let status = rehearse(alloc, named, shelf, out, &mut err);
    ending(alloc, status, out.bytes(), err.bytes())
}

/// What a run over this shelf writes to sinks of which some calls fail.
fn told_failing(
    alloc: Global,
    named: &[String],
    shelf: &mut MemoryShelf,
    failing: &Failing,
) -> Result<Told, Fail> {
    let mut out = sink(alloc, failing.1)?;
    told_to(alloc, named, shelf, &mut out, failing.2)
}

fn told_of_failing(
    alloc: Global,
    named: &[String],
    over: &[(&str, &[u8])],
    failing: &Failing,
) -> Result<Told, Fail> {
    let mut shelf = shelf(alloc, over, failing.0)?;
    told_failing(alloc, named, &mut shelf, failing)
}

fn run_over_failing(
    alloc: Global,
    named: &[&str],
    over: &[(&str, &[u8])],
    failing: &Failing,
) -> Result<Told, Fail> {
    let named = words(alloc, named)?;
    told_of_failing(alloc, named.as_slice(), over, failing)
}

/// Compares what was told with a status, a report and a line on err.
pub fn compare(
    alloc: Global,
    told: &Told,
    status: u8,
    out: &str,
    err: &str,
    row: &str,
) -> Result<(), Fail> {
    same(alloc, row, told.out.as_str(), out)?;
    compare_err(alloc, told, err, row)?;
    compare_status(alloc, told, status, row)
}

/// Compares what was told with one text: with status 0 the report, and with another the line on err.
pub fn compare_text(
    alloc: Global,
    told: &Told,
    status: u8,
    text: &str,
    row: &str,
) -> Result<(), Fail> {
    if status == 0 {
        compare(alloc, told, 0, text, "", row)
    } else {
        compare(alloc, told, status, "", text, row)
    }
}

/// Compares what was told with a report, or with a refusal, whose status is 4 or 5.
pub fn compare_told(
    alloc: Global,
    told: &Told,
    status: u8,
    text: &str,
    row: &str,
) -> Result<(), Fail> {
    if status == 4 || status == 5 {
        compare(alloc, told, status, "", text, row)
    } else {
        compare(alloc, told, status, text, "", row)
    }
}

/// Compares what was told with a refusal: the line on err without its first word.
pub fn compare_refusal(alloc: Global, told: &Told, line: &str, row: &str) -> Result<(), Fail> {
    let err = joined(alloc, &["refused ", line, "\n"])?;
    compare(alloc, told, 4, "", err.as_str(), row)
}

/// Compares the status.
pub fn compare_status(alloc: Global, told: &Told, status: u8, row: &str) -> Result<(), Fail> {
    same_number(alloc, row, told.status as u64, status as u64)
}

/// Compares what stands on err.
pub fn compare_err(alloc: Global, told: &Told, err: &str, row: &str) -> Result<(), Fail> {
    same(alloc, row, told.err.as_str(), err)
}

/// Compares what was told with a status and the lines in front of the report.
pub fn compare_head(
    alloc: Global,
    told: &Told,
    status: u8,
    head: &str,
    row: &str,
) -> Result<(), Fail> {
    compare_status(alloc, told, status, row)?;
    begins(alloc, row, told.out.as_str(), head)
}

/// A text begins with these words.
pub fn begins(alloc: Global, row: &str, text: &str, head: &str) -> Result<(), Fail> {
    let got = if text.starts_with(head) { head } else { text };
    same(alloc, row, got, head)
}

/// These words stand in a text.
pub fn has(alloc: Global, row: &str, text: &str, words: &str) -> Result<(), Fail> {
    let got = if text.contains(words) { words } else { text };
    same(alloc, row, got, words)
}

fn word(is_so: bool) -> &'static str {
    if is_so { "yes" } else { "no" }
}

/// What is wanted of a row of several words is so.
pub fn holds(alloc: Global, row: &[&str], is_so: bool) -> Result<(), Fail> {
    same_of(alloc, row, word(is_so), "yes")
}

/// Adds parts to a text, one behind the other.
pub fn push_all(text: &mut String, parts: &[&str]) -> Result<(), Fail> {
    for part in parts {
        text.push_str(*part)?;
    }
    Ok(())
}
