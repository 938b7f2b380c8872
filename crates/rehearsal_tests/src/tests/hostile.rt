//! Manifests and texts of someone who means harm, and devices that fail.

use super::common::{
    Failing, NONE, Told, begins, compare, compare_err, compare_status, compare_told, holds,
    push_all, run, run_files_failing,
};
use super::verify::all_told;
use std::alloc::Global;
use std::test::Fail;
use test_rows::{Pieces, boxes, doubled, joined, nested, number_text, numbered, titles};

/// What nests and how often, with the status and what is told.
const NESTED: [(Pieces, usize, u8, &str); 4] = [
    (("$x = ", "[", "", "]"), 64, 0, NONE),
    (
        ("$x = ", "[", "", "]"),
        65,
        4,
        "refused 13 at 69: nesting\n",
    ),
    (
        ("$x = ", "!", "true", ""),
        65,
        4,
        "refused 13 at 69: nesting\n",
    ),
    (
        ("$x = $y", "[0]", "", ""),
        65,
        4,
        "refused 13 at 199: nesting\n",
    ),
];

fn told_of(alloc: Global, manifest: &str) -> Result<Told, Fail> {
    run(alloc, &["site.pp"], manifest.as_bytes())
}

/// What is told of a text that nests so often.
fn told_nested(alloc: Global, pieces: &Pieces, count: usize) -> Result<Told, Fail> {
    let manifest = nested(alloc, pieces, count)?;
    told_of(alloc, manifest.as_str())
}

/// A text that nests so often is told of so.
fn is_nested(
    alloc: Global,
    pieces: &Pieces,
    count: usize,
    status: u8,
    text: &str,
) -> Result<(), Fail> {
    let told = told_nested(alloc, pieces, count)?;
    compare_told(alloc, &told, status, text, text)
}

fn all_nested(alloc: Global, rows: &[(Pieces, usize, u8, &str)]) -> Result<(), Fail> {
    for (pieces, count, status, text) in rows {
        is_nested(alloc, pieces, *count, *status, *text)?;
    }
    Ok(())
}

#[test]
fn texts_that_nest(rt: HostRuntime) -> Result<(), Fail> {
    all_nested(rt.alloc(), &NESTED)
}

const CLASS: &str =
    "class ntp($servers = ['a', 'b']) { package { 'ntp': ensure => installed } file { '/etc/ntp.conf': ensure => file, owner => 'root', mode => '0644', content => \"servers ${servers}\\n\", require => Package['ntp'] } service { 'ntp': ensure => running, enable => true, subscribe => File['/etc/ntp.conf'] } } include ntp";

/// The manifest is judged or refused.
fn is_answered(alloc: Global, manifest: &str) -> Result<(), Fail> {
    let told = told_of(alloc, manifest)?;
    holds(alloc, &[manifest], told.status == 0 || told.status == 4)
}

/// Each front of the manifest is judged or refused.
fn fronts_are_answered(alloc: Global, manifest: &str) -> Result<(), Fail> {
    for n in 0..manifest.len() {
        if let Some(front) = manifest.get(..n) {
            is_answered(alloc, front)?;
        }
    }
    Ok(())
}

#[test]
fn fronts_of_a_manifest(rt: HostRuntime) -> Result<(), Fail> {
    fronts_are_answered(rt.alloc(), CLASS)
}

#[test]
fn definitions_that_declare_themselves(rt: HostRuntime) -> Result<(), Fail> {
    all_told(
        rt.alloc(),
        &["site.pp"],
        4,
        &[(
            "define d() { d { \"${title}x\": } } d { 'x': }",
            "refused 32 at 17: declared\n",
        )],
    )
}

/// The manifest is judged, large as it is.
fn is_judged(alloc: Global, manifest: &str) -> Result<(), Fail> {
    let told = told_of(alloc, manifest)?;
    compare(alloc, &told, 0, NONE, "", "a manifest that may be")
}

/// The manifest is refused with this line.
fn is_refused(alloc: Global, manifest: &str, line: &str) -> Result<(), Fail> {
    let told = told_of(alloc, manifest)?;
    compare(alloc, &told, 4, "", line, line)
}

/// The line of a refusal, from the place on.
fn line_of(alloc: Global, at: usize, name: &str) -> Result<String, Fail> {
    let place = number_text(alloc, at as u64)?;
    Ok(joined(alloc, &["refused 32 at ", place.as_str(), ": ", name, "\n"])?)
}

/// The manifest is refused at this place for what is too large.
fn is_too_large(alloc: Global, manifest: &str, at: usize, name: &str) -> Result<(), Fail> {
    let line = line_of(alloc, at, name)?;
    is_refused(alloc, manifest, line.as_str())
}

/// Where the value stands that is twice the largest that fits.
fn place_of_doubled(alloc: Global) -> Result<usize, Fail> {
    let fits = doubled(alloc, "xxxxxxxx", 14)?;
    Ok(fits.len() + "$a15 = ".len())
}

/// The text that is twice the largest that fits is refused at this place.
fn is_refused_doubled(alloc: Global, at: usize) -> Result<(), Fail> {
    let large = doubled(alloc, "xxxxxxxx", 15)?;
    is_too_large(alloc, large.as_str(), at, "value")
}

/// The text that is twice the largest that fits is refused where it stands.
fn twice_is_refused(alloc: Global) -> Result<(), Fail> {
    let at = place_of_doubled(alloc)?;
    is_refused_doubled(alloc, at)
}

#[test]
fn texts_that_grow(rt: HostRuntime) -> Result<(), Fail> {
    twice_is_refused(rt.alloc())
}

/// Behind these lines, each of these files has the text `$a14`.
fn files_of(alloc: Global, values: &str, titles: &str) -> Result<String, Fail> {
    Ok(joined(alloc, &[values, "@file { ", titles, ": content => $a14 }"])?)
}

/// Behind these lines, each of 128 files has the text `$a14`.
fn files_behind(alloc: Global, values: &str) -> Result<String, Fail> {
    let titles = titles(alloc, 128)?;
    files_of(alloc, values, titles.as_str())
}

/// Behind these lines, the attributes of 128 files are refused.
fn are_refused_behind(alloc: Global, values: &str) -> Result<(), Fail> {
    let large = files_behind(alloc, values)?;
    let at = values.len().saturating_add("@file { ".len());
    is_too_large(alloc, large.as_str(), at, "attributes")
}

/// A text is doubled so often, and 128 files that have it are refused.
fn are_refused_with(alloc: Global, times: u32) -> Result<(), Fail> {
    let values = doubled(alloc, "xxxxxxxx", times)?;
    are_refused_behind(alloc, values.as_str())
}

/// Each of 128 files has a text of 131,072 bytes, which is 1 too large.
#[test]
fn attributes_that_grow(rt: HostRuntime) -> Result<(), Fail> {
    are_refused_with(rt.alloc(), 14)
}

/// So many lists are judged, large as they are.
fn boxes_are_judged(alloc: Global, count: usize) -> Result<(), Fail> {
    let fits = boxes(alloc, count)?;
    is_judged(alloc, fits.as_str())
}

#[test]
fn lists_as_large_as_may_be(rt: HostRuntime) -> Result<(), Fail> {
    boxes_are_judged(rt.alloc(), 1_000)
}

/// Where the list stands that has the largest that fits.
fn place_of_box(alloc: Global) -> Result<usize, Fail> {
    let fits = boxes(alloc, 1_000)?;
    Ok(fits.len() + "$a1001 = ".len())
}

/// The list behind the largest that fits is refused at this place.
fn box_is_refused(alloc: Global, at: usize) -> Result<(), Fail> {
    let large = boxes(alloc, 1_001)?;
    is_too_large(alloc, large.as_str(), at, "value")
}

/// The list behind the largest that fits is refused where it stands.
fn one_more_is_refused(alloc: Global) -> Result<(), Fail> {
    let at = place_of_box(alloc)?;
    box_is_refused(alloc, at)
}

#[test]
fn lists_that_grow(rt: HostRuntime) -> Result<(), Fail> {
    one_more_is_refused(rt.alloc())
}

/// Adds the class of a number, which includes that of the next.
fn push_including(classes: &mut String, number: &str, next: &str) -> Result<(), Fail> {
    push_all(classes, &["class c", number, " { include c", next, " }\n"])
}

/// The same, of a number that isn't a text yet.
fn push_class(alloc: Global, classes: &mut String, number: &str, next: u64) -> Result<(), Fail> {
    let next = number_text(alloc, next)?;
    push_including(classes, number, next.as_str())
}

/// The same, where neither number is a text.
fn push_one(alloc: Global, classes: &mut String, number: u64) -> Result<(), Fail> {
    let text = number_text(alloc, number)?;
    push_class(alloc, classes, text.as_str(), number.saturating_add(1))
}

/// The classes `c1`, `c2` and so on below an end, each of which includes the next in its body.
fn including(alloc: Global, end: u32) -> Result<String, Fail> {
    let mut classes = String::new(alloc);
    for i in 1..end {
        push_one(alloc, &mut classes, i as u64)?;
    }
    Ok(classes)
}

/// A class of a number behind these, and the first class is included.
fn with_last(alloc: Global, classes: &str, number: u32) -> Result<String, Fail> {
    let last = numbered(alloc, "class c", number as u64, " { }\ninclude c1")?;
    Ok(joined(alloc, &[classes, last.as_str()])?)
}

/// So many classes, each of which includes the next in its body.
fn in_bodies(alloc: Global, count: u32) -> Result<String, Fail> {
    let classes = including(alloc, count)?;
    with_last(alloc, classes.as_str(), count)
}

/// So many bodies within one another are judged.
fn bodies_are_judged(alloc: Global, count: u32) -> Result<(), Fail> {
    let fits = in_bodies(alloc, count)?;
    is_judged(alloc, fits.as_str())
}

#[test]
fn as_many_bodies_as_may_be(rt: HostRuntime) -> Result<(), Fail> {
    bodies_are_judged(rt.alloc(), 64)
}

/// The manifest is refused where these words stand.
fn is_refused_at(alloc: Global, manifest: &str, words: &str) -> Result<(), Fail> {
    let (front, _) = manifest.split_once(words).unwrap_or(("", ""));
    is_too_large(alloc, manifest, front.len(), "declared")
}

/// So many bodies within one another are refused where these words stand.
fn bodies_are_refused(alloc: Global, count: u32, words: &str) -> Result<(), Fail> {
    let large = in_bodies(alloc, count)?;
    is_refused_at(alloc, large.as_str(), words)
}

#[test]
fn bodies_within_bodies(rt: HostRuntime) -> Result<(), Fail> {
    bodies_are_refused(rt.alloc(), 65, "include c65")
}

#[test]
fn counts_that_are_only_stated(rt: HostRuntime) -> Result<(), Fail> {
    all_told(
        rt.alloc(),
        &["--ask", "check", "site.pp"],
        4,
        &[
            (
                "proofs 1\np cnf 1 9223372036854775807\n",
                "refused 80 at 0: proof\n",
            ),
            (
                "proofs 1\np cnf 9223372036854775807 0\nlog 0\n",
                "refused 80 at 0: proof\n",
            ),
        ],
    )
}

/// Words, a manifest, the calls that fail, and what stands on out and on err.
type End = (
    &'static [&'static str],
    &'static str,
    Failing,
    &'static str,
    &'static str,
);

/// A row ends with this status.
fn ends(alloc: Global, status: u8, row: &End) -> Result<(), Fail> {
    let told = run_files_failing(alloc, row.0, row.1, &row.2)?;
    compare(alloc, &told, status, row.3, row.4, row.4)
}

/// Each row ends with this status.
fn all_end(alloc: Global, status: u8, rows: &[End]) -> Result<(), Fail> {
    for row in rows {
        ends(alloc, status, row)?;
    }
    Ok(())
}

/// Words that name files of all kinds but class data.
const FILES: &[&str] = &[
    "--ask",
    "replay",
    "--facts",
    "facts",
    "--packages",
    "listing",
    "--tree",
    "tree",
    "--order",
    "order",
    "site.pp",
];

const FILES_WITH_DATA: &[&str] = &[
    "--data",
    "data",
    "--ask",
    "replay",
    "--facts",
    "facts",
    "--packages",
    "listing",
    "--tree",
    "tree",
    "--order",
    "order",
    "site.pp",
];

/// Two manifests, of which the other one is read directly after the input.
const OF_TWO: &[&str] = &[
    "--other", "order", "--ask", "equal", "--facts", "facts", "site.pp",
];

/// A run ends at the read that fails, and tells of that file.
#[test]
fn reads_that_fail(rt: HostRuntime) -> Result<(), Fail> {
    all_end(
        rt.alloc(),
        6,
        &[
            (FILES, "", (&[1], &[], &[]), "", "read fault: facts\n"),
            (FILES, "", (&[2], &[], &[]), "", "read fault: listing\n"),
            (FILES, "", (&[3], &[], &[]), "", "read fault: site.pp\n"),
            (FILES, "", (&[4], &[], &[]), "", "read fault: tree\n"),
            (FILES, "", (&[5], &[], &[]), "", "read fault: order\n"),
            (
                FILES_WITH_DATA,
                "",
                (&[1], &[], &[]),
                "",
                "read fault: facts\n",
            ),
            (
                FILES_WITH_DATA,
                "",
                (&[2], &[], &[]),
                "",
                "read fault: listing\n",
            ),
            (
                FILES_WITH_DATA,
                "",
                (&[3], &[], &[]),
                "",
                "read fault: data\n",
            ),
            (
                FILES_WITH_DATA,
                "",
                (&[4], &[], &[]),
                "",
                "read fault: site.pp\n",
            ),
            (
                FILES_WITH_DATA,
                "",
                (&[5], &[], &[]),
                "",
                "read fault: tree\n",
            ),
            (
                FILES_WITH_DATA,
                "",
                (&[6], &[], &[]),
                "",
                "read fault: order\n",
            ),
            (OF_TWO, "", (&[1], &[], &[]), "", "read fault: facts\n"),
            (OF_TWO, "", (&[2], &[], &[]), "", "read fault: site.pp\n"),
            (OF_TWO, "", (&[3], &[], &[]), "", "read fault: order\n"),
        ],
    )
}

/// Words name a file that isn't there, of which is told whatever the manifest is.
fn misses(alloc: Global, manifest: &str, words: &[&str]) -> Result<(), Fail> {
    let told = run_files_failing(alloc, words, manifest, &(&[], &[], &[]))?;
    compare(
        alloc,
        &told,
        6,
        "",
        "read fault: none\n",
        "a file that is missing",
    )
}

/// Each row: words that name a file that isn't there, of which is told whatever the manifest is.
fn all_miss(alloc: Global, manifest: &str, rows: &[&[&str]]) -> Result<(), Fail> {
    for words in rows {
        misses(alloc, manifest, *words)?;
    }
    Ok(())
}

/// The same, where the manifest is of so many blanks.
fn all_miss_beside(alloc: Global, length: usize, rows: &[&[&str]]) -> Result<(), Fail> {
    let blanks = " ".repeat(alloc, length)?;
    all_miss(alloc, blanks.as_str(), rows)
}

/// A file that isn't there is told of, whatever file is too long.
#[test]
fn a_file_that_is_missing(rt: HostRuntime) -> Result<(), Fail> {
    all_miss_beside(
        rt.alloc(),
        262_145,
        &[
            &["--facts", "none", "site.pp"],
            &["--ask", "replay", "--tree", "none", "site.pp"],
            &["--ask", "replay", "--order", "none", "site.pp"],
            &["--ask", "equal", "--other", "none", "site.pp"],
        ],
    )
}

#[test]
fn writes_that_fail(rt: HostRuntime) -> Result<(), Fail> {
    all_end(
        rt.alloc(),
        7,
        &[
            (
                &["site.pp"],
                "exec { 'ls': }",
                (&[], &[], &[1]),
                "",
                "refused 50 at",
            ),
            (
                &["--ask", "replay", "--order", "order", "site.pp"],
                "file { '/etc/motd': content => 'hi' }",
                (&[], &[], &[1]),
                "",
                "refused 63 ",
            ),
        ],
    )
}

/// The first half of what is told of a package and its configuration.
const HALF: &str = "resources 2\npruned 0\nnot deterministic\n";

/// What is told of these two where calls fail.
fn told_in_halves(alloc: Global, failing: &Failing) -> Result<Told, Fail> {
    run_files_failing(
        alloc,
        &["--packages", "listing", "site.pp"],
        "package { 'ntp': } file { '/etc/ntp.conf': content => 'server a' }",
        failing,
    )
}

/// A front of the report stands there.
fn is_cut_off(alloc: Global, cut: &Told) -> Result<(), Fail> {
    compare_status(alloc, cut, 7, "cut off")?;
    begins(alloc, "cut off", cut.out.as_str(), HALF)?;
    compare_err(alloc, cut, "write fault\n", "cut off")
}

/// The whole report stands there, which begins with what is cut off.
fn is_whole(alloc: Global, whole: &Told, cut: &str) -> Result<(), Fail> {
    compare_status(alloc, whole, 1, "whole")?;
    compare_err(alloc, whole, "", "whole")?;
    begins(alloc, "whole", whole.out.as_str(), cut)
}

/// The whole report begins with what is cut off.
fn whole_begins(alloc: Global, cut: &str) -> Result<(), Fail> {
    let whole = told_in_halves(alloc, &(&[], &[2], &[]))?;
    is_whole(alloc, &whole, cut)
}

/// A front of the report stands there, and no more.
fn is_front(alloc: Global, cut: &Told) -> Result<(), Fail> {
    is_cut_off(alloc, cut)?;
    whole_begins(alloc, cut.out.as_str())
}

/// Where the calls fail, a front of the report stands there.
fn ends_in_front(alloc: Global, failing: &Failing) -> Result<(), Fail> {
    let cut = told_in_halves(alloc, failing)?;
    is_front(alloc, &cut)
}

/// A report of which the first write fails: a front of it stands there, and status 7. No other write is tried.
#[test]
fn reports_that_are_cut_off(rt: HostRuntime) -> Result<(), Fail> {
    ends_in_front(rt.alloc(), &(&[], &[1], &[]))
}
