//! Rows on the limits of values, resources and attributes.
ghost use Rattle.std.specs.Prelude.{◌<◌};

use super::answers::{compiled, compiled_under, counted};
use super::labels::{begins, told_at};
use host_limits::Limits;
use rh_base::NoMemory;
use std::alloc::Global;
use std::test::Fail;
use test_rows::{doubled, joined, same, same_at, titles};

/// What is told of a text that is doubled so many times.
fn told_of_doubled(alloc: Global, times: u32) -> Result<String, Fail> {
    let manifest = doubled(alloc, "x", times)?;
    compiled(alloc, manifest.as_str())
}

fn is_told_of_doubled(alloc: Global, times: u32, want: &str) -> Result<(), Fail> {
    let told = told_of_doubled(alloc, times)?;
    same_at(alloc, times as u64, "times", told.as_str(), want)
}

#[test]
fn values_of_the_greatest_size(rt: HostRuntime) -> Result<(), Fail> {
    is_told_of_doubled(rt.alloc(), 17, "")
}

/// The refusal of a value behind so many that are doubled.
fn refused_behind(alloc: Global, times: u32) -> Result<String, NoMemory> {
    let fits = doubled(alloc, "x", times)?;
    told_at(alloc, "32 at ", fits.len() + "$a18 = ".len(), ": value")
}

#[test]
fn values_that_are_too_large(rt: HostRuntime) -> Result<(), Fail> {
    let want = refused_behind(rt.alloc(), 17)?;
    is_told_of_doubled(rt.alloc(), 18, want.as_str())
}

/// So many titles between two pieces.
fn between_titles(
    alloc: Global,
    front: &str,
    count: u32,
    behind: &str,
) -> Result<String, NoMemory> {
    let list = titles(alloc, count)?;
    joined(alloc, &[front, list.as_str(), behind])
}

fn told_of_titles(alloc: Global, front: &str, count: u32, behind: &str) -> Result<String, Fail> {
    let manifest = between_titles(alloc, front, count, behind)?;
    compiled(alloc, manifest.as_str())
}

/// Whether what is told of so many titles between two pieces is this refusal.
fn refused_or_not(
    alloc: Global,
    front: &str,
    count: u32,
    behind: &str,
    refusal: &str,
) -> Result<&'static str, Fail> {
    let told = told_of_titles(alloc, front, count, behind)?;
    if told.as_str() == refusal {
        Ok("refused")
    } else {
        Ok("not refused")
    }
}

/// So many virtual resources are refused, or are not.
fn are_many(alloc: Global, count: u32, want: &str) -> Result<(), Fail> {
    let found = refused_or_not(alloc, "@file { ", count, ": }", "32 at 8: declared")?;
    same_at(alloc, count as u64, "resources", found, want)
}

#[test]
fn resources_that_are_many(rt: HostRuntime) -> Result<(), Fail> {
    are_many(rt.alloc(), 4_096, "not refused")
}

#[test]
fn resources_that_are_too_many(rt: HostRuntime) -> Result<(), Fail> {
    are_many(rt.alloc(), 4_097, "refused")
}

/// What is told within limits of so many titles behind a piece.
fn counted_titles(alloc: Global, front: &str, count: u32, limits: Limits) -> Result<String, Fail> {
    let manifest = between_titles(alloc, front, count, ": }")?;
    counted(alloc, manifest.as_str(), limits)
}

/// So many titles behind a piece are counted so within limits, or refused.
fn is_counted(
    alloc: Global,
    front: &str,
    count: u32,
    limits: Limits,
    want: &str,
) -> Result<(), Fail> {
    let told = counted_titles(alloc, front, count, limits)?;
    same_at(alloc, count as u64, front, told.as_str(), want)
}

fn is_counted_in_both(
    alloc: Global,
    front: &str,
    count: u32,
    usual: &str,
    host: &str,
) -> Result<(), Fail> {
    is_counted(alloc, front, count, Limits::Usual, usual)?;
    is_counted(alloc, front, count, Limits::Host, host)
}

/// Each row: a piece, so many titles behind it, and their count within the usual limits and within those of a host.
fn are_counted(alloc: Global, rows: &[(&str, u32, &str, &str)]) -> Result<(), Fail> {
    for (front, count, usual, host) in rows {
        is_counted_in_both(alloc, *front, *count, *usual, *host)?;
    }
    Ok(())
}

/// The refusal of resources that are too many.
const MANY: &str = "32 at 0: resources";

/// The refusal of titles that are too many.
const MOST: &str = "32 at 8: declared";

#[test]
fn limits_of_a_host(rt: HostRuntime) -> Result<(), Fail> {
    are_counted(
        rt.alloc(),
        &[
            ("file { ", 256, "256", "256"),
            ("file { ", 257, MANY, "257"),
            ("file { ", 1_024, MANY, "1024"),
            ("file { ", 1_025, MANY, MANY),
            ("@file { ", 4_096, "4096", "4096"),
            ("@file { ", 4_097, MOST, "4097"),
            ("@file { ", 16_384, MOST, "16384"),
            ("@file { ", 16_385, MOST, MOST),
        ],
    )
}

/// Whether so many titles between two pieces are refused for their attributes, at the list.
fn too_large_or_not(
    alloc: Global,
    front: &str,
    count: u32,
    behind: &str,
) -> Result<&'static str, Fail> {
    let refusal = told_at(alloc, "32 at ", front.len(), ": attributes")?;
    refused_or_not(alloc, front, count, behind, refusal.as_str())
}

/// The same with values in front of all.
fn too_large_behind(
    alloc: Global,
    values: &str,
    piece: &str,
    count: u32,
    behind: &str,
) -> Result<&'static str, Fail> {
    let front = joined(alloc, &[values, piece])?;
    too_large_or_not(alloc, front.as_str(), count, behind)
}

fn is_large(
    alloc: Global,
    values: &str,
    piece: &str,
    count: u32,
    behind: &str,
    want: &str,
) -> Result<(), Fail> {
    let found = too_large_behind(alloc, values, piece, count, behind)?;
    same_at(alloc, count as u64, piece, found, want)
}

/// Each row: so many titles between two pieces, behind these values, and whether they are refused for their attributes.
fn are_large(alloc: Global, values: &str, rows: &[(&str, u32, &str, &str)]) -> Result<(), Fail> {
    for (piece, count, behind, want) in rows {
        is_large(alloc, values, *piece, *count, *behind, *want)?;
    }
    Ok(())
}

/// Each resource has a text of 131,072 bytes. A default counts as often as it fills a resource, and is refused there.
#[test]
fn attributes_that_are_too_large(rt: HostRuntime) -> Result<(), Fail> {
    let values = doubled(rt.alloc(), "x", 17)?;
    are_large(
        rt.alloc(),
        values.as_str(),
        &[
            ("@file { ", 127, ": content => $a17 }", "not refused"),
            ("@file { ", 128, ": content => $a17 }", "refused"),
            (
                "File { content => $a17 } @file { ",
                127,
                ": }",
                "not refused",
            ),
            ("File { content => $a17 } @file { ", 128, ": }", "refused"),
        ],
    )
}

/// Class data that give the parameter of a class a text of so many bytes.
fn class_data(alloc: Global, count: usize) -> Result<String, NoMemory> {
    let value = "x".repeat(alloc, count)?;
    joined(
        alloc,
        &[
            "{\"levels\":[{\"values\":{\"c::p\":\"",
            value.as_str(),
            "\"}}]}",
        ],
    )
}

fn told_of_class_data(alloc: Global, count: usize) -> Result<String, Fail> {
    let levels = class_data(alloc, count)?;
    compiled_under(
        alloc,
        "class c($p) { } include c",
        "{}",
        "",
        levels.as_str(),
    )
}

/// This is told of class data with a text of so many bytes.
fn is_told_of_class_data(alloc: Global, count: usize, want: &str) -> Result<(), Fail> {
    let told = told_of_class_data(alloc, count)?;
    same_at(alloc, count as u64, "bytes", told.as_str(), want)
}

#[test]
fn class_data_that_are_large(rt: HostRuntime) -> Result<(), Fail> {
    is_told_of_class_data(rt.alloc(), 262_143, "Class[c]; ")
}

#[test]
fn class_data_that_are_too_large(rt: HostRuntime) -> Result<(), Fail> {
    is_told_of_class_data(rt.alloc(), 262_144, "32 at 16: value")
}

fn double_line(alloc: Global, i: u32) -> Result<String, NoMemory>
    requires { i < u32.MAX }
{
    Ok(format!(in alloc; "$a{} = $a{i} + $a{i}\n", i + 1)?)
}

fn push_double(alloc: Global, i: u32, into: &mut String) -> Result<(), NoMemory>
    requires { i < u32.MAX }
{
    let line = double_line(alloc, i)?;
    into.push_str(line.as_str())?;
    Ok(())
}

/// Lists of 1, 2, 4 and so on long numbers, each twice the one before it.
fn numbers(alloc: Global, times: u32) -> Result<String, NoMemory> {
    let mut manifest = String::from_str(alloc, "$a0 = [1000000000000000000]\n")?;
    for i in 0..times {
        push_double(alloc, i, &mut manifest)?;
    }
    Ok(manifest)
}

/// What is told of a statement behind other lines.
pub fn told_behind(alloc: Global, lines: &str, statement: &str) -> Result<String, Fail> {
    let manifest = joined(alloc, &[lines, statement])?;
    compiled(alloc, manifest.as_str())
}

/// What is told of a statement behind other lines begins so.
pub fn behind_begins(alloc: Global, lines: &str, statement: &str, want: &str) -> Result<(), Fail> {
    let told = told_behind(alloc, lines, statement)?;
    begins(alloc, statement, told.as_str(), want)
}

/// A message is shown that begins with a list, where two lists are to be shown behind these lines.
fn is_message(alloc: Global, lines: &str) -> Result<(), Fail> {
    let want = told_at(alloc, "30 at ", lines.len(), ": [1")?;
    behind_begins(alloc, lines, "fail($a13, $a13)", want.as_str())
}

/// Each argument that is shown has the limit of a value, but not all of them together.
#[test]
fn messages_have_no_limit(rt: HostRuntime) -> Result<(), Fail> {
    let lines = numbers(rt.alloc(), 13)?;
    is_message(rt.alloc(), lines.as_str())
}

fn is_told_behind(alloc: Global, lines: &str, statement: &str, want: &str) -> Result<(), Fail> {
    let told = told_behind(alloc, lines, statement)?;
    same(alloc, statement, told.as_str(), want)
}

/// The second argument is refused behind these lines.
fn is_large_argument(alloc: Global, lines: &str) -> Result<(), Fail> {
    let want = told_at(alloc, "32 at ", lines.len() + "fail('x', ".len(), ": value")?;
    is_told_behind(alloc, lines, "fail('x', $a14)", want.as_str())
}

#[test]
fn arguments_that_are_too_large(rt: HostRuntime) -> Result<(), Fail> {
    let lines = numbers(rt.alloc(), 14)?;
    is_large_argument(rt.alloc(), lines.as_str())
}
