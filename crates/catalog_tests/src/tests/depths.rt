//! Rows on how deep what is declared may be.
ghost use Rattle.std.specs.Prelude.{◌<◌};

use super::limits::{behind_begins, told_behind};
use rh_base::NoMemory;
use std::alloc::Global;
use std::test::Fail;
use test_rows::{joined, number_text, same_of};

/// What stands in front of a number, between it and the one before it, and behind that.
type Pieces = (&'static str, &'static str, &'static str);

fn link(alloc: Global, i: u32, pieces: &Pieces) -> Result<String, NoMemory>
    requires { i < u32.MAX }
{
    let (front, middle, behind) = *pieces;
    Ok(format!(in alloc; "{front}{}{middle}{i}{behind}", i + 1)?)
}

fn push_link(alloc: Global, i: u32, pieces: &Pieces, into: &mut String) -> Result<(), NoMemory>
    requires { i < u32.MAX }
{
    let line = link(alloc, i, pieces)?;
    into.push_str(line.as_str())?;
    Ok(())
}

/// A hundred classes or defined types. Each but the first is made of its number and that of the one before it.
fn in_line(alloc: Global, first: &str, pieces: &Pieces) -> Result<String, NoMemory> {
    let mut manifest = String::from_str(alloc, first)?;
    for i in 1..100u32 {
        push_link(alloc, i, pieces, &mut manifest)?;
    }
    Ok(manifest)
}

const CLASSES: Pieces = ("class c", " inherits c", " { }\n");

#[test]
fn parents_take_no_depth(rt: HostRuntime) -> Result<(), Fail> {
    let lines = in_line(rt.alloc(), "class c1 { }\n", &CLASSES)?;
    behind_begins(
        rt.alloc(),
        lines.as_str(),
        "include c100",
        "Class[c1]; Class[c2]; ",
    )
}

const TYPES: Pieces = ("define d", "() { d", " { 'x': } }\n");

#[test]
fn defined_resources_take_no_depth(rt: HostRuntime) -> Result<(), Fail> {
    let lines = in_line(rt.alloc(), "define d1() { }\n", &TYPES)?;
    behind_begins(
        rt.alloc(),
        lines.as_str(),
        "d100 { 'x': }",
        "D100[x]; D99[x]; ",
    )
}

/// A statement behind what opens so many blocks, and what closes them behind it.
fn closed(alloc: Global, front: &str, blocks: usize, statement: &str) -> Result<String, NoMemory> {
    let behind = " }".repeat(alloc, blocks)?;
    joined(alloc, &[front, statement, behind.as_str()])
}

/// Blocks within one another, as many as are asked for, around a statement.
fn in_blocks(alloc: Global, blocks: usize, statement: &str) -> Result<String, NoMemory> {
    let front = "if true { ".repeat(alloc, blocks)?;
    closed(alloc, front.as_str(), blocks, statement)
}

fn include_of(alloc: Global, number: u32) -> Result<String, NoMemory> {
    let number = number_text(alloc, number as u64)?;
    joined(alloc, &["include c", number.as_str()])
}

/// The statement that includes a class, within so many blocks.
fn include_in_blocks(alloc: Global, number: u32, blocks: usize) -> Result<String, NoMemory> {
    let statement = include_of(alloc, number)?;
    in_blocks(alloc, blocks, statement.as_str())
}

fn class_of(alloc: Global, number: u32, body: &str) -> Result<String, NoMemory> {
    let number = number_text(alloc, number as u64)?;
    joined(alloc, &["class c", number.as_str(), " { ", body, " }\n"])
}

/// A class that includes the next one within so many blocks.
fn class_in_blocks(alloc: Global, number: u32, blocks: usize) -> Result<String, NoMemory>
    requires { number < u32.MAX }
{
    let body = include_in_blocks(alloc, number + 1, blocks)?;
    class_of(alloc, number, body.as_str())
}

/// A class that has so many blocks, with nothing in them.
fn last_class(alloc: Global, number: u32, blocks: usize) -> Result<String, NoMemory> {
    let body = in_blocks(alloc, blocks, "")?;
    class_of(alloc, number, body.as_str())
}

fn push_class(alloc: Global, number: u32, blocks: usize, into: &mut String) -> Result<(), NoMemory>
    requires { number < u32.MAX }
{
    let class = class_in_blocks(alloc, number, blocks)?;
    into.push_str(class.as_str())?;
    Ok(())
}

fn push_last(alloc: Global, number: u32, blocks: usize, into: &mut String) -> Result<(), NoMemory> {
    let class = last_class(alloc, number, blocks)?;
    into.push_str(class.as_str())?;
    Ok(())
}

/// Classes `c1`, `c2` and so on, each of which includes the next within so many blocks, and the last of which has such blocks.
fn classes_in_blocks(alloc: Global, count: u32, blocks: usize) -> Result<String, NoMemory> {
    let mut classes = String::new(alloc);
    for i in 1..count {
        push_class(alloc, i, blocks, &mut classes)?;
    }
    push_last(alloc, count, blocks, &mut classes)?;
    Ok(classes)
}

/// Whether what is told is a catalog that begins with the first class, or the refusal of what is too deep.
fn depth_of(told: &str) -> &'static str {
    match (
        told.starts_with("Class[c1]; "),
        told.ends_with(": declared"),
    ) {
        (true, false) => "fits",
        (false, true) => "too deep",
        _ => "neither",
    }
}

/// How deep a statement is behind other lines.
fn depth_behind(alloc: Global, lines: &str, statement: &str) -> Result<&'static str, Fail> {
    let told = told_behind(alloc, lines, statement)?;
    Ok(depth_of(told.as_str()))
}

/// How deep so many classes are with so many blocks in each.
fn depth_of_blocks(alloc: Global, count: u32, blocks: usize) -> Result<&'static str, Fail> {
    let classes = classes_in_blocks(alloc, count, blocks)?;
    depth_behind(alloc, classes.as_str(), "include c1")
}

/// A row of two numbers.
fn same_between(
    alloc: Global,
    first: &str,
    second: u64,
    got: &str,
    want: &str,
) -> Result<(), Fail> {
    let second = number_text(alloc, second)?;
    same_of(
        alloc,
        &[first, " classes, ", second.as_str(), " blocks"],
        got,
        want,
    )
}

fn same_of_blocks(
    alloc: Global,
    count: u32,
    blocks: usize,
    got: &str,
    want: &str,
) -> Result<(), Fail> {
    let count = number_text(alloc, count as u64)?;
    same_between(alloc, count.as_str(), blocks as u64, got, want)
}

fn is_deep(alloc: Global, count: u32, blocks: usize, want: &str) -> Result<(), Fail> {
    let depth = depth_of_blocks(alloc, count, blocks)?;
    same_of_blocks(alloc, count, blocks, depth, want)
}

/// Each row: so many classes with so many blocks in each, and whether they fit.
fn are_deep(alloc: Global, rows: &[(u32, usize, &str)]) -> Result<(), Fail> {
    for (count, blocks, want) in rows {
        is_deep(alloc, *count, *blocks, *want)?;
    }
    Ok(())
}

/// A body counts one, and each block that is open in it.
#[test]
fn blocks_in_bodies(rt: HostRuntime) -> Result<(), Fail> {
    are_deep(
        rt.alloc(),
        &[
            (8, 63, "fits"),
            (9, 63, "too deep"),
            (64, 7, "fits"),
            (57, 8, "too deep"),
        ],
    )
}

/// A class that includes one with so many blocks, and the call of all.
fn last_classes(alloc: Global, blocks: usize) -> Result<String, NoMemory> {
    let body = in_blocks(alloc, blocks, "")?;
    joined(
        alloc,
        &[
            "class c8 { include c9 }\nclass c9 { ",
            body.as_str(),
            " }\ninclude c1",
        ],
    )
}

/// How deep a ninth class with so many blocks is behind those ahead of the eighth.
fn depth_behind_seven(alloc: Global, classes: &str, blocks: usize) -> Result<&'static str, Fail> {
    let (front, _) = classes.split_once("class c8").unwrap_or(("", ""));
    let last = last_classes(alloc, blocks)?;
    depth_behind(alloc, front, last.as_str())
}

fn depth_of_ninth(alloc: Global, blocks: usize) -> Result<&'static str, Fail> {
    let classes = classes_in_blocks(alloc, 8, 63)?;
    depth_behind_seven(alloc, classes.as_str(), blocks)
}

/// So many blocks in the last of nine classes fit, or too much is declared.
fn ninth_is_deep(alloc: Global, blocks: usize, want: &str) -> Result<(), Fail> {
    let depth = depth_of_ninth(alloc, blocks)?;
    same_of_blocks(alloc, 9, blocks, depth, want)
}

/// A body that is to run counts with its deepest block, wherever it is declared.
#[test]
fn deepest_blocks(rt: HostRuntime) -> Result<(), Fail> {
    ninth_is_deep(rt.alloc(), 62, "fits")
}

#[test]
fn blocks_that_are_too_deep(rt: HostRuntime) -> Result<(), Fail> {
    ninth_is_deep(rt.alloc(), 63, "too deep")
}
