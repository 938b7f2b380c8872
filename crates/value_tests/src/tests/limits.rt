//! Rows at the limits of one value: its size and its depth.
use super::answers::{FACTS, assigned};
use pp_value::{Value, ValueFault, add, size};
use rh_base::{Boxed, NoMemory, Seq, Text};
use std::alloc::Global;
use std::test::Fail;
use test_rows::{boxes, joined, number_text, same_at};

fn with_name(alloc: Global, kind: &str, rest: &str) -> Result<String, NoMemory> {
    match rest.split_once(": ") {
        Some((_, name)) => joined(alloc, &[kind, " ", name]),
        None => joined(alloc, &[kind]),
    }
}

/// What stands before the first blank of a value, or a whole refusal, whose place isn't told.
fn kind_in(alloc: Global, answer: &str) -> Result<String, NoMemory> {
    match answer.split_once(' ') {
        Some((kind, rest)) => with_name(alloc, kind, rest),
        None => joined(alloc, &[answer]),
    }
}

/// The kind of the value that is assigned to `$r`, or the refusal.
fn kind_assigned(alloc: Global, text: &str) -> Result<String, Fail> {
    let answer = assigned(alloc, FACTS, text)?;
    Ok(kind_in(alloc, answer.as_str())?)
}

/// A text that is assigned to `$a`, of so many bytes, and what stands behind.
fn behind_long(alloc: Global, bytes: usize, text: &str) -> Result<String, NoMemory> {
    let letters = "x".repeat(alloc, bytes)?;
    joined(alloc, &["$a = '", letters.as_str(), "' ", text])
}

fn kind_behind_long(alloc: Global, bytes: usize, text: &str) -> Result<String, Fail> {
    let manifest = behind_long(alloc, bytes, text)?;
    kind_assigned(alloc, manifest.as_str())
}

fn is_behind_long(alloc: Global, bytes: usize, text: &str, want: &str) -> Result<(), Fail> {
    let kind = kind_behind_long(alloc, bytes, text)?;
    same_at(alloc, bytes as u64, text, kind.as_str(), want)
}

/// Each row: so many bytes of `$a`, what is assigned behind it, and its kind, or the refusal.
fn are_behind_long(alloc: Global, rows: &[(usize, &str, &str)]) -> Result<(), Fail> {
    for (bytes, text, want) in rows {
        is_behind_long(alloc, *bytes, *text, *want)?;
    }
    Ok(())
}

#[test]
fn a_value_has_a_greatest_size(rt: HostRuntime) -> Result<(), Fail> {
    are_behind_long(
        rt.alloc(),
        &[
            (131_070, "$r = [$a] + [$a]", "list"),
            (131_071, "$r = [$a] + [$a]", "32 value"),
            (131_070, "$r = [$a, $a]", "list"),
            (131_071, "$r = [$a, $a]", "32 value"),
            (131_071, "$r = [$a, $a, $z]", "20 $z"),
            (131_071, "$r = \"${a}${a}\"", "text"),
            (131_072, "$r = \"${a}${a}\"", "32 value"),
            (131_072, "$r = \"${a}${a}${z}\"", "32 value"),
            (262_143, "$r = $a", "text"),
            (262_144, "$r = 1", "32 value"),
            (131_068, "$r = {'a' => $a} + {'b' => $a}", "map"),
            (131_069, "$r = {'a' => $a} + {'b' => $a}", "32 value"),
            (131_068, "$r = {'a' => $a, 'b' => $a}", "map"),
            (131_069, "$r = {'a' => $a, 'b' => $a}", "32 value"),
            (262_139, "$r = File[$a]", "reference"),
            (262_140, "$r = File[$a]", "32 value"),
        ],
    )
}

/// One text of so many bytes.
fn items_of(alloc: Global, bytes: usize) -> Result<Seq<Value>, NoMemory> {
    let mut items = Seq::new(alloc);
    items.push(Value::Str(Text::from_string("x".repeat(alloc, bytes)?)))?;
    Ok(items)
}

/// A list of one text of so many bytes.
fn list_of(alloc: Global, bytes: usize) -> Result<Value, Fail> {
    Ok(Value::list(alloc, items_of(alloc, bytes)?)?)
}

/// The size of a sum.
fn size_told(alloc: Global, sum: &Result<Value, ValueFault>) -> Result<String, NoMemory> {
    match sum {
        Ok(both) => number_text(alloc, size(both)),
        Err(ValueFault::Large) => joined(alloc, &["too large"]),
        Err(_) => joined(alloc, &["another fault"]),
    }
}

/// The size of a list of one text of so many bytes, joined with another.
fn size_with(alloc: Global, bytes: usize, other: &Value) -> Result<String, Fail> {
    let list = list_of(alloc, bytes)?;
    let sum = Boxed::new(alloc, add(alloc, list, other))?;
    Ok(size_told(alloc, sum.get())?)
}

/// The size of such a list joined with itself.
fn size_twice(alloc: Global, bytes: usize) -> Result<String, Fail> {
    let list = Boxed::new(alloc, list_of(alloc, bytes)?)?;
    size_with(alloc, bytes, list.get())
}

fn is_joined(alloc: Global, bytes: usize, want: &str) -> Result<(), Fail> {
    let size = size_twice(alloc, bytes)?;
    same_at(alloc, bytes as u64, "bytes", size.as_str(), want)
}

#[test]
fn a_sum_of_the_greatest_size(rt: HostRuntime) -> Result<(), Fail> {
    is_joined(rt.alloc(), 131_070, "262143")
}

#[test]
fn a_sum_that_is_too_large(rt: HostRuntime) -> Result<(), Fail> {
    is_joined(rt.alloc(), 131_071, "too large")
}

/// Lists within one another, the outermost of which is `$a` and its number.
fn last_of(alloc: Global, lists: &str, levels: usize, last: &str) -> Result<String, NoMemory> {
    let number = number_text(alloc, levels as u64)?;
    joined(alloc, &[lists, "$b = $a", number.as_str(), " ", last])
}

/// A list of lists of so many levels, which is assigned to `$b`, and what stands behind.
fn behind_lists(alloc: Global, levels: usize, last: &str) -> Result<String, NoMemory> {
    let lists = boxes(alloc, levels)?;
    last_of(alloc, lists.as_str(), levels, last)
}

fn kind_behind_lists(alloc: Global, levels: usize, last: &str) -> Result<String, Fail> {
    let manifest = behind_lists(alloc, levels, last)?;
    kind_assigned(alloc, manifest.as_str())
}

fn is_behind_lists(alloc: Global, levels: usize, last: &str, want: &str) -> Result<(), Fail> {
    let kind = kind_behind_lists(alloc, levels, last)?;
    same_at(alloc, levels as u64, last, kind.as_str(), want)
}

/// Each row: so many levels of `$b`, what is assigned behind it, and its kind, or the refusal.
fn are_behind_lists(alloc: Global, rows: &[(usize, &str, &str)]) -> Result<(), Fail> {
    for (levels, last, want) in rows {
        is_behind_lists(alloc, *levels, *last, *want)?;
    }
    Ok(())
}

#[test]
fn a_value_nests_a_thousand_levels(rt: HostRuntime) -> Result<(), Fail> {
    are_behind_lists(
        rt.alloc(),
        &[
            (999, "$r = [$b]", "list"),
            (1_000, "$r = [$b]", "32 value"),
            (999, "$r = {'k' => $b}", "map"),
            (1_000, "$r = {'k' => $b}", "32 value"),
            (1_000, "$r = $b == $b", "truth"),
            (1_000, "$r = \"${b}\"", "text"),
        ],
    )
}
