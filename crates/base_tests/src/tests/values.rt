//! Texts, lists, boxes and faults.

use printed_names::printed;
use rh_base::{Boxed, Fault, Misread, NoMemory, Refusal, Seq, ShelfFault, SinkFault, Text};
use std::alloc::Global;
use std::hash::{DefaultHasher, Hash, Hasher};
use std::process::Abort;
use std::test::Fail;
use test_rows::{refused, same, same_number};

#[test]
fn new_texts_and_lists_are_empty(rt: HostRuntime) {
    assert!(rt; Text::new(rt.alloc()).is_empty());
    assert!(rt; Seq::<u32>::new(rt.alloc()).is_empty());
}

/// The text of these pieces.
fn grown(alloc: Global, pieces: &[&str]) -> Result<Text, NoMemory> {
    let mut text = Text::new(alloc);
    for piece in pieces {
        text.push(*piece)?;
    }
    Ok(text)
}

#[test]
fn texts_grow(rt: HostRuntime) -> Result<(), Fail> {
    let word = grown(rt.alloc(), &["etc", "/motd"])?;
    assert!(rt; word.len() == 8);
    same(rt.alloc(), "a text", word.as_str(), "etc/motd")
}

/// The copy of a text is the same, and so is the string that it is made of.
fn is_copied(alloc: Global, word: &Text, want: &str) -> Result<(), Fail> {
    let copy = word.copy(alloc)?;
    same(alloc, "a copy", copy.as_str(), want)?;
    let inner = copy.into_string();
    same(alloc, "what a copy holds", inner.as_str(), want)
}

#[test]
fn texts_are_copied(rt: HostRuntime) -> Result<(), Fail> {
    let word = grown(rt.alloc(), &["etc", "/motd"])?;
    is_copied(rt.alloc(), &word, "etc/motd")
}

/// The list of these items.
fn listed(alloc: Global, items: &[u32]) -> Result<Seq<u32>, NoMemory> {
    let mut list = Seq::new(alloc);
    for item in items {
        list.push(*item)?;
    }
    Ok(list)
}

#[test]
fn lists_grow(rt: HostRuntime) -> Result<(), Fail> {
    let numbers = listed(rt.alloc(), &[4, 2])?;
    assert!(rt; numbers.len() == 2);
    assert!(rt; numbers.as_slice() == [4u32, 2].as_slice());
    assert!(rt; numbers.into_vec().as_slice() == [4u32, 2].as_slice());
    Ok(())
}

/// The first of two items is set, and set back.
fn is_set(rt: &impl Abort, numbers: &mut Seq<u32>) {
    assert!(rt; numbers.len() == 2);
    numbers.set(0, 7u32);
    assert!(rt; *numbers.at(0) == 7 && *numbers.at(1) == 2);
    numbers.set(0, 4u32);
}

#[test]
fn items_of_lists_are_set(rt: HostRuntime) -> Result<(), Fail> {
    let mut numbers = listed(rt.alloc(), &[4, 2])?;
    is_set(&rt, &mut numbers);
    assert!(rt; numbers.into_vec().as_slice() == [4u32, 2].as_slice());
    Ok(())
}

#[test]
fn boxes_hold_what_they_are_made_of(rt: HostRuntime) -> Result<(), Fail> {
    let seven = Boxed::new(rt.alloc(), 7u8)?;
    assert!(rt; *seven.get() == 7);
    assert!(rt; seven.into_inner() == 7);
    Ok(())
}

#[test]
fn boxes_are_made_of_others(rt: HostRuntime) -> Result<(), Fail> {
    let nine = Box::new(rt.alloc(), 9u8)?;
    assert!(rt; Boxed::from_box(nine).into_inner() == 9);
    Ok(())
}

/// What is refused is shown so.
fn is_refused(alloc: Global, fault: &Fault, want: &str) -> Result<(), Fail> {
    let got = refused(alloc, fault)?;
    same(alloc, "a refusal", got.as_str(), want)
}

/// The message of a fault.
fn is_told(alloc: Global, fault: &Fault, want: &str) -> Result<(), Fail> {
    let line = format!(in alloc; "{fault}")?;
    same(alloc, "a fault", line.as_str(), want)
}

#[test]
fn refusals_hold_what_they_are_made_of(rt: HostRuntime) -> Result<(), Fail> {
    let refusal = Refusal::new(rt.alloc(), 15, 3, "form")?;
    is_refused(rt.alloc(), &Fault::Refused(refusal), "15 at 3: form")
}

#[test]
fn faults_hold_refusals(rt: HostRuntime) -> Result<(), Fail> {
    let fault = Fault::refused(rt.alloc(), 15, 3, "form");
    is_refused(rt.alloc(), &fault, "15 at 3: form")
}

#[test]
fn refusals_are_faults(rt: HostRuntime) -> Result<(), Fail> {
    let fault = Fault::refused(rt.alloc(), 15, 3, "form");
    is_told(rt.alloc(), &fault, "the input is refused")
}

#[test]
fn want_of_memory_is_told(rt: HostRuntime) -> Result<(), Fail> {
    is_told(rt.alloc(), &Fault::from(NoMemory), "out of memory")
}

#[test]
fn faults_of_shelves_say_what_is_wrong(rt: HostRuntime) -> Result<(), Fail> {
    let fault = ShelfFault::Failed;
    let line = format!(in rt.alloc(); "{fault}")?;
    same(
        rt.alloc(),
        "a shelf",
        line.as_str(),
        "the file can't be read",
    )
}

#[test]
fn faults_of_sinks_say_what_is_wrong(rt: HostRuntime) -> Result<(), Fail> {
    let fault = SinkFault::Failed;
    let line = format!(in rt.alloc(); "{fault}")?;
    same(
        rt.alloc(),
        "a sink",
        line.as_str(),
        "the bytes can't be written",
    )
}

/// What a text gives a hasher.
fn hashed(text: &Text) -> u64 {
    let mut hasher = DefaultHasher::new();
    text.hash(&mut hasher);
    hasher.finish()
}

/// Two texts are equal, and hashed alike.
fn are_alike(alloc: Global, rt: &impl Abort, one: &Text, other: &Text) -> Result<(), Fail> {
    assert!(rt; one == other);
    same_number(alloc, "a hash", hashed(one), hashed(other))
}

#[test]
fn equal_texts_are_hashed_alike(rt: HostRuntime) -> Result<(), Fail> {
    let one = grown(rt.alloc(), &["etc"])?;
    let same = grown(rt.alloc(), &["etc"])?;
    are_alike(rt.alloc(), &rt, &one, &same)
}

#[test]
fn texts_differ_in_their_letters(rt: HostRuntime) -> Result<(), Fail> {
    let one = grown(rt.alloc(), &["etc"])?;
    let other = grown(rt.alloc(), &["Etc"])?;
    assert!(rt; one != other);
    Ok(())
}

fn is_printed(alloc: Global, name: &str, shown: &str) -> Result<(), Fail> {
    let got = printed(alloc, name)?;
    same(alloc, name, got.as_str(), shown)
}

/// Each row: a name, and how it is printed.
fn are_printed(alloc: Global, rows: &[(&str, &str)]) -> Result<(), Fail> {
    for (name, shown) in rows {
        is_printed(alloc, *name, *shown)?;
    }
    Ok(())
}

#[test]
fn names_stay_on_their_lines(rt: HostRuntime) -> Result<(), Fail> {
    are_printed(
        rt.alloc(),
        &[
            ("File[/a]", "File[/a]"),
            ("/a\nFile[/b]", "/a\\x0aFile[/b]"),
            ("\u{1f}\u{7f} \t~ä€", "\\x1f\\x7f \\x09~ä€"),
            ("\\x0a", "\\x0a"),
            ("", ""),
        ],
    )
}

#[test]
fn want_of_memory_is_no_other_form(rt: HostRuntime) {
    assert!(rt; Misread::from(NoMemory) == Misread::Memory(NoMemory));
    assert!(rt; Misread::Form != Misread::Memory(NoMemory));
}
