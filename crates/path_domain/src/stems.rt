//! A beginning that no content has, and the texts with it. It is found in one pass, by the longest run of x behind `text` at
//! the start of a content; trying one after the other would be quadratic.

ghost use Rattle.std.specs.Prelude.{◌≡◌, ◌≢◌, ◌⊎◌, ◌↔◌, ◌<◌, ◌≤◌, ◌++◌, ◌∷◌, ℕ, List, false, decimal, length, IfOk, OnOk, MatchOption};
ghost use Rattle.finite_domain.specs.Domains.{is_text_among};
ghost use Rattle.finite_domain.specs.Layouts.{letters, stem, numbered};
ghost use Rattle.path_domain.specs.Laid.{Starts};

use fs_interpreter::Table;
use rh_base::{NoMemory, Text};
use std::alloc::Global;

/// What stands behind a first byte.
fn behind(b: u8, c: &[u8]) -> Option<&[u8]>
    ensures { MatchOption result ((rest : List ℕ) → c.now ≢ b ∷ rest) (λ rest. c.now ≡ b ∷ rest.now) }
{
    match c.split_first() {
        Some((first, rest)) => { if *first == b { Some(rest) } else { None } }
        None => None,
    }
}

/// How many letters x a text begins with.
fn leading(c: &[u8]) -> usize
    ensures counts { (n : ℕ) → (n ≤ result) ↔ ((rest : List ℕ) × (c.now ≡ letters n ++ rest)) }
    ensures bound { result ≤ length c.now }
{
    let mut n = 0;
    let mut left = c;
    while let Some(rest) = behind(b'x', left) {
        left = rest;
        n += 1;
    }
    n
}

/// How many of `text`, `textx`, .. a text begins with.
fn stems_of(c: &[u8]) -> usize
    ensures { (n : ℕ) → (n < result) ↔ ((rest : List ℕ) × (c.now ≡ stem n ++ rest)) }
{
    let Some(after_t) = behind(b't', c) else {
        return 0;
    };
    let Some(after_e) = behind(b'e', after_t) else {
        return 0;
    };
    let Some(after_x) = behind(b'x', after_e) else {
        return 0;
    };
    let Some(rest) = behind(b't', after_x) else {
        return 0;
    };
    leading(rest) + 1
}

fn larger(a: usize, b: usize) -> usize
    ensures left { a ≤ result }
    ensures right { b ≤ result }
    ensures one { (result ≡ a) ⊎ (result ≡ b) }
{
    if a < b { b } else { a }
}

/// The first number of letters x so that no content begins with `text` and them.
pub(crate) fn start_of(table: &Table) -> usize
    ensures { Starts result table.now.contents }
{
    let mut start = 0;
    for i in 0..table.content_count() {
        let c = table.content(i);
        start = larger(start, stems_of(c.as_str().as_bytes()));
    }
    start
}

/// `text` with so many letters x.
pub(crate) fn stem(alloc: Global, n: usize) -> Result<Text, NoMemory>
    ensures { IfOk result (λ text. text ≡ stem n) }
{
    let mut text = Text::new(alloc);
    text.push("text")?;
    for _turn in 0..n {
        text.push("x")?;
    }
    Ok(text)
}

fn numbered(alloc: Global, start: &Text, n: u64) -> Result<Text, NoMemory>
    ensures { IfOk result (λ text. text ≡ start.now ++ decimal n) }
{
    let mut text = start.copy(alloc)?;
    let digits = format!(in alloc; "{n}")?;
    text.push(digits.as_str())?;
    Ok(text)
}

/// Adds one text for each path of the table.
pub(crate) fn add_numbered(alloc: Global, start: &Text, table: &mut Table) -> Result<(), NoMemory>
    requires { (n : ℕ) → is_text_among (start.now ++ decimal n) table.old.contents ≡ false }
    ensures paths { OnOk result (table.new.paths ≡ table.old.paths) }
    ensures contents { OnOk result (table.new.contents ≡ table.old.contents ++ numbered start.now 0 table.old.paths) }
{
    let count = table.path_count();
    for i in 0..count {
        table.add_content(alloc, numbered(alloc, start, i)?)?;
    }
    Ok(())
}
