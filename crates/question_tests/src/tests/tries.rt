//! Pairs of programs that are tried on a few trees, each row with what is found: two orders, and the paths of the tree.

use super::programs::{ordered, plan_of, unordered};
use fs_lang::{Path, Program, Tree};
use orders::Order;
use rh_base::{Boxed, NoMemory};
use std::alloc::Global;
use std::test::Fail;
use test_programs::programs;
use test_rows::{joined, numbered, same};
use tried_trees::{Difference, try_pairs, try_tree};

fn push_number(alloc: Global, text: &mut String, k: u32) -> Result<(), NoMemory> {
    let word = numbered(alloc, " ", k as u64, "")?;
    text.push_str(word.as_str())?;
    Ok(())
}

/// Appends the numbers, each after a blank.
fn push_numbers(alloc: Global, text: &mut String, order: &[u32]) -> Result<(), NoMemory> {
    for k in order {
        push_number(alloc, text, *k)?;
    }
    Ok(())
}

fn push_path(alloc: Global, text: &mut String, path: &Path) -> Result<(), NoMemory> {
    text.push_str(" ")?;
    let word = path.text(alloc)?;
    text.push_str(word.as_str())?;
    Ok(())
}

/// Appends the paths of a tree, each after a blank.
fn push_paths(alloc: Global, text: &mut String, tree: &Tree) -> Result<(), NoMemory> {
    for (path, _) in tree.entries() {
        push_path(alloc, text, path)?;
    }
    Ok(())
}

fn push_difference(alloc: Global, text: &mut String, d: &Difference) -> Result<(), NoMemory> {
    text.push_str("from")?;
    push_paths(alloc, text, &d.tree)?;
    text.push_str(":")?;
    push_numbers(alloc, text, d.left.as_slice())?;
    text.push_str(",")?;
    push_numbers(alloc, text, d.right.as_slice())
}

fn difference_text(alloc: Global, d: &Difference) -> Result<String, NoMemory> {
    let mut text = String::new(alloc);
    push_difference(alloc, &mut text, d)?;
    Ok(text)
}

fn shown(alloc: Global, found: &Result<Option<Difference>, NoMemory>) -> Result<String, NoMemory> {
    match found {
        Ok(Some(d)) => difference_text(alloc, d),
        Ok(None) => joined(alloc, &["none"]),
        Err(m) => Err(*m),
    }
}

/// What is found of one pair of these programs.
fn found_by(
    alloc: Global,
    programs: &[Program],
    order: &Order,
    pair: (u32, u32),
) -> Result<String, Fail> {
    let plan = plan_of(programs, order)?;
    let answer = Boxed::new(alloc, try_pairs(alloc, &plan, &[pair]))?;
    Ok(shown(alloc, answer.get())?)
}

fn found_in(
    alloc: Global,
    programs: &[Program],
    edges: &[(u32, u32)],
    pair: (u32, u32),
) -> Result<String, Fail> {
    let order = ordered(alloc, programs, edges)?;
    found_by(alloc, programs, &order, pair)
}

/// The same of programs in words, in the order that edges make.
fn found_of(
    alloc: Global,
    words: &str,
    edges: &[(u32, u32)],
    pair: (u32, u32),
) -> Result<String, Fail> {
    let all = programs(alloc, words)?;
    found_in(alloc, all.as_slice(), edges, pair)
}

fn is_found(
    alloc: Global,
    words: &str,
    edges: &[(u32, u32)],
    pair: (u32, u32),
    want: &str,
) -> Result<(), Fail> {
    let text = found_of(alloc, words, edges, pair)?;
    same(alloc, words, text.as_str(), want)
}

/// Each row: programs without an order between them, a pair of them, and what is found.
fn are_found(alloc: Global, rows: &[(&str, (u32, u32), &str)]) -> Result<(), Fail> {
    for (words, pair, want) in rows {
        is_found(alloc, *words, &[], *pair, *want)?;
    }
    Ok(())
}

#[test]
fn pairs_without_an_order(rt: HostRuntime) -> Result<(), Fail> {
    are_found(
        rt.alloc(),
        &[
            // a missing arrow, which the empty tree shows
            ("dir /etc | put /etc/a x", (0, 1), "from: 0 1, 1 0"),
            ("dir /etc | put /etc/a x", (1, 0), "from: 1 0, 0 1"),
            // a service without its package
            (
                "if file? /u or file? /v: id, err | put /v x",
                (0, 1),
                "from: 0 1, 1 0",
            ),
            // all orders fail unless a folder or a file stands that none of the programs makes
            ("put /srv/a x | drop /srv/a", (0, 1), "from /srv: 0 1, 1 0"),
            (
                "if file? /u or file? /v: id, err | put /v x | if file? /g: id, err",
                (0, 1),
                "from /g: 0 1 2, 1 0 2",
            ),
            // a folder without which a third program ends in Error, though it makes it afterwards
            (
                "put /a x | put /a y | if dir? /srv/b: id, err | dir /srv/b",
                (0, 1),
                "from /srv /srv/b: 0 1 2 3, 1 0 2 3",
            ),
            // one that a third program makes
            (
                "put /srv/a x | drop /srv/a | dir /srv",
                (0, 1),
                "from /srv: 0 1 2, 1 0 2",
            ),
            // a file that is removed only where a mark stands that another program removes
            (
                "if file? /m: drop /a, id | put /a x | drop /m",
                (0, 1),
                "from /a /m: 0 1 2, 1 0 2",
            ),
            // what a third one writes hides the two, unless it goes first
            (
                "put /a x | put /a y | put /a z",
                (0, 1),
                "from: 2 0 1, 2 1 0",
            ),
            // a host on which nothing was done yet: what is to go is there, and what is to come isn't
            (
                "if file? /u: id, put /h x; if file? /u: id, creat /u y | if file? /m: drop /h, id; drop /m",
                (0, 1),
                "from /m: 0 1, 1 0",
            ),
            // files that are copied to one another, of which each has a content of its own
            (
                "drop /a; cp /b /a | drop /b; cp /a /b",
                (0, 1),
                "from /a /b: 0 1, 1 0",
            ),
            // a folder that nothing makes stands, and those above it, which one makes
            (
                "dir /etc | dir /etc/default | put /etc/default/a x | put /etc/d/b y",
                (1, 2),
                "from /etc /etc/d: 1 2 0 3, 2 1 0 3",
            ),
            // programs that commute, one program, and a number that is none
            ("put /a x | put /b y", (0, 1), "none"),
            ("dir /etc | put /etc/a x", (1, 1), "none"),
            ("dir /etc | put /etc/a x", (0, 2), "none"),
        ],
    )
}

/// Makes a folder, and two times a file in it.
const THREE: &str = "dir /etc | put /etc/a x | put /etc/a y";

/// Each row: edges between these three, a pair of them, and what is found.
fn are_found_of_three(
    alloc: Global,
    rows: &[(&[(u32, u32)], (u32, u32), &str)],
) -> Result<(), Fail> {
    for (edges, pair, want) in rows {
        is_found(alloc, THREE, *edges, *pair, *want)?;
    }
    Ok(())
}

#[test]
fn pairs_in_an_order(rt: HostRuntime) -> Result<(), Fail> {
    are_found_of_three(
        rt.alloc(),
        &[
            // both behind the first
            (&[(0, 1), (0, 2)], (1, 2), "from: 0 1 2, 0 2 1"),
            // one behind another
            (&[(0, 1), (1, 2)], (1, 2), "none"),
            (&[(0, 1), (1, 2)], (2, 0), "none"),
        ],
    )
}

/// What is found of the first two of these programs from one tree.
fn found_on(
    alloc: Global,
    programs: &[Program],
    order: &Order,
    tree: &Tree,
) -> Result<String, Fail> {
    let plan = plan_of(programs, order)?;
    let answer = Boxed::new(alloc, try_tree(alloc, &plan, &[(0, 1)], tree))?;
    Ok(shown(alloc, answer.get())?)
}

/// The same without an order between the programs.
fn found_without(alloc: Global, programs: &[Program], tree: &Tree) -> Result<String, Fail> {
    let order = unordered(alloc, programs)?;
    found_on(alloc, programs, &order, tree)
}

fn found_of_words(alloc: Global, words: &str, tree: &Tree) -> Result<String, Fail> {
    let all = programs(alloc, words)?;
    found_without(alloc, all.as_slice(), tree)
}

fn is_found_on(alloc: Global, words: &str, tree: &Tree, want: &str) -> Result<(), Fail> {
    let text = found_of_words(alloc, words, tree)?;
    same(alloc, words, text.as_str(), want)
}

/// Each row: programs without an order between them, and what is found of the first two from this tree.
fn are_found_on(alloc: Global, tree: &Tree, rows: &[(&str, &str)]) -> Result<(), Fail> {
    for (words, want) in rows {
        is_found_on(alloc, *words, tree, *want)?;
    }
    Ok(())
}

#[test]
fn pairs_on_one_tree(rt: HostRuntime) -> Result<(), Fail> {
    let tree = Tree::empty(rt.alloc())?;
    are_found_on(
        rt.alloc(),
        &tree,
        &[
            ("dir /etc | put /etc/a x", "from: 0 1, 1 0"),
            ("put /srv/a x | drop /srv/a", "none"),
            (
                "put /srv/a x | drop /srv/a | dir /srv",
                "from: 2 0 1, 2 1 0",
            ),
        ],
    )
}
