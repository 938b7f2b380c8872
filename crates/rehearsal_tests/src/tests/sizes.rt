//! Files at the limits of what is read, and graphs at the limits of what is asked about: how many paths, and which weight.

use super::common::{ONE, Told, compare, compare_status, compare_told, push_all, run_over};
use std::alloc::Global;
use std::test::Fail;
use test_rows::{joined, number_text};

/// Adds a number between two words.
fn push_numbered(
    alloc: Global,
    text: &mut String,
    front: &str,
    number: u32,
    behind: &str,
) -> Result<(), Fail> {
    let number = number_text(alloc, number as u64)?;
    push_all(text, &[front, number.as_str(), behind])
}

/// So many folders, as a listing names them.
fn folders(alloc: Global, count: u32) -> Result<String, Fail> {
    let mut list = String::from_str(alloc, "\"/d1\"")?;
    for i in 2..=count {
        push_numbered(alloc, &mut list, ",\"/d", i, "\"")?;
    }
    Ok(list)
}

/// Adds a package that has these folders, behind a comma.
fn push_package(alloc: Global, list: &mut String, number: u32, folders: &str) -> Result<(), Fail> {
    push_numbered(
        alloc,
        list,
        ",\"p",
        number,
        "\":{\"files\":[],\"folders\":[",
    )?;
    push_all(list, &[folders, "]}"])
}

/// So many packages that have the same folders, each behind a comma.
fn packages(alloc: Global, count: u32, folders: &str) -> Result<String, Fail> {
    let mut list = String::new(alloc);
    for i in 1..=count {
        push_package(alloc, &mut list, i, folders)?;
    }
    Ok(list)
}

/// A listing of so many packages with these folders, and of one with none.
fn listing_of(alloc: Global, count: u32, folders: &str) -> Result<String, Fail> {
    let packages = packages(alloc, count, folders)?;
    Ok(joined(
        alloc,
        &[
            "{\"version\":1,\"packages\":{\"none\":{\"files\":[],\"folders\":[]}",
            packages.as_str(),
            "}}",
        ],
    )?)
}

/// A listing of so many packages with the same folders, and of one with none.
fn listing(alloc: Global, count: u32, with: u32) -> Result<String, Fail> {
    let folders = folders(alloc, with)?;
    listing_of(alloc, count, folders.as_str())
}

/// A manifest that declares so many packages.
fn manifest(alloc: Global, count: u32) -> Result<String, Fail> {
    let mut text = String::new(alloc);
    for i in 1..=count {
        push_numbered(alloc, &mut text, "package { 'p", i, "': }\n")?;
    }
    Ok(text)
}

const USUAL: &[&str] = &["--packages", "listing", "site.pp"];

const HOST: &[&str] = &["--packages", "listing", "--limits", "host", "site.pp"];

const GIVEN: &[&str] = &["--packages", "listing", "--given", "given", "site.pp"];

/// What is told of a manifest under a listing, with a folder that every host has where the words name it.
fn told_beside<'a>(
    alloc: Global,
    words: &[&str],
    manifest: &'a str,
    listing: &'a str,
) -> Result<Told, Fail> {
    let over: [(&str, &[u8]); 3] = [
        ("site.pp", manifest.as_bytes()),
        ("listing", listing.as_bytes()),
        ("given", br#"{"version":1,"folders":["/more"]}"#),
    ];
    run_over(alloc, words, &over)
}

/// What is told of so many packages in this manifest, with so many folders.
fn told_with(
    alloc: Global,
    words: &[&str],
    manifest: &str,
    count: u32,
    with: u32,
) -> Result<Told, Fail> {
    let listing = listing(alloc, count, with)?;
    told_beside(alloc, words, manifest, listing.as_str())
}

/// What is told of so many packages with so many folders, and of one folder more that every host has, where the words name it.
fn told_of(alloc: Global, words: &[&str], count: u32, with: u32) -> Result<Told, Fail> {
    let manifest = manifest(alloc, count)?;
    told_with(alloc, words, manifest.as_str(), count, with)
}

/// Words, how many packages there are and with how many folders, and the status and what is told of them.
type Row = (&'static [&'static str], u32, u32, u8, &'static str);

fn is_told(alloc: Global, row: &Row) -> Result<(), Fail> {
    let told = told_of(alloc, row.0, row.1, row.2)?;
    compare_told(alloc, &told, row.3, row.4, row.4)
}

fn all_told(alloc: Global, rows: &[Row]) -> Result<(), Fail> {
    for row in rows {
        is_told(alloc, row)?;
    }
    Ok(())
}

/// The folders, the two above the mark, and the mark of the package: 4,096 paths.
#[test]
fn a_graph_of_as_many_paths_as_may_be(rt: HostRuntime) -> Result<(), Fail> {
    all_told(rt.alloc(), &[(USUAL, 1, 4_093, 0, ONE)])
}

/// The limit of a host is another one.
#[test]
fn a_graph_of_more_paths(rt: HostRuntime) -> Result<(), Fail> {
    all_told(rt.alloc(), &[(HOST, 1, 4_094, 0, ONE)])
}

/// What is told of 50 packages.
const FIFTY: &str = "resources 50\npruned 50\ndeterministic\nidempotent\nsucceeds from some tree\n";

/// Each of the 50 packages asks for 69 folders and its mark, and makes them: 2 * 50 * 50 * (2 * 69 + 2).
#[test]
fn a_graph_as_heavy_as_may_be(rt: HostRuntime) -> Result<(), Fail> {
    all_told(rt.alloc(), &[(USUAL, 50, 67, 0, FIFTY)])
}

/// A host's weight has no limit.
#[test]
fn a_graph_that_is_heavier(rt: HostRuntime) -> Result<(), Fail> {
    all_told(rt.alloc(), &[(HOST, 50, 68, 0, FIFTY)])
}

/// A given folder is a path, and weighs nothing.
#[test]
fn a_folder_more_that_is_given(rt: HostRuntime) -> Result<(), Fail> {
    all_told(
        rt.alloc(),
        &[
            (GIVEN, 1, 4_093, 4, "refused 70 at 0: domain\n"),
            (
                GIVEN,
                50,
                67,
                0,
                "resources 50\ngiven 1\npruned 50\ndeterministic\nidempotent\nsucceeds from some tree\n",
            ),
        ],
    )
}

#[test]
fn graphs_that_are_too_large(rt: HostRuntime) -> Result<(), Fail> {
    all_told(
        rt.alloc(),
        &[
            (USUAL, 1, 4_094, 4, "refused 70 at 0: domain\n"),
            (USUAL, 50, 68, 4, "refused 70 at 0: weight\n"),
            // too many paths, and too heavy
            (USUAL, 8, 4_094, 4, "refused 70 at 0: domain\n"),
        ],
    )
}

const OF_TWO: [&str; 7] = [
    "--ask",
    "equal",
    "--packages",
    "listing",
    "--other",
    "old.pp",
    "site.pp",
];

/// What is told of two manifests under a listing.
fn told_under<'a>(
    alloc: Global,
    manifest: &'a str,
    other: &'a str,
    listing: &'a str,
) -> Result<Told, Fail> {
    let over: [(&str, &[u8]); 3] = [
        ("site.pp", manifest.as_bytes()),
        ("old.pp", other.as_bytes()),
        ("listing", listing.as_bytes()),
    ];
    run_over(alloc, &OF_TWO, &over)
}

/// So many folders that are none of `folders`.
fn other_folders(alloc: Global, count: u32) -> Result<String, Fail> {
    Ok(folders(alloc, count)?.replace(alloc, "/d", "/e")?)
}

/// A listing of the packages `one` and `two`, which have these folders.
fn listing_of_lists(alloc: Global, lists: &str, others: &str) -> Result<String, Fail> {
    Ok(joined(
        alloc,
        &[
            "{\"version\":1,\"packages\":{\"one\":{\"files\":[],\"folders\":[",
            lists,
            "]},\"two\":{\"files\":[],\"folders\":[",
            others,
            "]}}}",
        ],
    )?)
}

/// The same, where the package `two` has so many folders that are none of the other's.
fn listing_beside(alloc: Global, lists: &str, two: u32) -> Result<String, Fail> {
    let others = other_folders(alloc, two)?;
    listing_of_lists(alloc, lists, others.as_str())
}

/// A listing of the packages `one` and `two`, which have so many folders, no two the same.
fn listing_of_two(alloc: Global, one: u32, two: u32) -> Result<String, Fail> {
    let lists = folders(alloc, one)?;
    listing_beside(alloc, lists.as_str(), two)
}

/// What is told of these packages, in a manifest each.
fn told_of_two(alloc: Global, one: u32, two: u32) -> Result<Told, Fail> {
    let listing = listing_of_two(alloc, one, two)?;
    let one = "package { 'one': }";
    told_under(alloc, one, "package { 'two': }", listing.as_str())
}

/// These packages, in a manifest each, are asked about: they differ.
fn two_differ(alloc: Global, one: u32, two: u32) -> Result<(), Fail> {
    let told = told_of_two(alloc, one, two)?;
    compare_status(alloc, &told, 10, "4,096 paths")
}

/// These packages, in a manifest each, are refused.
fn two_are_refused(alloc: Global, one: u32, two: u32) -> Result<(), Fail> {
    let told = told_of_two(alloc, one, two)?;
    compare_told(alloc, &told, 4, "refused 70 at 0: domain\n", "4,097 paths")
}

/// The folders of both, the two above the marks, and the marks of both packages: 4,096 paths.
#[test]
fn manifests_as_large_together_as_may_be(rt: HostRuntime) -> Result<(), Fail> {
    two_differ(rt.alloc(), 2_046, 2_046)
}

/// One path more.
#[test]
fn manifests_that_are_too_large_together(rt: HostRuntime) -> Result<(), Fail> {
    two_are_refused(rt.alloc(), 2_046, 2_047)
}

/// Under this listing the weight is refused, and the refusal tells of neither manifest.
fn are_too_heavy_under(
    alloc: Global,
    manifest: &str,
    other: &str,
    listing: &str,
) -> Result<(), Fail> {
    let told = told_under(alloc, manifest, other, listing)?;
    compare_told(alloc, &told, 4, "refused 70 at 0: weight\n", manifest)
}

/// Under a listing of 50 packages with 68 folders the weight is refused.
fn are_too_heavy(alloc: Global, manifest: &str, other: &str) -> Result<(), Fail> {
    let listing = listing(alloc, 50, 68)?;
    are_too_heavy_under(alloc, manifest, other, listing.as_str())
}

/// The manifest is too heavy as the input, and as the other one.
fn is_too_heavy(alloc: Global, heavy: &str) -> Result<(), Fail> {
    are_too_heavy(alloc, heavy, "")?;
    are_too_heavy(alloc, "", heavy)
}

/// So many packages are too heavy.
fn packages_are_too_heavy(alloc: Global, count: u32) -> Result<(), Fail> {
    let heavy = manifest(alloc, count)?;
    is_too_heavy(alloc, heavy.as_str())
}

/// Of the weights each stands for itself.
#[test]
fn manifests_of_which_one_is_too_heavy(rt: HostRuntime) -> Result<(), Fail> {
    packages_are_too_heavy(rt.alloc(), 50)
}

/// The words, the greatest number of bytes of the file `long`, what is refused of so many blanks, and of one more.
type Long = (&'static [&'static str], usize, &'static str, &'static str);

const LONG: [Long; 6] = [
    (
        &["--facts", "long", "site.pp"],
        262_144,
        "refused 60 at 0: facts\n",
        "refused 17 at 0: facts\n",
    ),
    (
        &["--packages", "long", "site.pp"],
        4_194_304,
        "refused 61 at 0: packages\n",
        "refused 17 at 0: packages\n",
    ),
    (
        &["--data", "long", "site.pp"],
        262_144,
        "refused 64 at 0: data\n",
        "refused 17 at 0: data\n",
    ),
    (
        &["--ask", "replay", "--tree", "long", "site.pp"],
        4_194_304,
        "refused 62 at 0: tree\n",
        "refused 17 at 0: tree\n",
    ),
    (
        &["--ask", "replay", "--order", "long", "site.pp"],
        1_048_576,
        "refused 63 at 0: order\n",
        "refused 17 at 0: order\n",
    ),
    (
        &["--ask", "migrate", "long"],
        4_194_304,
        "refused 61 at 0: packages\n",
        "refused 17 at 0: input\n",
    ),
];

/// What is told where the file `long` has so many blanks.
fn told_of_blanks(alloc: Global, words: &[&str], bytes: usize) -> Result<Told, Fail> {
    let blanks = vec![in alloc; b' '; bytes]?;
    let over: [(&str, &[u8]); 2] = [("site.pp", b""), ("long", &blanks)];
    run_over(alloc, words, &over)
}

/// What is refused where the file `long` has so many blanks.
fn is_refused(alloc: Global, words: &[&str], bytes: usize, line: &str) -> Result<(), Fail> {
    let told = told_of_blanks(alloc, words, bytes)?;
    compare(alloc, &told, 4, "", line, line)
}

/// The file `long` is refused so at its limit, and so with one more.
fn is_too_long(alloc: Global, row: &Long) -> Result<(), Fail> {
    let (words, most, within, longer) = *row;
    is_refused(alloc, words, most, within)?;
    is_refused(alloc, words, most.saturating_add(1), longer)
}

fn all_refused(alloc: Global, rows: &[Long]) -> Result<(), Fail> {
    for row in rows {
        is_too_long(alloc, row)?;
    }
    Ok(())
}

#[test]
fn files_that_are_too_long(rt: HostRuntime) -> Result<(), Fail> {
    all_refused(rt.alloc(), &LONG)
}
