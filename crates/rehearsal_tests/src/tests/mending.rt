//! Manifests with the arrows that they lack.

use super::common::{Site, Told, compare, compare_status, has, holds, push_all, run_over};
use super::differences::behind;
use std::alloc::Global;
use std::test::Fail;
use test_rows::{joined, number_text, same, same_number};

const FACTS: &str = r#"{"hostname":"web1","os":{"family":"Debian"}}"#;

/// What words give over a manifest, a listing and facts.
pub fn asked(alloc: Global, words: &[&str], site: Site) -> Result<Told, Fail> {
    let over: [(&str, &[u8]); 3] = [
        ("site.pp", site.0.as_bytes()),
        ("listing", site.1.as_bytes()),
        ("facts", FACTS.as_bytes()),
    ];
    run_over(alloc, words, &over)
}

const VERIFY: [&str; 5] = ["--facts", "facts", "--packages", "listing", "site.pp"];

const GRAPH: [&str; 5] = ["--ask", "graph", "--facts", "facts", "site.pp"];

pub const REPAIR: [&str; 7] = [
    "--ask",
    "repair",
    "--facts",
    "facts",
    "--packages",
    "listing",
    "site.pp",
];

/// Whether a line of a graph is the reference of a resource.
fn is_resource(line: &str) -> bool {
    !line.is_empty() && !line.contains(" -> ")
}

/// Whether one resource of a graph comes before another, or is it.
fn reaches(alloc: Global, graph: &str, a: &str, b: &str) -> Result<bool, Fail> {
    let line = joined(alloc, &["\n", a, " -> ", b, "\n"])?;
    let is_told = graph.contains(line.as_str());
    Ok(a == b || is_told)
}

/// Whether a resource is the end of an arrow or comes behind it, and isn't told to come behind this one.
fn is_new(alloc: Global, graph: &str, a: &str, to: &str, b: &str) -> Result<bool, Fail> {
    let is_behind = reaches(alloc, graph, to, b)?;
    let is_told = reaches(alloc, graph, a, b)?;
    Ok(is_resource(b) && is_behind && !is_told)
}

/// Adds that a resource comes before the end of an arrow and before all that come behind that.
fn push_pairs(
    alloc: Global,
    graph: &str,
    a: &str,
    to: &str,
    more: &mut String,
) -> Result<(), Fail> {
    for b in graph.split('\n') {
        if is_new(alloc, graph, a, to, b)? {
            push_all(more, &[a, " -> ", b, "\n"])?;
        }
    }
    Ok(())
}

/// Adds that what comes before the one end of an arrow comes before the other one too.
fn push_arrow(
    alloc: Global,
    graph: &str,
    from: &str,
    to: &str,
    more: &mut String,
) -> Result<(), Fail> {
    for a in graph.split('\n') {
        let is_ahead = is_resource(a) && reaches(alloc, graph, a, from)?;
        if is_ahead {
            push_pairs(alloc, graph, a, to, more)?;
        }
    }
    Ok(())
}

/// The graph with an arrow.
fn with_arrow(alloc: Global, graph: &str, from: &str, to: &str) -> Result<String, Fail> {
    let mut more = String::from_str(alloc, graph)?;
    push_arrow(alloc, graph, from, to, &mut more)?;
    Ok(more)
}

/// The reference of a resource that is written as in a manifest.
fn reference(alloc: Global, written: &str) -> Result<String, Fail> {
    let mut plain = String::new(alloc);
    let mut is_escaped = false;
    for c in written.chars() {
        let is_sign = !is_escaped && (c == '\'' || c == '\\');
        is_escaped = is_sign && c == '\\';
        if !is_sign {
            plain.push(c)?;
        }
    }
    Ok(plain)
}

/// The graph with an arrow from a resource to one that is written as in a manifest.
fn with_arrow_to(alloc: Global, graph: &str, from: &str, to: &str) -> Result<String, Fail> {
    let to = reference(alloc, to)?;
    with_arrow(alloc, graph, from, to.as_str())
}

/// The graph with an arrow that is written as in a manifest.
fn with_line(alloc: Global, graph: &str, arrow: &str) -> Result<String, Fail> {
    let (from, to) = arrow.split_once(" -> ").unwrap_or(("?", "?"));
    let from = reference(alloc, from)?;
    with_arrow_to(alloc, graph, from.as_str(), to)
}

/// The graph with arrows, a line each.
fn with_lines(alloc: Global, graph: &str, arrows: &str) -> Result<String, Fail> {
    let mut all = String::from_str(alloc, graph)?;
    for arrow in arrows.split('\n') {
        if !arrow.is_empty() {
            all = with_line(alloc, all.as_str(), arrow)?;
        }
    }
    Ok(all)
}

/// A line is empty or stands in a text that begins with a line's end.
fn has_line(alloc: Global, held: &str, line: &str, row: &str) -> Result<(), Fail> {
    let framed = joined(alloc, &["\n", line, "\n"])?;
    let is_there = line.is_empty() || held.contains(framed.as_str());
    holds(alloc, &[line, " in ", row], is_there)
}

/// Each line of a text stands in the other one, which begins with a line's end.
fn are_held(alloc: Global, left: &str, held: &str, row: &str) -> Result<(), Fail> {
    for line in left.split('\n') {
        has_line(alloc, held, line, row)?;
    }
    Ok(())
}

/// Each line of a text stands in the other one.
fn has_lines(alloc: Global, left: &str, right: &str, row: &str) -> Result<(), Fail> {
    let held = joined(alloc, &["\n", right])?;
    are_held(alloc, left, held.as_str(), row)
}

/// Two texts have the same lines, of which none stands twice.
fn have_same_lines(alloc: Global, left: &str, right: &str, row: &str) -> Result<(), Fail> {
    same_number(alloc, row, right.len() as u64, left.len() as u64)?;
    has_lines(alloc, left, right, row)
}

/// The graph of a manifest, with arrows.
fn graph_with(alloc: Global, site: Site, arrows: &str) -> Result<String, Fail> {
    let graph = asked(alloc, &GRAPH, site)?;
    with_lines(alloc, graph.out.as_str(), arrows)
}

/// The manifest has the graph that is wanted.
fn has_graph(alloc: Global, site: Site, wanted: &str) -> Result<(), Fail> {
    let mended = asked(alloc, &GRAPH, site)?;
    have_same_lines(alloc, wanted, mended.out.as_str(), site.0)
}

/// The manifest has the graph of the other one with just these arrows.
fn has_these_arrows(alloc: Global, site: Site, with: Site, arrows: &str) -> Result<(), Fail> {
    let wanted = graph_with(alloc, site, arrows)?;
    has_graph(alloc, with, wanted.as_str())
}

fn is_deterministic(alloc: Global, site: Site) -> Result<(), Fail> {
    let judged = asked(alloc, &VERIFY, site)?;
    has(alloc, site.0, judged.out.as_str(), "\ndeterministic\n")
}

/// This is told of the repair of the manifest.
pub fn is_repaired(alloc: Global, site: Site, report: &str) -> Result<(), Fail> {
    let told = asked(alloc, &REPAIR, site)?;
    compare(alloc, &told, 0, report, "", site.0)
}

/// The manifest of so many resources lacks no arrow.
fn lacks_none(alloc: Global, site: Site, count: &str) -> Result<(), Fail> {
    let report = joined(alloc, &["resources ", count, "\nedges 0\ndeterministic\n"])?;
    is_repaired(alloc, site, report.as_str())
}

/// The arrows that are told to be missing.
#[derive(Drop)]
struct Missing<'a> {
    resources: &'a str,
    count: &'a str,
    arrows: &'a str,
}

/// What is told of a repair, in its parts.
fn read_repair(told: &str) -> Missing {
    let (resources, rest) = behind(told, "resources ");
    let (count, rest) = behind(rest, "edges ");
    let arrows = rest.strip_suffix("deterministic\n").unwrap_or("?");
    Missing {
        resources,
        count,
        arrows,
    }
}

/// A manifest with arrows behind it is deterministic, lacks none, and has the graph of the one without them with just these.
fn mend(alloc: Global, site: Site, mended: Site, lacks: &Missing) -> Result<(), Fail> {
    is_deterministic(alloc, mended)?;
    lacks_none(alloc, mended, lacks.resources)?;
    has_these_arrows(alloc, site, mended, lacks.arrows)
}

/// The lines of these arrows behind the manifest mend it.
fn are_missing(alloc: Global, site: Site, lacks: &Missing) -> Result<(), Fail> {
    let with = joined(alloc, &[site.0, "\n", lacks.arrows])?;
    mend(alloc, site, (with.as_str(), site.1), lacks)
}

/// This is told to be the number of the arrows.
fn is_count(alloc: Global, lacks: &Missing, count: u64, row: &str) -> Result<(), Fail> {
    let shown = number_text(alloc, count)?;
    same(alloc, row, lacks.count, shown.as_str())
}

/// As many arrows stand there as are told. How many.
fn count_of(alloc: Global, lacks: &Missing, row: &str) -> Result<u64, Fail> {
    let count = lacks.arrows.split('\n').count().saturating_sub(1) as u64;
    is_count(alloc, lacks, count, row)?;
    Ok(count)
}

/// The arrows that a repair told to be missing mend the manifest. How many there are.
fn count_of_missing(alloc: Global, site: Site, told: &Told) -> Result<u64, Fail> {
    compare_status(alloc, told, 0, site.0)?;
    let lacks = read_repair(told.out.as_str());
    are_missing(alloc, site, &lacks)?;
    count_of(alloc, &lacks, site.0)
}

/// The arrows that are told to be missing mend the manifest. How many there are.
pub fn is_mended(alloc: Global, site: Site) -> Result<u64, Fail> {
    let told = asked(alloc, &REPAIR, site)?;
    count_of_missing(alloc, site, &told)
}
