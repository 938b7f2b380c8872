//! What resources do of which a behavior is assumed, and edits that are lost.

use assumed_models::{Edit, Edits, edit_mark, program_of_behavior, with_lost_edits};
use assumed_text::{Assumed, Assumptions, Behavior, assumptions_from_json};
use catalog_semantics::{Resource, Sort};
use fs_lang::{Path, Program};
use model_semantics::{Cause, ModelFault};
use pp_eval::{facts_from_json, ref_of};
use pp_value::{Pairs, Ref, Value};
use rh_base::Seq;
use std::alloc::Global;
use std::test::Fail;
use test_rows::{joined, same, same_at};
use tree_text::program_text;

fn pairs_of(value: Value) -> Result<Pairs, Fail> {
    match value {
        Value::Map(pairs) => Ok(pairs),
        _ => Err(Fail::from("an object")),
    }
}

/// The attributes of an object of JSON.
fn attributes(alloc: Global, text: &str) -> Result<Pairs, Fail> {
    pairs_of(facts_from_json(alloc, text.as_bytes())?)
}

/// A native resource.
fn native(id: Ref, attrs: Pairs) -> Resource {
    Resource {
        id,
        sort: Sort::Plain,
        is_virtual: false,
        at: 0,
        holder: None,
        attrs,
    }
}

/// A native resource of these attributes.
fn native_with(alloc: Global, id: Ref, attrs: &str) -> Result<Resource, Fail> {
    Ok(native(id, attributes(alloc, attrs)?))
}

/// The same of a type and a title.
fn resource(alloc: Global, kind: &str, title: &str, attrs: &str) -> Result<Resource, Fail> {
    native_with(alloc, ref_of(alloc, kind, title)?, attrs)
}

/// Assumptions of the type `exec`.
fn assumptions(alloc: Global, behavior: &str) -> Result<Assumptions, Fail> {
    let text = joined(
        alloc,
        &[r#"{"version":1,"resources":{"exec":"#, behavior, r#"}}"#],
    )?;
    Ok(assumptions_from_json(alloc, text.as_bytes())?)
}

/// The behavior that is assumed of the type `exec`.
fn behavior_in(assumptions: &Assumptions) -> Option<&Behavior> {
    match assumptions.of_type("exec") {
        Some(Assumed::Does(behavior)) => Some(behavior),
        _ => None,
    }
}

fn shown(alloc: Global, program: &Program) -> Result<String, Fail> {
    let mut bytes = Vec::new(alloc);
    program_text(alloc, program, &mut bytes)?;
    Ok(String::from_utf8(bytes)?)
}

/// What is told of a resource that has no program.
fn fault_shown(fault: &ModelFault) -> &'static str {
    match fault {
        ModelFault::Because(Cause::Name) => "52",
        ModelFault::Because(_) => "another cause",
        ModelFault::Memory(_) => "no memory",
    }
}

/// The program of a resource and a behavior, or the rule that is broken.
fn program_of(alloc: Global, r: &Resource, behavior: &Behavior) -> Result<String, Fail> {
    match program_of_behavior(alloc, r, behavior) {
        Ok(program) => shown(alloc, &program),
        Err(fault) => Ok(String::from_str(alloc, fault_shown(&fault))?),
    }
}

/// The same of the text of a behavior.
fn program_shown(alloc: Global, r: &Resource, behavior: &str) -> Result<String, Fail> {
    let assumptions = assumptions(alloc, behavior)?;
    match behavior_in(&assumptions) {
        Some(behavior) => program_of(alloc, r, behavior),
        None => Err(Fail::from("no behavior")),
    }
}

/// Behaviors, and the programs of `Exec[x]` with the attributes `{"command": "/bin/c", "tries": 2, "require": ..}`.
const PROGRAMS: &[(&str, &str)] = &[
    (r#"{"needs":[]}"#, "id"),
    (
        r#"{"needs":["/bin/c"]}"#,
        r#"if file?("/bin/c") then id else err"#,
    ),
    (
        r#"{"needs":["/bin/c"],"creates":"/c"}"#,
        r#"if none?("/c") then if file?("/bin/c") then id else err else id"#,
    ),
    (
        r#"{"needs":[],"creates":"/c"}"#,
        r#"if none?("/c") then id else id"#,
    ),
    (
        r#"{"folders":["/a","/b/c"]}"#,
        r#"[if dir?("/a") then id else mkdir("/a"); if dir?("/b") then id else mkdir("/b"); if dir?("/b/c") then id else mkdir("/b/c")]"#,
    ),
    (
        r#"{"makes":["/m"]}"#,
        r#"if file?("/m") then [rm("/m"); creat("/m","made:Exec[x]:/m:{\"command\":\"/bin/c\",\"tries\":2}")] else creat("/m","made:Exec[x]:/m:{\"command\":\"/bin/c\",\"tries\":2}")"#,
    ),
    (
        r#"{"edits":["/etc/a%b"]}"#,
        r#"[if file?("/etc/a%b") then id else err; if dir?("/.rehearsal") then id else mkdir("/.rehearsal"); if dir?("/.rehearsal/edit") then id else mkdir("/.rehearsal/edit"); if dir?("/.rehearsal/edit/%2Fetc%2Fa%25b") then id else mkdir("/.rehearsal/edit/%2Fetc%2Fa%25b"); if file?("/.rehearsal/edit/%2Fetc%2Fa%25b/Exec[x]") then [rm("/.rehearsal/edit/%2Fetc%2Fa%25b/Exec[x]"); creat("/.rehearsal/edit/%2Fetc%2Fa%25b/Exec[x]","{\"command\":\"/bin/c\",\"tries\":2}")] else creat("/.rehearsal/edit/%2Fetc%2Fa%25b/Exec[x]","{\"command\":\"/bin/c\",\"tries\":2}")]"#,
    ),
    (
        r#"{"removes":["/r","/s"]}"#,
        r#"[if file?("/r") then rm("/r") else id; if file?("/s") then rm("/s") else id]"#,
    ),
    // in the order needs, folders, makes, edits, removes
    (
        r#"{"removes":["/r"],"folders":["/f"],"needs":["/n"],"creates":"/c"}"#,
        r#"if none?("/c") then [if file?("/n") then id else err; if dir?("/f") then id else mkdir("/f"); if file?("/r") then rm("/r") else id] else id"#,
    ),
];

/// A resource and a behavior have this program.
fn is_program(alloc: Global, r: &Resource, behavior: &str, want: &str) -> Result<(), Fail> {
    let told = program_shown(alloc, r, behavior)?;
    same(alloc, behavior, told.as_str(), want)
}

/// A resource and each behavior have the program beside it.
fn are_programs(alloc: Global, r: &Resource, rows: &[(&str, &str)]) -> Result<(), Fail> {
    for (behavior, want) in rows {
        is_program(alloc, r, *behavior, *want)?;
    }
    Ok(())
}

#[test]
fn behaviors_are_programs(rt: HostRuntime) -> Result<(), Fail> {
    let r = resource(
        rt.alloc(),
        "exec",
        "x",
        r#"{"before":"B","command":"/bin/c","notify":"N","require":"R","subscribe":"S","tries":2}"#,
    )?;
    are_programs(rt.alloc(), &r, PROGRAMS)
}

/// Pieces of titles, how many of them, behaviors, and whether a resource of such a title has a program.
const NAMES: &[(&str, usize, &str, bool)] = &[
    ("x", 249, r#"{"makes":["/m"]}"#, true),
    ("x", 250, r#"{"makes":["/m"]}"#, false),
    ("x", 250, r#"{"edits":["/m"]}"#, false),
    ("x", 250, r#"{"edits":[],"makes":[],"needs":["/n"]}"#, true),
    ("\0", 1, r#"{"makes":["/m"]}"#, false),
    ("\0", 1, r#"{"edits":["/m"]}"#, false),
    ("\0", 1, r#"{"removes":["/m"]}"#, true),
];

/// A resource whose title is this piece so many times.
fn titled(alloc: Global, piece: &str, count: usize) -> Result<Resource, Fail> {
    let title = piece.repeat(alloc, count)?;
    resource(alloc, "exec", title.as_str(), "{}")
}

/// The program of such a resource and a behavior, or the rule that is broken.
fn program_titled(
    alloc: Global,
    piece: &str,
    count: usize,
    behavior: &str,
) -> Result<String, Fail> {
    let r = titled(alloc, piece, count)?;
    program_shown(alloc, &r, behavior)
}

fn word(accepted: bool) -> &'static str {
    if accepted { "accepted" } else { "refused" }
}

/// Such a resource has a program or not.
fn is_accepted(
    alloc: Global,
    piece: &str,
    count: usize,
    behavior: &str,
    want: bool,
) -> Result<(), Fail> {
    let told = program_titled(alloc, piece, count, behavior)?;
    let accepted = told.as_str() != "52";
    same_at(alloc, count as u64, behavior, word(accepted), word(want))
}

/// Each such resource has a program or not.
fn are_accepted(alloc: Global, rows: &[(&str, usize, &str, bool)]) -> Result<(), Fail> {
    for (piece, count, behavior, want) in rows {
        is_accepted(alloc, *piece, *count, *behavior, *want)?;
    }
    Ok(())
}

#[test]
fn what_writes_has_a_name(rt: HostRuntime) -> Result<(), Fail> {
    are_accepted(rt.alloc(), NAMES)
}

/// The mark of an edit of a path by `File_line[TITLE]`.
fn mark(alloc: Global, title: &str, path: &Path) -> Result<Path, Fail> {
    let r = resource(alloc, "file_line", title, "{}")?;
    Ok(edit_mark(alloc, &r, path)?)
}

/// An edit of `/h` by `File_line[TITLE]`, which stands at a place.
fn edit(alloc: Global, place: usize, title: &str) -> Result<Edit, Fail> {
    let path = Path::read(alloc, "/h")?;
    let mark = mark(alloc, title, &path)?;
    Ok(Edit { place, path, mark })
}

fn push_edit(alloc: Global, place: usize, title: &str, edits: &mut Seq<Edit>) -> Result<(), Fail> {
    Ok(edits.push(edit(alloc, place, title)?)?)
}

/// Edits of `/h` by resources of these places and titles.
fn edits_by(alloc: Global, resources: &[(usize, &str)]) -> Result<Seq<Edit>, Fail> {
    let mut edits = Seq::new(alloc);
    for (place, title) in resources {
        push_edit(alloc, *place, *title, &mut edits)?;
    }
    Ok(edits)
}

/// Edits of `/h` by the resources at the places 0 and 1.
fn two_edits(alloc: Global) -> Result<Edits, Fail> {
    let edits = edits_by(alloc, &[(0, "a"), (1, "b")])?;
    Ok(Edits::of(alloc, edits)?)
}

/// A program in which edits are lost.
fn lost(alloc: Global, edits: &Edits, place: usize, program: Program) -> Result<String, Fail> {
    let lost = with_lost_edits(alloc, edits, place, program)?;
    shown(alloc, &lost)
}

/// The program of a resource and a behavior, in which edits are lost.
fn lost_by(
    alloc: Global,
    edits: &Edits,
    place: usize,
    r: &Resource,
    behavior: &Behavior,
) -> Result<String, Fail> {
    match program_of_behavior(alloc, r, behavior) {
        Ok(program) => lost(alloc, edits, place, program),
        Err(fault) => Ok(String::from_str(alloc, fault_shown(&fault))?),
    }
}

/// The same of `Exec[x]`.
fn lost_of(
    alloc: Global,
    edits: &Edits,
    place: usize,
    behavior: &Behavior,
) -> Result<String, Fail> {
    let r = resource(alloc, "exec", "x", "{}")?;
    lost_by(alloc, edits, place, &r, behavior)
}

/// The same of the text of a behavior.
fn lost_in(alloc: Global, edits: &Edits, place: usize, behavior: &str) -> Result<String, Fail> {
    let assumptions = assumptions(alloc, behavior)?;
    match behavior_in(&assumptions) {
        Some(behavior) => lost_of(alloc, edits, place, behavior),
        None => Err(Fail::from("no behavior")),
    }
}

/// The same of the two edits.
fn lost_shown(alloc: Global, place: usize, behavior: &str) -> Result<String, Fail> {
    let edits = two_edits(alloc)?;
    lost_in(alloc, &edits, place, behavior)
}

/// Places, behaviors, and the programs in which edits are lost.
const LOST: &[(usize, &str, &str)] = &[
    (
        2,
        r#"{"removes":["/h"]}"#,
        r#"if file?("/h") then [rm("/h"); if file?("/.rehearsal/edit/%2Fh/File_line[a]") then rm("/.rehearsal/edit/%2Fh/File_line[a]") else id; if file?("/.rehearsal/edit/%2Fh/File_line[b]") then rm("/.rehearsal/edit/%2Fh/File_line[b]") else id] else id"#,
    ),
    // a resource's own edits stay
    (
        0,
        r#"{"removes":["/h"]}"#,
        r#"if file?("/h") then [rm("/h"); if file?("/.rehearsal/edit/%2Fh/File_line[b]") then rm("/.rehearsal/edit/%2Fh/File_line[b]") else id] else id"#,
    ),
    (
        1,
        r#"{"makes":["/h"]}"#,
        r#"if file?("/h") then [rm("/h"); if file?("/.rehearsal/edit/%2Fh/File_line[a]") then rm("/.rehearsal/edit/%2Fh/File_line[a]") else id; creat("/h","made:Exec[x]:/h:{}"); if file?("/.rehearsal/edit/%2Fh/File_line[a]") then rm("/.rehearsal/edit/%2Fh/File_line[a]") else id] else [creat("/h","made:Exec[x]:/h:{}"); if file?("/.rehearsal/edit/%2Fh/File_line[a]") then rm("/.rehearsal/edit/%2Fh/File_line[a]") else id]"#,
    ),
    // what needs the file or makes a folder doesn't write it, nor does what writes another file
    (
        2,
        r#"{"needs":["/h"],"folders":["/f"],"removes":["/i"]}"#,
        r#"[if file?("/h") then id else err; if dir?("/f") then id else mkdir("/f"); if file?("/i") then rm("/i") else id]"#,
    ),
    (2, r#"{"needs":[]}"#, "id"),
];

/// At a place and of a behavior edits are lost as this program tells.
fn is_lost(alloc: Global, place: usize, behavior: &str, want: &str) -> Result<(), Fail> {
    let told = lost_shown(alloc, place, behavior)?;
    same_at(alloc, place as u64, behavior, told.as_str(), want)
}

/// At each place and of each behavior edits are lost as the program beside them tells.
fn are_lost(alloc: Global, rows: &[(usize, &str, &str)]) -> Result<(), Fail> {
    for (place, behavior, want) in rows {
        is_lost(alloc, *place, *behavior, *want)?;
    }
    Ok(())
}

#[test]
fn edits_are_lost(rt: HostRuntime) -> Result<(), Fail> {
    are_lost(rt.alloc(), LOST)
}
