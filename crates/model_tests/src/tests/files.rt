//! Files.

use super::drafts::{NONE, are_answered};
use std::test::Fail;

/// A row for each state of a file, and the attributes that count for nothing.
const PROGRAMS: &[(&str, &str)] = &[
    ("file|/a|{}", "id"),
    (
        r#"file|/a|{"mode":"0644","owner":"root"}|{"group":0,"loglevel":"debug","require":1}"#,
        "id",
    ),
    (
        r#"file|/a|{"ensure":"present"}"#,
        r#"if none?("/a") then creat("/a","") else id"#,
    ),
    (
        r#"file|/a|{"ensure":"file"}"#,
        r#"if file?("/a") then id else creat("/a","")"#,
    ),
    (
        r#"file|/a|{"content":"x"}"#,
        r#"if file?("/a") then [rm("/a"); creat("/a","x")] else creat("/a","x")"#,
    ),
    (
        r#"file|/a|{"ensure":"file"}|{"content":""}"#,
        r#"if file?("/a") then [rm("/a"); creat("/a","")] else creat("/a","")"#,
    ),
    (
        r#"file|/a|{"ensure":"present","source":"/b//c/"}"#,
        r#"if file?("/a") then [rm("/a"); cp("/b/c","/a")] else cp("/b/c","/a")"#,
    ),
    (
        r#"file|/a|{"source":"puppet:///m/f"}"#,
        r#"if file?("/a") then [rm("/a"); creat("/a","source:puppet:///m/f")] else creat("/a","source:puppet:///m/f")"#,
    ),
    (
        r#"file|/a|{"source":"http://h/f"}"#,
        r#"if file?("/a") then [rm("/a"); creat("/a","source:http://h/f")] else creat("/a","source:http://h/f")"#,
    ),
    (
        r#"file|/a|{"source":"https://h/f"}"#,
        r#"if file?("/a") then [rm("/a"); creat("/a","source:https://h/f")] else creat("/a","source:https://h/f")"#,
    ),
    (
        r#"file|/a|{"ensure":"directory"}"#,
        r#"if dir?("/a") then id else mkdir("/a")"#,
    ),
    (
        r#"file|/a|{"ensure":"absent"}"#,
        r#"if (file?("/a") or link?("/a")) then rm("/a") else id"#,
    ),
    (
        r#"file|/a|{"ensure":"absent"}|{"content":5,"source":"x","target":[]}"#,
        r#"if (file?("/a") or link?("/a")) then rm("/a") else id"#,
    ),
    (
        r#"file|/a|{"ensure":"link","target":"/b"}"#,
        r#"if (file?("/a") or link?("/a")) then [rm("/a"); link("/a","/b")] else link("/a","/b")"#,
    ),
    (
        r#"file|/a|{"path":"/q/"}|{"ensure":"directory"}"#,
        r#"if dir?("/q") then id else mkdir("/q")"#,
    ),
    (
        r#"file|/a|{"recurse":false}|{"purge":"false"}|{"force":false,"replace":true}"#,
        "id",
    ),
    (
        r#"file|/a|{"backup":1,"show_diff":1}|{"checksum":1,"validate_cmd":1}|{"selrange":1,"selrole":1,"seltype":1,"seluser":1}|{"provider":1}"#,
        "id",
    ),
    (
        r#"file|/|{"ensure":"directory"}"#,
        r#"if dir?("/") then id else mkdir("/")"#,
    ),
    (
        r#"file|/a|{"content":"x","ensure":"present"}"#,
        r#"if file?("/a") then [rm("/a"); creat("/a","x")] else creat("/a","x")"#,
    ),
    (
        r#"file|/a|{"ensure":"file","source":"/b"}"#,
        r#"if file?("/a") then [rm("/a"); cp("/b","/a")] else cp("/b","/a")"#,
    ),
    (
        r#"file|/a|{"source":"puppet:"}"#,
        r#"if file?("/a") then [rm("/a"); creat("/a","source:puppet:")] else creat("/a","source:puppet:")"#,
    ),
    (
        r#"file|/a|{"ensure":"absent","source":"/.rehearsal/x"}"#,
        r#"if (file?("/a") or link?("/a")) then rm("/a") else id"#,
    ),
    (
        r#"file|/a|{"ensure":"link","target":"../b"}"#,
        r#"if (file?("/a") or link?("/a")) then [rm("/a"); link("/a","../b")] else link("/a","../b")"#,
    ),
    (
        r#"file|/a|{"ensure":"link","target":"/.rehearsal/b"}"#,
        r#"if (file?("/a") or link?("/a")) then [rm("/a"); link("/a","/.rehearsal/b")] else link("/a","/.rehearsal/b")"#,
    ),
    (
        r#"file|x|{"path":"/.rehearsals"}|{"ensure":"directory"}"#,
        r#"if dir?("/.rehearsals") then id else mkdir("/.rehearsals")"#,
    ),
    (
        r#"file|/a|{"recurse":"false"}|{"force":"false"}|{"owner":0}|{"group":"g"}"#,
        "id",
    ),
    // whom it belongs to isn't in its program
    (r#"file|/a|{"owner":"","group":"a\u0000"}"#, "id"),
    (
        r#"file|/a "b"|{"ensure":"directory"}"#,
        r#"if dir?("/a \"b\"") then id else mkdir("/a \"b\"")"#,
    ),
];

/// Attributes that are refused.
const ATTRIBUTES: &[(&str, &str)] = &[
    (r#"file|/a|{"recurse":true}"#, "51 at 7: recurse"),
    (r#"file|/a|{"purge":"yes"}"#, "51 at 7: purge"),
    (r#"file|/a|{"force":1}"#, "51 at 7: force"),
    (r#"file|/a|{"replace":"true"}"#, "51 at 7: replace"),
    (r#"file|/a|{"replace":false}"#, "51 at 7: replace"),
    (r#"file|/a|{"odd":1}"#, "51 at 7: odd"),
    (r#"file|/a|{"content":1}"#, "51 at 7: content"),
    (r#"file|/a|{"owner":[]}"#, "51 at 7: owner"),
    (r#"file|/a|{"path":[]}"#, "51 at 7: path"),
    (
        r#"file|/a|{"content":"x","source":"/b"}"#,
        "51 at 7: source",
    ),
    (
        r#"file|/a|{"source":"/b"}|{"content":"x"}"#,
        "51 at 7: content",
    ),
    (
        r#"file|/a|{"ensure":"directory"}|{"content":"x"}"#,
        "51 at 7: content",
    ),
    (
        r#"file|/a|{"ensure":"directory","source":"/b"}|{"content":"x"}"#,
        "51 at 7: source",
    ),
    (
        r#"file|/a|{"ensure":"directory","content":"x"}|{"source":"/b"}"#,
        "51 at 7: content",
    ),
    (
        r#"file|/a|{"ensure":"link","target":"/b"}|{"content":"x"}"#,
        "51 at 7: content",
    ),
    (r#"file|/a|{"source":"b"}"#, "51 at 7: source"),
    (r#"file|/a|{"source":"ftp://h"}"#, "51 at 7: source"),
    (r#"file|/a|{"target":"/b"}"#, "51 at 7: target"),
    (
        r#"file|/a|{"ensure":"file","target":"/b"}"#,
        "51 at 7: target",
    ),
    (r#"file|/a|{"ensure":"link"}"#, "51 at 7: target"),
    (r#"file|/a|{"ensure":"link","odd":1}"#, "51 at 7: odd"),
    (r#"file|/a|{"recurse":"true"}"#, "51 at 7: recurse"),
    (r#"file|/a|{"purge":true}"#, "51 at 7: purge"),
    (r#"file|/a|{"force":"true"}"#, "51 at 7: force"),
    (r#"file|/a|{"replace":1}"#, "51 at 7: replace"),
    (r#"file|/a|{"group":[]}"#, "51 at 7: group"),
    (r#"file|/a|{"owner":true}"#, "51 at 7: owner"),
    (r#"file|/a|{"source":1}"#, "51 at 7: source"),
    (r#"file|/a|{"source":""}"#, "51 at 7: source"),
    (r#"file|/a|{"ensure":"link","target":1}"#, "51 at 7: target"),
    (
        r#"file|/a|{"ensure":"directory","source":"/b"}"#,
        "51 at 7: source",
    ),
    (
        r#"file|/a|{"ensure":"link","target":"/b"}|{"source":"/c"}"#,
        "51 at 7: source",
    ),
    (
        r#"file|/a|{"ensure":"present","target":"/b"}"#,
        "51 at 7: target",
    ),
    (
        r#"file|/a|{"ensure":"directory","target":"/b"}"#,
        "51 at 7: target",
    ),
    (r#"file|/a|{"ensure":"absent","odd":1}"#, "51 at 7: odd"),
    (
        r#"file|/a|{"ensure":"absent","recurse":true}"#,
        "51 at 7: recurse",
    ),
    (
        r#"file|/a|{"ensure":"absent","owner":[]}"#,
        "51 at 7: owner",
    ),
    (r#"file|/a|{"odd":1}|{"content":1}"#, "51 at 7: odd"),
    (r#"file|/a|{"content":1}|{"odd":1}"#, "51 at 7: content"),
];

/// States that a file has none of, and paths.
const STATES_AND_PATHS: &[(&str, &str)] = &[
    (r#"file|/a|{"ensure":"/b"}"#, "55 at 7: File[/a]"),
    (r#"file|/a|{"ensure":true}"#, "55 at 7: File[/a]"),
    (
        r#"file|/a|{"ensure":"purged","odd":1}"#,
        "55 at 7: File[/a]",
    ),
    ("file|a|{}", "52 at 7: File[a]"),
    ("file|/a/../b|{}", "52 at 7: File[/a/../b]"),
    (r#"file|/a|{"source":"/../b"}"#, "52 at 7: File[/a]"),
    (r#"file|/a|{"path":"b"}"#, "52 at 7: File[/a]"),
    (r#"file|a|{"odd":1}"#, "51 at 7: odd"),
    ("file|/.rehearsal/x|{}", "53 at 7: File[/.rehearsal/x]"),
    ("file|/.rehearsal|{}", "53 at 7: File[/.rehearsal]"),
    (
        r#"file|/.rehearsal|{"source":"/../b"}"#,
        "52 at 7: File[/.rehearsal]",
    ),
    (r#"file|/a|{"source":"/.rehearsal/b"}"#, "53 at 7: File[/a]"),
    (r#"file|/a|{"ensure":"held"}"#, "55 at 7: File[/a]"),
    (r#"file|/a|{"ensure":5}"#, "55 at 7: File[/a]"),
    (r#"file|/a|{"ensure":[]}"#, "55 at 7: File[/a]"),
    (
        r#"file|/a|{"ensure":"/b","target":"/b"}"#,
        "55 at 7: File[/a]",
    ),
    ("file||{}", "52 at 7: File[]"),
    ("file|/a/./b|{}", "52 at 7: File[/a/./b]"),
    (r#"file|/a|{"path":""}"#, "52 at 7: File[/a]"),
    (r#"file|/a|{"path":"/b\u0000"}"#, "52 at 7: File[/a]"),
    (r#"file|/a|{"source":"/a/./b"}"#, "52 at 7: File[/a]"),
    ("file|//.rehearsal//x|{}", "53 at 7: File[//.rehearsal//x]"),
    (
        r#"file|/a|{"path":"/.rehearsal/x"}|{"ensure":"absent"}"#,
        "53 at 7: File[/a]",
    ),
    (r#"file|/.rehearsal|{"odd":1}"#, "51 at 7: odd"),
];

#[test]
fn programs_of_files(rt: HostRuntime) -> Result<(), Fail> {
    are_answered(rt.alloc(), NONE, PROGRAMS)
}

#[test]
fn attributes_of_files(rt: HostRuntime) -> Result<(), Fail> {
    are_answered(rt.alloc(), NONE, ATTRIBUTES)
}

#[test]
fn states_and_paths_of_files(rt: HostRuntime) -> Result<(), Fail> {
    are_answered(rt.alloc(), NONE, STATES_AND_PATHS)
}
