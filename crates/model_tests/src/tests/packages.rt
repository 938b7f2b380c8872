//! Packages.

use super::drafts::are_answered;
use std::test::Fail;

const NTP: &str =
    r#"{"version":1,"packages":{"ntp":{"files":["/etc/ntp.conf"],"folders":["/var/lib/ntp","/var","/var/lib"]}}}"#;

const TWO: &str =
    r#"{"version":2,"packages":{"a":{"files":[["/f","d1"],["/e",null]],"folders":["/o/p","/q","/o"]},"a b/%":{"files":[],"folders":[]},"..":{"files":[],"folders":[]}}}"#;

/// Each way to ask for a package.
const INSTALLED: &[(&str, &str)] = &[
    (
        "package|ntp|{}",
        r#"[if dir?("/etc") then id else mkdir("/etc"); if dir?("/var") then id else mkdir("/var"); if dir?("/var/lib") then id else mkdir("/var/lib"); if dir?("/var/lib/ntp") then id else mkdir("/var/lib/ntp"); if dir?("/.rehearsal") then id else mkdir("/.rehearsal"); if dir?("/.rehearsal/package") then id else mkdir("/.rehearsal/package"); if file?("/.rehearsal/package/ntp") then id else [if file?("/etc/ntp.conf") then [rm("/etc/ntp.conf"); creat("/etc/ntp.conf","package:ntp:/etc/ntp.conf")] else creat("/etc/ntp.conf","package:ntp:/etc/ntp.conf"); creat("/.rehearsal/package/ntp","")]]"#,
    ),
    (
        r#"package|ntp|{"ensure":"present"}"#,
        r#"[if dir?("/etc") then id else mkdir("/etc"); if dir?("/var") then id else mkdir("/var"); if dir?("/var/lib") then id else mkdir("/var/lib"); if dir?("/var/lib/ntp") then id else mkdir("/var/lib/ntp"); if dir?("/.rehearsal") then id else mkdir("/.rehearsal"); if dir?("/.rehearsal/package") then id else mkdir("/.rehearsal/package"); if file?("/.rehearsal/package/ntp") then id else [if file?("/etc/ntp.conf") then [rm("/etc/ntp.conf"); creat("/etc/ntp.conf","package:ntp:/etc/ntp.conf")] else creat("/etc/ntp.conf","package:ntp:/etc/ntp.conf"); creat("/.rehearsal/package/ntp","")]]"#,
    ),
    (
        r#"package|ntp|{"ensure":"installed","provider":"apt"}"#,
        r#"[if dir?("/etc") then id else mkdir("/etc"); if dir?("/var") then id else mkdir("/var"); if dir?("/var/lib") then id else mkdir("/var/lib"); if dir?("/var/lib/ntp") then id else mkdir("/var/lib/ntp"); if dir?("/.rehearsal") then id else mkdir("/.rehearsal"); if dir?("/.rehearsal/package") then id else mkdir("/.rehearsal/package"); if file?("/.rehearsal/package/ntp") then id else [if file?("/etc/ntp.conf") then [rm("/etc/ntp.conf"); creat("/etc/ntp.conf","package:ntp:/etc/ntp.conf")] else creat("/etc/ntp.conf","package:ntp:/etc/ntp.conf"); creat("/.rehearsal/package/ntp","")]]"#,
    ),
    (
        r#"package|ntp|{"ensure":"latest","source":"/x"}"#,
        r#"[if dir?("/etc") then id else mkdir("/etc"); if dir?("/var") then id else mkdir("/var"); if dir?("/var/lib") then id else mkdir("/var/lib"); if dir?("/var/lib/ntp") then id else mkdir("/var/lib/ntp"); if dir?("/.rehearsal") then id else mkdir("/.rehearsal"); if dir?("/.rehearsal/package") then id else mkdir("/.rehearsal/package"); if file?("/.rehearsal/package/ntp") then id else [if file?("/etc/ntp.conf") then [rm("/etc/ntp.conf"); creat("/etc/ntp.conf","package:ntp:/etc/ntp.conf")] else creat("/etc/ntp.conf","package:ntp:/etc/ntp.conf"); creat("/.rehearsal/package/ntp","")]]"#,
    ),
    (
        r#"package|ntp|{"ensure":"4.2"}"#,
        r#"[if dir?("/etc") then id else mkdir("/etc"); if dir?("/var") then id else mkdir("/var"); if dir?("/var/lib") then id else mkdir("/var/lib"); if dir?("/var/lib/ntp") then id else mkdir("/var/lib/ntp"); if dir?("/.rehearsal") then id else mkdir("/.rehearsal"); if dir?("/.rehearsal/package") then id else mkdir("/.rehearsal/package"); if file?("/.rehearsal/package/ntp") then id else [if file?("/etc/ntp.conf") then [rm("/etc/ntp.conf"); creat("/etc/ntp.conf","package:ntp:/etc/ntp.conf")] else creat("/etc/ntp.conf","package:ntp:/etc/ntp.conf"); creat("/.rehearsal/package/ntp","")]]"#,
    ),
    (
        r#"package|x|{"name":"ntp"}|{"install_options":1,"uninstall_options":1}|{"allow_virtual":1}"#,
        r#"[if dir?("/etc") then id else mkdir("/etc"); if dir?("/var") then id else mkdir("/var"); if dir?("/var/lib") then id else mkdir("/var/lib"); if dir?("/var/lib/ntp") then id else mkdir("/var/lib/ntp"); if dir?("/.rehearsal") then id else mkdir("/.rehearsal"); if dir?("/.rehearsal/package") then id else mkdir("/.rehearsal/package"); if file?("/.rehearsal/package/ntp") then id else [if file?("/etc/ntp.conf") then [rm("/etc/ntp.conf"); creat("/etc/ntp.conf","package:ntp:/etc/ntp.conf")] else creat("/etc/ntp.conf","package:ntp:/etc/ntp.conf"); creat("/.rehearsal/package/ntp","")]]"#,
    ),
];

/// Digests, sweeps and packages of nothing.
const OF_TWO: &[(&str, &str)] = &[
    (
        r#"package|a|{"ensure":"absent"}"#,
        r#"if file?("/.rehearsal/package/a") then [if file?("/f") then rm("/f") else id; if file?("/e") then rm("/e") else id; if emptydir?("/o/p") then rm("/o/p") else id; if emptydir?("/q") then rm("/q") else id; if emptydir?("/o") then rm("/o") else id; rm("/.rehearsal/package/a")] else id"#,
    ),
    (
        r#"package|a|{"ensure":"purged"}"#,
        r#"if file?("/.rehearsal/package/a") then [if file?("/f") then rm("/f") else id; if file?("/e") then rm("/e") else id; if emptydir?("/o/p") then rm("/o/p") else id; if emptydir?("/q") then rm("/q") else id; if emptydir?("/o") then rm("/o") else id; rm("/.rehearsal/package/a")] else id"#,
    ),
    (
        "package|a|{}",
        r#"[if dir?("/o") then id else mkdir("/o"); if dir?("/o/p") then id else mkdir("/o/p"); if dir?("/q") then id else mkdir("/q"); if dir?("/.rehearsal") then id else mkdir("/.rehearsal"); if dir?("/.rehearsal/package") then id else mkdir("/.rehearsal/package"); if file?("/.rehearsal/package/a") then id else [if file?("/f") then [rm("/f"); creat("/f","digest:d1")] else creat("/f","digest:d1"); if file?("/e") then [rm("/e"); creat("/e","package:a:/e")] else creat("/e","package:a:/e"); creat("/.rehearsal/package/a","")]]"#,
    ),
    (
        "package|a b/%|{}",
        r#"[if dir?("/.rehearsal") then id else mkdir("/.rehearsal"); if dir?("/.rehearsal/package") then id else mkdir("/.rehearsal/package"); if file?("/.rehearsal/package/a b%2F%25") then id else creat("/.rehearsal/package/a b%2F%25","")]"#,
    ),
    (
        r#"package|..|{"ensure":"absent"}"#,
        r#"if file?("/.rehearsal/package/%2E%2E") then rm("/.rehearsal/package/%2E%2E") else id"#,
    ),
    (
        r#"package|..|{"ensure":"0"}"#,
        r#"[if dir?("/.rehearsal") then id else mkdir("/.rehearsal"); if dir?("/.rehearsal/package") then id else mkdir("/.rehearsal/package"); if file?("/.rehearsal/package/%2E%2E") then id else creat("/.rehearsal/package/%2E%2E","")]"#,
    ),
];

/// Each cause, and which comes first.
const REFUSED: &[(&str, &str)] = &[
    ("package|x|{}", "54 at 7: Package[x]"),
    (r#"package|x|{"ensure":"absent"}"#, "54 at 7: Package[x]"),
    (r#"package|x|{"odd":1}"#, "51 at 7: odd"),
    (r#"package|x|{"name":5}"#, "51 at 7: name"),
    (r#"package|x|{"name":""}"#, "52 at 7: Package[x]"),
    (
        r#"package|x|{"ensure":"held","odd":1}"#,
        "55 at 7: Package[x]",
    ),
    (r#"package|ntp|{"ensure":"held"}"#, "55 at 7: Package[ntp]"),
    (r#"package|ntp|{"ensure":4}"#, "55 at 7: Package[ntp]"),
    (r#"package|ntp|{"ensure":""}"#, "55 at 7: Package[ntp]"),
    (r#"package|ntp|{"name":""}"#, "52 at 7: Package[ntp]"),
    (r#"package|ntp|{"name":"a\u0000"}"#, "52 at 7: Package[ntp]"),
    (r#"package|ntp|{"odd":1}"#, "51 at 7: odd"),
    (r#"package|ntp|{"name":[]}"#, "51 at 7: name"),
    ("package||{}", "52 at 7: Package[]"),
    (r#"package|ntp|{"name":"NTP"}"#, "54 at 7: Package[ntp]"),
    (r#"package|ntp|{"ensure":true}"#, "55 at 7: Package[ntp]"),
    (
        r#"package|ntp|{"ensure":"running"}"#,
        "55 at 7: Package[ntp]",
    ),
    (r#"package|ntp|{"ensure":"v4"}"#, "55 at 7: Package[ntp]"),
];

#[test]
fn installed_packages(rt: HostRuntime) -> Result<(), Fail> {
    are_answered(rt.alloc(), NTP, INSTALLED)
}

#[test]
fn digests_and_sweeps(rt: HostRuntime) -> Result<(), Fail> {
    are_answered(rt.alloc(), TWO, OF_TWO)
}

#[test]
fn refusals_of_packages(rt: HostRuntime) -> Result<(), Fail> {
    are_answered(rt.alloc(), NTP, REFUSED)
}
