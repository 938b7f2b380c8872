//! Cron jobs and keys of ssh.

use super::drafts::{NONE, are_answered};
use std::test::Fail;

/// Jobs of root and of others, and each cause.
const JOBS: &[(&str, &str)] = &[
    (
        r#"cron|n|{"command":"c"}"#,
        r#"[id; if dir?("/.rehearsal") then id else mkdir("/.rehearsal"); if dir?("/.rehearsal/cron") then id else mkdir("/.rehearsal/cron"); if dir?("/.rehearsal/cron/root") then id else mkdir("/.rehearsal/cron/root"); if file?("/.rehearsal/cron/root/n") then [rm("/.rehearsal/cron/root/n"); creat("/.rehearsal/cron/root/n","cron:c\n*\n*\n*\n*\n*\n")] else creat("/.rehearsal/cron/root/n","cron:c\n*\n*\n*\n*\n*\n")]"#,
    ),
    (
        r#"cron|n|{"ensure":"present"}|{"command":"c","user":"u"}|{"minute":5}|{"hour":[1,"2-3"],"monthday":"1"}|{"month":[],"weekday":-1}|{"special":"reboot"}|{"environment":1}"#,
        r#"[if file?("/.rehearsal/user/u") then id else err; if dir?("/.rehearsal") then id else mkdir("/.rehearsal"); if dir?("/.rehearsal/cron") then id else mkdir("/.rehearsal/cron"); if dir?("/.rehearsal/cron/u") then id else mkdir("/.rehearsal/cron/u"); if file?("/.rehearsal/cron/u/n") then [rm("/.rehearsal/cron/u/n"); creat("/.rehearsal/cron/u/n","cron:c\n5\n1,2-3\n1\n\n-1\nreboot")] else creat("/.rehearsal/cron/u/n","cron:c\n5\n1,2-3\n1\n\n-1\nreboot")]"#,
    ),
    (
        r#"cron|n|{"ensure":"absent"}"#,
        r#"if file?("/.rehearsal/cron/root/n") then rm("/.rehearsal/cron/root/n") else id"#,
    ),
    ("cron|n|{}", "51 at 7: command"),
    (r#"cron|n|{"command":5}"#, "51 at 7: command"),
    (r#"cron|n|{"command":"c","hour":true}"#, "51 at 7: hour"),
    (r#"cron|n|{"command":"c","hour":[true]}"#, "51 at 7: hour"),
    (r#"cron|n|{"command":"c","user":0}"#, "51 at 7: user"),
    (r#"cron|n|{"odd":1}"#, "51 at 7: odd"),
    (r#"cron|n|{"command":"c","user":""}"#, "52 at 7: Cron[n]"),
    (r#"cron|n|{"ensure":"purged"}"#, "55 at 7: Cron[n]"),
    (
        r#"cron|n|{"ensure":"absent"}|{"user":"u"}"#,
        r#"if file?("/.rehearsal/cron/u/n") then rm("/.rehearsal/cron/u/n") else id"#,
    ),
    (
        r#"cron|a/b|{"ensure":"absent"}|{"user":".."}"#,
        r#"if file?("/.rehearsal/cron/%2E%2E/a%2Fb") then rm("/.rehearsal/cron/%2E%2E/a%2Fb") else id"#,
    ),
    (
        r#"cron|n|{"ensure":"absent","command":5}"#,
        "51 at 7: command",
    ),
    (r#"cron|n|{"command":"c","minute":{}}"#, "51 at 7: minute"),
    (
        r#"cron|n|{"command":"c","monthday":true}"#,
        "51 at 7: monthday",
    ),
    (r#"cron|n|{"command":"c","month":[[1]]}"#, "51 at 7: month"),
    (
        r#"cron|n|{"command":"c","weekday":true}"#,
        "51 at 7: weekday",
    ),
    (r#"cron|n|{"command":"c","special":1}"#, "51 at 7: special"),
    (r#"cron|n|{"command":"c","name":1}"#, "51 at 7: name"),
    (r#"cron|n|{"hour":true}|{"command":5}"#, "51 at 7: hour"),
    (r#"cron||{"command":"c"}"#, "52 at 7: Cron[]"),
    (r#"cron|n|{"ensure":"held"}"#, "55 at 7: Cron[n]"),
];

/// Keys, and each cause.
const KEYS: &[(&str, &str)] = &[
    (
        r#"ssh_authorized_key|k|{"user":"u"}|{"type":"rsa"}|{"key":"A"}"#,
        r#"[if file?("/.rehearsal/user/u") then id else err; if dir?("/.rehearsal") then id else mkdir("/.rehearsal"); if dir?("/.rehearsal/ssh") then id else mkdir("/.rehearsal/ssh"); if dir?("/.rehearsal/ssh/u") then id else mkdir("/.rehearsal/ssh/u"); if file?("/.rehearsal/ssh/u/k") then [rm("/.rehearsal/ssh/u/k"); creat("/.rehearsal/ssh/u/k","key:rsa A")] else creat("/.rehearsal/ssh/u/k","key:rsa A")]"#,
    ),
    (
        r#"ssh_authorized_key|k|{"user":"root","ensure":"present"}|{"options":1}"#,
        r#"[id; if dir?("/.rehearsal") then id else mkdir("/.rehearsal"); if dir?("/.rehearsal/ssh") then id else mkdir("/.rehearsal/ssh"); if dir?("/.rehearsal/ssh/root") then id else mkdir("/.rehearsal/ssh/root"); if file?("/.rehearsal/ssh/root/k") then [rm("/.rehearsal/ssh/root/k"); creat("/.rehearsal/ssh/root/k","key: ")] else creat("/.rehearsal/ssh/root/k","key: ")]"#,
    ),
    (
        r#"ssh_authorized_key|k|{"ensure":"absent","user":"u"}"#,
        r#"if file?("/.rehearsal/ssh/u/k") then rm("/.rehearsal/ssh/u/k") else id"#,
    ),
    ("ssh_authorized_key|k|{}", "51 at 7: user"),
    (
        r#"ssh_authorized_key|k|{"ensure":"absent"}"#,
        "51 at 7: user",
    ),
    (
        r#"ssh_authorized_key|k|{"user":"u"}|{"target":"/x"}"#,
        "51 at 7: target",
    ),
    (
        r#"ssh_authorized_key|k|{"user":"u"}|{"ensure":"held"}"#,
        "55 at 7: Ssh_authorized_key[k]",
    ),
    (
        r#"ssh_authorized_key|k|{"user":""}"#,
        "52 at 7: Ssh_authorized_key[k]",
    ),
    (
        r#"ssh_authorized_key|k|{"ensure":"absent","user":"root"}"#,
        r#"if file?("/.rehearsal/ssh/root/k") then rm("/.rehearsal/ssh/root/k") else id"#,
    ),
    (
        r#"ssh_authorized_key|k|{"name":"a/b"}|{"ensure":"absent","user":"u"}"#,
        r#"if file?("/.rehearsal/ssh/u/a%2Fb") then rm("/.rehearsal/ssh/u/a%2Fb") else id"#,
    ),
    (r#"ssh_authorized_key|k|{"user":5}"#, "51 at 7: user"),
    (
        r#"ssh_authorized_key|k|{"user":"u"}|{"type":1}"#,
        "51 at 7: type",
    ),
    (
        r#"ssh_authorized_key|k|{"user":"u"}|{"key":[]}"#,
        "51 at 7: key",
    ),
    (
        r#"ssh_authorized_key|k|{"user":"u"}|{"name":1}"#,
        "51 at 7: name",
    ),
    (r#"ssh_authorized_key|k|{"odd":1}"#, "51 at 7: odd"),
    (
        r#"ssh_authorized_key|k|{"ensure":"held"}"#,
        "55 at 7: Ssh_authorized_key[k]",
    ),
    (
        r#"ssh_authorized_key||{"user":"u"}"#,
        "52 at 7: Ssh_authorized_key[]",
    ),
];

#[test]
fn programs_of_cron_jobs(rt: HostRuntime) -> Result<(), Fail> {
    are_answered(rt.alloc(), NONE, JOBS)
}

#[test]
fn keys_of_ssh(rt: HostRuntime) -> Result<(), Fail> {
    are_answered(rt.alloc(), NONE, KEYS)
}
