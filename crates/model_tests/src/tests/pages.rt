//! The examples of the page on models, as they stand there.

use super::drafts::are_answered;
use std::test::Fail;

const NTP: &str = r#"{"version":1,"packages":{"ntp":{"files":["/etc/ntp.conf"],"folders":[]}}}"#;

/// An example for each type.
const EXAMPLES: &[(&str, &str)] = &[
    (
        r#"file|/etc/motd|{"content":"hello\n"}"#,
        r#"if file?("/etc/motd") then [rm("/etc/motd"); creat("/etc/motd","hello\n")] else creat("/etc/motd","hello\n")"#,
    ),
    (
        r#"package|ntp|{"ensure":"installed"}"#,
        r#"[if dir?("/etc") then id else mkdir("/etc"); if dir?("/.rehearsal") then id else mkdir("/.rehearsal"); if dir?("/.rehearsal/package") then id else mkdir("/.rehearsal/package"); if file?("/.rehearsal/package/ntp") then id else [if file?("/etc/ntp.conf") then [rm("/etc/ntp.conf"); creat("/etc/ntp.conf","package:ntp:/etc/ntp.conf")] else creat("/etc/ntp.conf","package:ntp:/etc/ntp.conf"); creat("/.rehearsal/package/ntp","")]]"#,
    ),
    (
        r#"package|ntp|{"ensure":"absent"}"#,
        r#"if file?("/.rehearsal/package/ntp") then [if file?("/etc/ntp.conf") then rm("/etc/ntp.conf") else id; rm("/.rehearsal/package/ntp")] else id"#,
    ),
    (
        r#"user|u|{"gid":"web","managehome":true}"#,
        r#"[if file?("/.rehearsal/group/web") then id else err; if dir?("/.rehearsal") then id else mkdir("/.rehearsal"); if dir?("/.rehearsal/user") then id else mkdir("/.rehearsal/user"); if file?("/.rehearsal/user/u") then id else [if dir?("/home") then id else mkdir("/home"); if dir?("/home/u") then id else mkdir("/home/u"); creat("/.rehearsal/user/u","")]]"#,
    ),
    (
        r#"service|ntp|{"ensure":"stopped"}|{"enable":false}"#,
        r#"[if file?("/.rehearsal/running/ntp") then rm("/.rehearsal/running/ntp") else id; if file?("/.rehearsal/enabled/ntp") then rm("/.rehearsal/enabled/ntp") else id]"#,
    ),
    (
        r#"cron|backup|{"command":"/bin/backup","hour":[1,"13"]}"#,
        r#"[id; if dir?("/.rehearsal") then id else mkdir("/.rehearsal"); if dir?("/.rehearsal/cron") then id else mkdir("/.rehearsal/cron"); if dir?("/.rehearsal/cron/root") then id else mkdir("/.rehearsal/cron/root"); if file?("/.rehearsal/cron/root/backup") then [rm("/.rehearsal/cron/root/backup"); creat("/.rehearsal/cron/root/backup","cron:/bin/backup\n*\n1,13\n*\n*\n*\n")] else creat("/.rehearsal/cron/root/backup","cron:/bin/backup\n*\n1,13\n*\n*\n*\n")]"#,
    ),
    (
        r#"group|web|{"ensure":"absent"}"#,
        r#"if file?("/.rehearsal/group/web") then rm("/.rehearsal/group/web") else id"#,
    ),
    (
        r#"service|ntp|{"ensure":"running"}"#,
        r#"if (((file?("/etc/systemd/system/ntp.service") or file?("/lib/systemd/system/ntp.service")) or file?("/usr/lib/systemd/system/ntp.service")) or file?("/etc/init.d/ntp")) then [if dir?("/.rehearsal") then id else mkdir("/.rehearsal"); if dir?("/.rehearsal/running") then id else mkdir("/.rehearsal/running"); if file?("/.rehearsal/running/ntp") then id else creat("/.rehearsal/running/ntp","")] else err"#,
    ),
    (
        r#"ssh_authorized_key|laptop|{"key":"AAAA","type":"ssh-rsa","user":"u"}"#,
        r#"[if file?("/.rehearsal/user/u") then id else err; if dir?("/.rehearsal") then id else mkdir("/.rehearsal"); if dir?("/.rehearsal/ssh") then id else mkdir("/.rehearsal/ssh"); if dir?("/.rehearsal/ssh/u") then id else mkdir("/.rehearsal/ssh/u"); if file?("/.rehearsal/ssh/u/laptop") then [rm("/.rehearsal/ssh/u/laptop"); creat("/.rehearsal/ssh/u/laptop","key:ssh-rsa AAAA")] else creat("/.rehearsal/ssh/u/laptop","key:ssh-rsa AAAA")]"#,
    ),
];

#[test]
fn examples_of_the_page(rt: HostRuntime) -> Result<(), Fail> {
    are_answered(rt.alloc(), NTP, EXAMPLES)
}
