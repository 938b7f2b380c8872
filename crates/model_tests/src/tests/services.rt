//! Services.

use super::drafts::{NONE, are_answered};
use std::test::Fail;

/// The part of `ensure`, and that of `enable`.
const PROGRAMS: &[(&str, &str)] = &[
    (
        r#"service|s|{"ensure":"running"}"#,
        r#"if (((file?("/etc/systemd/system/s.service") or file?("/lib/systemd/system/s.service")) or file?("/usr/lib/systemd/system/s.service")) or file?("/etc/init.d/s")) then [if dir?("/.rehearsal") then id else mkdir("/.rehearsal"); if dir?("/.rehearsal/running") then id else mkdir("/.rehearsal/running"); if file?("/.rehearsal/running/s") then id else creat("/.rehearsal/running/s","")] else err"#,
    ),
    (
        r#"service|s|{"ensure":true,"hasstatus":false}"#,
        r#"if (((file?("/etc/systemd/system/s.service") or file?("/lib/systemd/system/s.service")) or file?("/usr/lib/systemd/system/s.service")) or file?("/etc/init.d/s")) then [if dir?("/.rehearsal") then id else mkdir("/.rehearsal"); if dir?("/.rehearsal/running") then id else mkdir("/.rehearsal/running"); if file?("/.rehearsal/running/s") then id else creat("/.rehearsal/running/s","")] else err"#,
    ),
    (
        r#"service|s|{"enable":true}"#,
        r#"if (((file?("/etc/systemd/system/s.service") or file?("/lib/systemd/system/s.service")) or file?("/usr/lib/systemd/system/s.service")) or file?("/etc/init.d/s")) then [if dir?("/.rehearsal") then id else mkdir("/.rehearsal"); if dir?("/.rehearsal/enabled") then id else mkdir("/.rehearsal/enabled"); if file?("/.rehearsal/enabled/s") then id else creat("/.rehearsal/enabled/s","")] else err"#,
    ),
    (
        r#"service|s|{"enable":"true"}"#,
        r#"if (((file?("/etc/systemd/system/s.service") or file?("/lib/systemd/system/s.service")) or file?("/usr/lib/systemd/system/s.service")) or file?("/etc/init.d/s")) then [if dir?("/.rehearsal") then id else mkdir("/.rehearsal"); if dir?("/.rehearsal/enabled") then id else mkdir("/.rehearsal/enabled"); if file?("/.rehearsal/enabled/s") then id else creat("/.rehearsal/enabled/s","")] else err"#,
    ),
    (
        r#"service|s.service|{"enable":true}"#,
        r#"if (((file?("/etc/systemd/system/s.service") or file?("/lib/systemd/system/s.service")) or file?("/usr/lib/systemd/system/s.service")) or file?("/etc/init.d/s")) then [if dir?("/.rehearsal") then id else mkdir("/.rehearsal"); if dir?("/.rehearsal/enabled") then id else mkdir("/.rehearsal/enabled"); if file?("/.rehearsal/enabled/s.service") then id else creat("/.rehearsal/enabled/s.service","")] else err"#,
    ),
    ("service|s|{}", "id"),
    (
        r#"service|s|{"hasrestart":1,"start":1,"stop":1}|{"restart":1,"status":1}|{"pattern":1,"timeout":1}"#,
        "id",
    ),
    (
        r#"service|s|{"ensure":"stopped"}"#,
        r#"if file?("/.rehearsal/running/s") then rm("/.rehearsal/running/s") else id"#,
    ),
    (
        r#"service|s|{"ensure":false}"#,
        r#"if file?("/.rehearsal/running/s") then rm("/.rehearsal/running/s") else id"#,
    ),
    (
        r#"service|s|{"enable":"false"}"#,
        r#"if file?("/.rehearsal/enabled/s") then rm("/.rehearsal/enabled/s") else id"#,
    ),
    (
        r#"service|s|{"ensure":"stopped"}|{"enable":false}"#,
        r#"[if file?("/.rehearsal/running/s") then rm("/.rehearsal/running/s") else id; if file?("/.rehearsal/enabled/s") then rm("/.rehearsal/enabled/s") else id]"#,
    ),
    (
        r#"service|s|{"ensure":"running"}|{"enable":false}"#,
        r#"[if (((file?("/etc/systemd/system/s.service") or file?("/lib/systemd/system/s.service")) or file?("/usr/lib/systemd/system/s.service")) or file?("/etc/init.d/s")) then [if dir?("/.rehearsal") then id else mkdir("/.rehearsal"); if dir?("/.rehearsal/running") then id else mkdir("/.rehearsal/running"); if file?("/.rehearsal/running/s") then id else creat("/.rehearsal/running/s","")] else err; if file?("/.rehearsal/enabled/s") then rm("/.rehearsal/enabled/s") else id]"#,
    ),
    (
        r#"service|t|{"name":"s"}|{"ensure":"stopped"}"#,
        r#"if file?("/.rehearsal/running/s") then rm("/.rehearsal/running/s") else id"#,
    ),
    (
        r#"service|a/b|{"ensure":"running"}"#,
        r#"if (((file?("/etc/systemd/system/a%2Fb.service") or file?("/lib/systemd/system/a%2Fb.service")) or file?("/usr/lib/systemd/system/a%2Fb.service")) or file?("/etc/init.d/a%2Fb")) then [if dir?("/.rehearsal") then id else mkdir("/.rehearsal"); if dir?("/.rehearsal/running") then id else mkdir("/.rehearsal/running"); if file?("/.rehearsal/running/a%2Fb") then id else creat("/.rehearsal/running/a%2Fb","")] else err"#,
    ),
    (
        r#"service|s|{"enable":true}|{"ensure":true}"#,
        r#"[if (((file?("/etc/systemd/system/s.service") or file?("/lib/systemd/system/s.service")) or file?("/usr/lib/systemd/system/s.service")) or file?("/etc/init.d/s")) then [if dir?("/.rehearsal") then id else mkdir("/.rehearsal"); if dir?("/.rehearsal/running") then id else mkdir("/.rehearsal/running"); if file?("/.rehearsal/running/s") then id else creat("/.rehearsal/running/s","")] else err; if (((file?("/etc/systemd/system/s.service") or file?("/lib/systemd/system/s.service")) or file?("/usr/lib/systemd/system/s.service")) or file?("/etc/init.d/s")) then [if dir?("/.rehearsal") then id else mkdir("/.rehearsal"); if dir?("/.rehearsal/enabled") then id else mkdir("/.rehearsal/enabled"); if file?("/.rehearsal/enabled/s") then id else creat("/.rehearsal/enabled/s","")] else err]"#,
    ),
];

/// Each cause.
const REFUSED: &[(&str, &str)] = &[
    ("service|.service|{}", "52 at 7: Service[.service]"),
    (r#"service|s|{"ensure":"held"}"#, "55 at 7: Service[s]"),
    (r#"service|s|{"ensure":"true"}"#, "55 at 7: Service[s]"),
    (r#"service|s|{"enable":"mask"}"#, "55 at 7: Service[s]"),
    (r#"service|s|{"enable":1,"odd":1}"#, "55 at 7: Service[s]"),
    (r#"service|s|{"odd":1}"#, "51 at 7: odd"),
    (r#"service|s|{"name":1}"#, "51 at 7: name"),
    ("service||{}", "52 at 7: Service[]"),
    (
        r#"service|s|{"name":".service"}|{"ensure":"stopped"}"#,
        "52 at 7: Service[s]",
    ),
    (r#"service|s|{"ensure":1}"#, "55 at 7: Service[s]"),
    (r#"service|s|{"ensure":"present"}"#, "55 at 7: Service[s]"),
    (r#"service|s|{"enable":"manual"}"#, "55 at 7: Service[s]"),
];

#[test]
fn programs_of_services(rt: HostRuntime) -> Result<(), Fail> {
    are_answered(rt.alloc(), NONE, PROGRAMS)
}

#[test]
fn refusals_of_services(rt: HostRuntime) -> Result<(), Fail> {
    are_answered(rt.alloc(), NONE, REFUSED)
}
