//! Groups and users.

use super::drafts::{NONE, are_answered};
use std::test::Fail;

/// A row for each state of a group.
const GROUPS: &[(&str, &str)] = &[
    (
        "group|g|{}",
        r#"[if dir?("/.rehearsal") then id else mkdir("/.rehearsal"); if dir?("/.rehearsal/group") then id else mkdir("/.rehearsal/group"); if file?("/.rehearsal/group/g") then id else creat("/.rehearsal/group/g","")]"#,
    ),
    (
        r#"group|g|{"ensure":"present","gid":"x","system":true}|{"allowdupe":1,"forcelocal":1}"#,
        r#"[if dir?("/.rehearsal") then id else mkdir("/.rehearsal"); if dir?("/.rehearsal/group") then id else mkdir("/.rehearsal/group"); if file?("/.rehearsal/group/g") then id else creat("/.rehearsal/group/g","")]"#,
    ),
    (
        r#"group|t|{"name":"g"}"#,
        r#"[if dir?("/.rehearsal") then id else mkdir("/.rehearsal"); if dir?("/.rehearsal/group") then id else mkdir("/.rehearsal/group"); if file?("/.rehearsal/group/g") then id else creat("/.rehearsal/group/g","")]"#,
    ),
    (
        r#"group|g|{"ensure":"absent"}"#,
        r#"if file?("/.rehearsal/group/g") then rm("/.rehearsal/group/g") else id"#,
    ),
    (r#"group|g|{"ensure":"purged"}"#, "55 at 7: Group[g]"),
    (r#"group|g|{"ensure":false}"#, "55 at 7: Group[g]"),
    (r#"group|g|{"home":"/h"}"#, "51 at 7: home"),
    ("group||{}", "52 at 7: Group[]"),
    (
        r#"group|a/b|{"ensure":"absent"}"#,
        r#"if file?("/.rehearsal/group/a%2Fb") then rm("/.rehearsal/group/a%2Fb") else id"#,
    ),
    (
        r#"group|.|{"ensure":"absent"}"#,
        r#"if file?("/.rehearsal/group/%2E") then rm("/.rehearsal/group/%2E") else id"#,
    ),
    (
        r#"group|...|{"ensure":"absent"}"#,
        r#"if file?("/.rehearsal/group/...") then rm("/.rehearsal/group/...") else id"#,
    ),
    (r#"group|g|{"name":5}"#, "51 at 7: name"),
    (r#"group|g|{"ensure":"held","odd":1}"#, "55 at 7: Group[g]"),
    (r#"group|g|{"name":""}|{"odd":1}"#, "51 at 7: odd"),
];

/// What a user needs and has.
const USERS: &[(&str, &str)] = &[
    (
        "user|u|{}",
        r#"[if dir?("/.rehearsal") then id else mkdir("/.rehearsal"); if dir?("/.rehearsal/user") then id else mkdir("/.rehearsal/user"); if file?("/.rehearsal/user/u") then id else creat("/.rehearsal/user/u","")]"#,
    ),
    (
        r#"user|u|{"ensure":"present"}"#,
        r#"[if dir?("/.rehearsal") then id else mkdir("/.rehearsal"); if dir?("/.rehearsal/user") then id else mkdir("/.rehearsal/user"); if file?("/.rehearsal/user/u") then id else creat("/.rehearsal/user/u","")]"#,
    ),
    (
        r#"user|u|{"gid":"g","groups":["12","g"],"managehome":"false"}|{"home":"h"}"#,
        r#"[if file?("/.rehearsal/group/g") then id else err; if file?("/.rehearsal/group/g") then id else err; if dir?("/.rehearsal") then id else mkdir("/.rehearsal"); if dir?("/.rehearsal/user") then id else mkdir("/.rehearsal/user"); if file?("/.rehearsal/user/u") then id else creat("/.rehearsal/user/u","")]"#,
    ),
    (
        r#"user|u|{"gid":5,"groups":"007","uid":5}|{"comment":1,"shell":1}|{"password":1,"system":1}|{"expiry":1,"membership":1}|{"allowdupe":1,"forcelocal":1}"#,
        r#"[if dir?("/.rehearsal") then id else mkdir("/.rehearsal"); if dir?("/.rehearsal/user") then id else mkdir("/.rehearsal/user"); if file?("/.rehearsal/user/u") then id else creat("/.rehearsal/user/u","")]"#,
    ),
    (
        r#"user|u|{"managehome":true}"#,
        r#"[if dir?("/.rehearsal") then id else mkdir("/.rehearsal"); if dir?("/.rehearsal/user") then id else mkdir("/.rehearsal/user"); if file?("/.rehearsal/user/u") then id else [if dir?("/home") then id else mkdir("/home"); if dir?("/home/u") then id else mkdir("/home/u"); creat("/.rehearsal/user/u","")]]"#,
    ),
    (
        r#"user|u|{"managehome":"true"}|{"home":"/srv"}"#,
        r#"[if dir?("/.rehearsal") then id else mkdir("/.rehearsal"); if dir?("/.rehearsal/user") then id else mkdir("/.rehearsal/user"); if file?("/.rehearsal/user/u") then id else [if dir?("/srv") then id else mkdir("/srv"); creat("/.rehearsal/user/u","")]]"#,
    ),
    (
        r#"user|t|{"name":"u"}|{"groups":[]}"#,
        r#"[if dir?("/.rehearsal") then id else mkdir("/.rehearsal"); if dir?("/.rehearsal/user") then id else mkdir("/.rehearsal/user"); if file?("/.rehearsal/user/u") then id else creat("/.rehearsal/user/u","")]"#,
    ),
    (
        r#"user|u|{"gid":"a/b"}|{"groups":"g"}"#,
        r#"[if file?("/.rehearsal/group/a%2Fb") then id else err; if file?("/.rehearsal/group/g") then id else err; if dir?("/.rehearsal") then id else mkdir("/.rehearsal"); if dir?("/.rehearsal/user") then id else mkdir("/.rehearsal/user"); if file?("/.rehearsal/user/u") then id else creat("/.rehearsal/user/u","")]"#,
    ),
    (
        r#"user|u|{"managehome":true}|{"home":"/"}"#,
        r#"[if dir?("/.rehearsal") then id else mkdir("/.rehearsal"); if dir?("/.rehearsal/user") then id else mkdir("/.rehearsal/user"); if file?("/.rehearsal/user/u") then id else [if dir?("/") then id else mkdir("/"); creat("/.rehearsal/user/u","")]]"#,
    ),
    (
        r#"user|u|{"managehome":true}|{"home":"/srv//h/"}"#,
        r#"[if dir?("/.rehearsal") then id else mkdir("/.rehearsal"); if dir?("/.rehearsal/user") then id else mkdir("/.rehearsal/user"); if file?("/.rehearsal/user/u") then id else [if dir?("/srv") then id else mkdir("/srv"); if dir?("/srv/h") then id else mkdir("/srv/h"); creat("/.rehearsal/user/u","")]]"#,
    ),
    (
        r#"user|a/b|{"managehome":true}|{"groups":"g"}"#,
        r#"[if file?("/.rehearsal/group/g") then id else err; if dir?("/.rehearsal") then id else mkdir("/.rehearsal"); if dir?("/.rehearsal/user") then id else mkdir("/.rehearsal/user"); if file?("/.rehearsal/user/a%2Fb") then id else [if dir?("/home") then id else mkdir("/home"); if dir?("/home/a%2Fb") then id else mkdir("/home/a%2Fb"); creat("/.rehearsal/user/a%2Fb","")]]"#,
    ),
];

/// Users that are absent, and each cause.
const USERS_REFUSED: &[(&str, &str)] = &[
    (
        r#"user|u|{"ensure":"absent"}"#,
        r#"if file?("/.rehearsal/user/u") then rm("/.rehearsal/user/u") else id"#,
    ),
    (
        r#"user|u|{"ensure":"absent","gid":"","home":"h","managehome":false}"#,
        r#"if file?("/.rehearsal/user/u") then rm("/.rehearsal/user/u") else id"#,
    ),
    (
        r#"user|u|{"ensure":"absent","managehome":true}"#,
        "51 at 7: managehome",
    ),
    (r#"user|u|{"managehome":"yes"}"#, "51 at 7: managehome"),
    (r#"user|u|{"groups":["a",5]}"#, "51 at 7: groups"),
    (r#"user|u|{"gid":[]}"#, "51 at 7: gid"),
    (r#"user|u|{"home":5}"#, "51 at 7: home"),
    (r#"user|u|{"gid":""}"#, "52 at 7: User[u]"),
    (r#"user|u|{"groups":["a",""]}"#, "52 at 7: User[u]"),
    (
        r#"user|u|{"managehome":true}|{"home":"h"}"#,
        "52 at 7: User[u]",
    ),
    (
        r#"user|u|{"managehome":true}|{"home":"/.rehearsal/h"}"#,
        "53 at 7: User[u]",
    ),
    (r#"user|u|{"ensure":"locked"}"#, "55 at 7: User[u]"),
    (
        r#"user|u|{"ensure":"absent","managehome":"true"}"#,
        "51 at 7: managehome",
    ),
    (
        r#"user|u|{"ensure":"absent","groups":[5]}"#,
        "51 at 7: groups",
    ),
    (r#"user|u|{"managehome":1}"#, "51 at 7: managehome"),
    (r#"user|u|{"groups":5}"#, "51 at 7: groups"),
    (r#"user|u|{"groups":[["a"]]}"#, "51 at 7: groups"),
    (r#"user|u|{"name":[]}"#, "51 at 7: name"),
    (r#"user|u|{"odd":1}"#, "51 at 7: odd"),
    (r#"user|u|{"home":5}|{"gid":[]}"#, "51 at 7: home"),
    ("user||{}", "52 at 7: User[]"),
    (
        r#"user|u|{"managehome":true}|{"home":"/.rehearsal/h"}|{"gid":""}"#,
        "52 at 7: User[u]",
    ),
    (r#"user|u|{"ensure":true}"#, "55 at 7: User[u]"),
    (r#"user|u|{"ensure":"purged","odd":1}"#, "55 at 7: User[u]"),
];

#[test]
fn programs_of_groups(rt: HostRuntime) -> Result<(), Fail> {
    are_answered(rt.alloc(), NONE, GROUPS)
}

#[test]
fn programs_of_users(rt: HostRuntime) -> Result<(), Fail> {
    are_answered(rt.alloc(), NONE, USERS)
}

#[test]
fn refusals_of_users(rt: HostRuntime) -> Result<(), Fail> {
    are_answered(rt.alloc(), NONE, USERS_REFUSED)
}
