//! Types without a model, the lengths of names and paths, and modelled names that stand twice.

use super::drafts::{NONE, answer, is_answered, is_both, text_of};
use rh_base::NoMemory;
use std::alloc::Global;
use std::test::Fail;
use test_rows::{joined, same};

/// Each row: two drafts, and what is answered to them.
fn are_both(alloc: Global, rows: &[(&str, &str, &str)]) -> Result<(), Fail> {
    for (first, second, want) in rows {
        is_both(alloc, *first, *second, *want)?;
    }
    Ok(())
}

#[test]
fn exec_has_no_model(rt: HostRuntime) -> Result<(), Fail> {
    is_answered(
        rt.alloc(),
        NONE,
        r#"exec|ls|{"ensure":"odd","odd":1}"#,
        "50 at 7: Exec[ls]",
    )
}

#[test]
fn names_stand_once(rt: HostRuntime) -> Result<(), Fail> {
    are_both(
        rt.alloc(),
        &[
            ("file|/a|{}", "file|/a/|{}", "56 at 8: File[/a/]"),
            ("file|/a|{}", r#"file|x|{"path":"//a"}"#, "56 at 8: File[x]"),
            ("group|a|{}", r#"group|b|{"name":"a"}"#, "56 at 8: Group[b]"),
            ("group|a|{}", "user|a|{}", "2 programs"),
            ("service|a|{}", "service|a.service|{}", "2 programs"),
            (
                r#"cron|a|{"command":"c"}"#,
                r#"cron|b|{"command":"c","name":"a","user":"root"}"#,
                "56 at 8: Cron[b]",
            ),
            (
                r#"cron|a|{"command":"c"}"#,
                r#"cron|b|{"command":"c","name":"a","user":"u"}"#,
                "2 programs",
            ),
            (
                r#"ssh_authorized_key|a|{"user":"u"}"#,
                r#"ssh_authorized_key|b|{"name":"a","user":"u"}"#,
                "56 at 8: Ssh_authorized_key[b]",
            ),
            ("file|/a|{}", r#"file|/a/|{"odd":1}"#, "51 at 8: odd"),
        ],
    )
}

#[test]
fn names_stand_once_in_other_types(rt: HostRuntime) -> Result<(), Fail> {
    are_both(
        rt.alloc(),
        &[
            (
                "package|a|{}",
                r#"package|b|{"name":"a"}"#,
                "56 at 8: Package[b]",
            ),
            (
                r#"package|a|{"ensure":"absent"}"#,
                r#"package|b|{"name":"a"}"#,
                "56 at 8: Package[b]",
            ),
            ("user|a|{}", r#"user|b|{"name":"a"}"#, "56 at 8: User[b]"),
            (
                "service|a|{}",
                r#"service|b|{"name":"a"}"#,
                "56 at 8: Service[b]",
            ),
            (
                r#"ssh_authorized_key|a|{"user":"u"}"#,
                r#"ssh_authorized_key|b|{"name":"a","user":"v"}"#,
                "2 programs",
            ),
            ("file|/a|{}", "file|/b|{}", "2 programs"),
            (
                "file|/a|{}",
                r#"file|/a/|{"ensure":"odd"}"#,
                "55 at 8: File[/a/]",
            ),
            ("file|a|{}", "file|/.rehearsal|{}", "52 at 7: File[a]"),
            ("exec|a|{}", "file|b|{}", "50 at 7: Exec[a]"),
        ],
    )
}

/// A draft whose title is this part so many times.
fn titled(alloc: Global, kind: &str, part: &str, count: usize) -> Result<String, NoMemory> {
    let title = part.repeat(alloc, count)?;
    joined(alloc, &[kind, "|", title.as_str(), "|{}"])
}

fn word(is_accepted: bool) -> &'static str {
    if is_accepted { "accepted" } else { "refused" }
}

/// The title of a draft is accepted or not.
fn draft_is_accepted(alloc: Global, draft: &str, want: bool) -> Result<(), Fail> {
    let found = answer(alloc, NONE, draft)?;
    let got = !text_of(found.as_slice()).starts_with("52 at 7: ");
    same(alloc, draft, word(got), word(want))
}

fn is_accepted(
    alloc: Global,
    kind: &str,
    part: &str,
    count: usize,
    want: bool,
) -> Result<(), Fail> {
    let draft = titled(alloc, kind, part, count)?;
    draft_is_accepted(alloc, draft.as_str(), want)
}

/// Each row: a type, a part of a title, how many of them make the title, and whether it is accepted.
fn are_accepted(alloc: Global, rows: &[(&str, &str, usize, bool)]) -> Result<(), Fail> {
    for (kind, part, count, want) in rows {
        is_accepted(alloc, *kind, *part, *count, *want)?;
    }
    Ok(())
}

#[test]
fn names_and_paths_are_short(rt: HostRuntime) -> Result<(), Fail> {
    are_accepted(
        rt.alloc(),
        &[
            ("group", "a", 255, true),
            ("group", "a", 256, false),
            // the limit is the name's, not that of its segment
            ("group", "/", 255, true),
            ("file", "/a", 32, true),
            ("file", "/a", 33, false),
            // 1,024 bytes, and one more
            ("file", "/2345678901234567890123456789012", 32, true),
            (
                "file",
                "/2345678901234567890123456789012345678901",
                25,
                false,
            ),
            // as the text is read, with slashes that don't count
            ("file", "/", 1_024, true),
            ("file", "/", 1_025, false),
        ],
    )
}

/// A job that isn't to be there, whose name and user are so many slashes.
fn job_of_slashes(alloc: Global, count: usize) -> Result<String, NoMemory> {
    let name = "/".repeat(alloc, count)?;
    joined(
        alloc,
        &[
            "cron|",
            name.as_str(),
            r#"|{"ensure":"absent","user":""#,
            name.as_str(),
            r#""}"#,
        ],
    )
}

fn path_of_slashes(alloc: Global, count: usize) -> Result<String, NoMemory> {
    let segment = "%2F".repeat(alloc, count)?;
    let name = segment.as_str();
    joined(alloc, &["/.rehearsal/cron/", name, "/", name])
}

/// The program that removes the mark of such a job: each slash of a name is three bytes of its segment.
fn mark_of_slashes_removed(alloc: Global, count: usize) -> Result<String, NoMemory> {
    let path = path_of_slashes(alloc, count)?;
    joined(
        alloc,
        &[
            r#"if file?(""#,
            path.as_str(),
            r#"") then rm(""#,
            path.as_str(),
            r#"") else id"#,
        ],
    )
}

fn is_removed(alloc: Global, job: &str, count: usize) -> Result<(), Fail> {
    let want = mark_of_slashes_removed(alloc, count)?;
    is_answered(alloc, NONE, job, want.as_str())
}

/// A path below the marks has no limit.
#[test]
fn marks_are_as_long_as_names_make_them(rt: HostRuntime) -> Result<(), Fail> {
    let job = job_of_slashes(rt.alloc(), 255)?;
    is_removed(rt.alloc(), job.as_str(), 255)
}
