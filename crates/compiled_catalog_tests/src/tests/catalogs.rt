//! Catalogs of small hosts.

use super::answers::{Part, is_answered};
use host_limits::Limits;
use std::alloc::Global;
use std::test::Fail;

/// Resources and edges, and what stands where: the sort of each resource, its reference, the place of its container, and what is in it.
const PLACED: &[(&str, &str, &str)] = &[
    ("", "", ""),
    (
        concat!(
            r#"{"type":"Stage","title":"main","kind":"compilable_type"},"#,
            r#"{"type":"Class","title":"Main","kind":"unknown"},"#,
            r#"{"type":"File","title":"/etc/motd","kind":"compilable_type","parameters":{"content":"hi"}},"#,
            r#"{"type":"My::Type","title":"x","kind":"defined_type"},"#,
            r#"{"type":"Exec","title":"e","kind":"compilable_type"},"#,
            r#"{"type":"Concat_file","title":"f","kind":"compilable_type","parameters":{"path":"/f"}}"#,
        ),
        concat!(
            r#"{"source":"Stage[main]","target":"Class[main]"},"#,
            r#"{"source":"Class[main]","target":"File[/etc/motd]"},"#,
            r#"{"source":"Class[main]","target":"My::Type[x]"},"#,
            r#"{"source":"My::Type[x]","target":"Concat_file[f]"},"#,
            r#"{"source":"My::Type[x]","target":"Class[Main]"}"#,
        ),
        "d Stage[main] 1\nc Class[main] 2 3\np File[/etc/motd] in 1\nd My::Type[x] in 1 5 1\np Exec[e]\np File[/f] in 3\n",
    ),
];

/// The resources of these texts are placed so.
fn is_placed(alloc: Global, resources: &str, edges: &str, want: &str) -> Result<(), Fail> {
    is_answered(alloc, Part::Resources, Limits::Host, resources, edges, want)
}

/// The resources of each row's texts are placed as what stands beside them.
fn are_placed(alloc: Global, rows: &[(&str, &str, &str)]) -> Result<(), Fail> {
    for (resources, edges, want) in rows {
        is_placed(alloc, *resources, *edges, *want)?;
    }
    Ok(())
}

#[test]
fn resources_in_containers(rt: HostRuntime) -> Result<(), Fail> {
    are_placed(rt.alloc(), PLACED)
}

/// Resources, and the text of their catalog.
const TEXTS: &[(&str, &str)] = &[
    (
        r#"{"type":"Class","title":"main","kind":"unknown","parameters":{"a":1}},{"type":"File","title":"/etc/motd","kind":"compilable_type","parameters":{"path":"/etc/motd","content":"hi","backup":null,"tag":"x"}}"#,
        "File[/etc/motd]\n  content => \"hi\"\n  path => \"/etc/motd\"\n",
    ),
    // relations have what they find, in lists without undef
    (
        concat!(
            r#"{"type":"Package","title":"ntp","kind":"compilable_type","parameters":{"alias":"time"}},"#,
            r#"{"type":"File","title":"/etc/ntp.conf","kind":"compilable_type","parameters":{"require":"Package[time]","before":["service[ntp]",null]}},"#,
            r#"{"type":"Service","title":"ntp","kind":"compilable_type","parameters":{"ensure":"running","subscribe":"File[/etc//ntp.conf]","notify":[]}}"#,
        ),
        "Package[ntp]\nFile[/etc/ntp.conf]\n  before => [\"Service[ntp]\"]\n  require => \"Package[ntp]\"\nService[ntp]\n  ensure => \"running\"\n  notify => []\n  subscribe => \"File[/etc/ntp.conf]\"\n",
    ),
    // a file that is put together of fragments, and what refers to it
    (
        concat!(
            r#"{"type":"Concat_file","title":"f","kind":"compilable_type","parameters":{"path":"/etc/f","alias":"g"}},"#,
            r#"{"type":"Concat_fragment","title":"a","kind":"compilable_type","parameters":{"target":"f","content":"1","order":"01"}},"#,
            r#"{"type":"Exec","title":"e","kind":"compilable_type","parameters":{"require":["Concat_file[f]","Concat_file[g]","File[/etc/f/]"]}}"#,
        ),
        "File[/etc/f]\n  content => \"concat:[null,null][\\\"01\\\",\\\"a\\\",\\\"1\\\"]\"\nConcat_fragment[a]\n  content => \"1\"\n  order => \"01\"\n  target => \"f\"\nExec[e]\n  require => [\"File[/etc/f]\",\"File[/etc/f]\",\"File[/etc/f]\"]\n",
    ),
];

/// The catalog of these resources has this text.
fn has_text(alloc: Global, resources: &str, want: &str) -> Result<(), Fail> {
    is_answered(alloc, Part::Text, Limits::Host, resources, "", want)
}

/// The catalog of each row's resources has the text beside them.
fn have_texts(alloc: Global, rows: &[(&str, &str)]) -> Result<(), Fail> {
    for (resources, want) in rows {
        has_text(alloc, *resources, *want)?;
    }
    Ok(())
}

#[test]
fn texts_of_catalogs(rt: HostRuntime) -> Result<(), Fail> {
    have_texts(rt.alloc(), TEXTS)
}
