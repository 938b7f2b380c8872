//! What comes before links.

use super::answers::are_related;
use std::test::Fail;

/// Resources, and what comes before which link.
const LINKS: &[(&str, &str)] = &[
    (
        r#"{"type":"File","title":"/etc/nginx/e","kind":"compilable_type","parameters":{"ensure":"link","target":"/etc/nginx/a"}},{"type":"File","title":"/etc/nginx/a","kind":"compilable_type","parameters":{"content":"x"}}"#,
        "File[/etc/nginx/a] -> File[/etc/nginx/e]\n",
    ),
    // a short link
    (
        r#"{"type":"File","title":"/e","kind":"compilable_type","parameters":{"ensure":"/a"}},{"type":"File","title":"/a","kind":"compilable_type"}"#,
        "File[/a] -> File[/e]\n",
    ),
    // the target is the path as it is written, and not another text of it
    (
        r#"{"type":"File","title":"/e","kind":"compilable_type","parameters":{"target":"/a/"}},{"type":"File","title":"/a","kind":"compilable_type"}"#,
        "",
    ),
    (
        r#"{"type":"File","title":"/e","kind":"compilable_type","parameters":{"target":"/a"}},{"type":"File","title":"//a/","kind":"compilable_type"}"#,
        "File[//a/] -> File[/e]\n",
    ),
    // several files of one path, links of a path that is refused, and a file with no path
    (
        concat!(
            r#"{"type":"File","title":"e","kind":"compilable_type","parameters":{"target":"/a"}},"#,
            r#"{"type":"File","title":"x","kind":"compilable_type","parameters":{"path":"/a"}},"#,
            r#"{"type":"File","title":"/a","kind":"compilable_type","parameters":{"path":7}},"#,
            r#"{"type":"File","title":"/a/","kind":"compilable_type"}"#,
        ),
        "File[x] -> File[e]\nFile[/a/] -> File[e]\n",
    ),
    // itself, and what is under it
    (
        r#"{"type":"File","title":"/e","kind":"compilable_type","parameters":{"target":"/e"}},{"type":"File","title":"/f","kind":"compilable_type","parameters":{"target":"/f/g"}},{"type":"File","title":"/f/g","kind":"compilable_type"},{"type":"File","title":"/fg","kind":"compilable_type"}"#,
        "",
    ),
    (
        r#"{"type":"File","title":"/f","kind":"compilable_type","parameters":{"target":"/fg"}},{"type":"File","title":"/fg","kind":"compilable_type"}"#,
        "File[/fg] -> File[/f]\n",
    ),
    // a relation stands between them
    (
        r#"{"type":"File","title":"/e","kind":"compilable_type","parameters":{"target":"/a","require":"File[/a]"}},{"type":"File","title":"/a","kind":"compilable_type"}"#,
        "",
    ),
    (
        r#"{"type":"File","title":"/e","kind":"compilable_type","parameters":{"target":"/a","notify":["File[/b]",["File[/a/]"]]}},{"type":"File","title":"/a","kind":"compilable_type"},{"type":"File","title":"/b","kind":"compilable_type"}"#,
        "",
    ),
    (
        r#"{"type":"File","title":"/e","kind":"compilable_type","parameters":{"target":"/a"}},{"type":"File","title":"/a","kind":"compilable_type","parameters":{"subscribe":"File[/e]"}}"#,
        "",
    ),
    (
        r#"{"type":"File","title":"/e","kind":"compilable_type","parameters":{"target":"/a","require":"Exec[x]"}},{"type":"File","title":"/a","kind":"compilable_type","parameters":{"before":"Exec[x]"}},{"type":"Exec","title":"x","kind":"compilable_type"}"#,
        "File[/a] -> File[/e]\n",
    ),
    // of links that lead to each other the first one is last
    (
        r#"{"type":"File","title":"/a","kind":"compilable_type","parameters":{"target":"/b"}},{"type":"File","title":"/b","kind":"compilable_type","parameters":{"target":"/a"}}"#,
        "File[/b] -> File[/a]\n",
    ),
    // files of other types and containers, and one that is put together of fragments
    (
        concat!(
            r#"{"type":"File","title":"/e","kind":"unknown","parameters":{"target":"/a"}},"#,
            r#"{"type":"File","title":"/a","kind":"compilable_type"},"#,
            r#"{"type":"Tidy","title":"/t","kind":"compilable_type","parameters":{"target":"/a"}},"#,
            r#"{"type":"File","title":"/l","kind":"compilable_type","parameters":{"target":"/c"}},"#,
            r#"{"type":"Concat_file","title":"c","kind":"compilable_type","parameters":{"path":"/c/","target":"/a"}}"#,
        ),
        "File[/c/] -> File[/l]\n",
    ),
    // under the folder of the program's own marks
    (
        r#"{"type":"File","title":"/e","kind":"compilable_type","parameters":{"target":"/.rehearsal/a"}},{"type":"File","title":"/.rehearsal/a","kind":"compilable_type"}"#,
        "File[/.rehearsal/a] -> File[/e]\n",
    ),
];

#[test]
fn links_come_after_their_targets(rt: HostRuntime) -> Result<(), Fail> {
    are_related(rt.alloc(), LINKS)
}
