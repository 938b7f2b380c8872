//! Compiled catalogs that are refused.

use super::answers::are_related;
use std::test::Fail;

/// Resources, and the refusal.
const REFUSED: &[(&str, &str)] = &[
    // opaque values of modelled attributes, and relations that are no references
    (
        r#"{"type":"File","title":"/a","kind":"compilable_type","file":"/m/a.pp","line":7,"parameters":{"content":1.5}}"#,
        "29 at 0: File[/a] content (/m/a.pp:7)",
    ),
    (
        r#"{"type":"File","title":"/a","kind":"compilable_type","file":"/m/a.pp","parameters":{"owner":["a",{"__ptype":"Regexp"}]}}"#,
        "29 at 0: File[/a] owner",
    ),
    (
        r#"{"type":"Exec","title":"e","kind":"compilable_type","line":3,"parameters":{"before":"Exec"}}"#,
        "29 at 0: Exec[e] before",
    ),
    (
        r#"{"type":"Class","title":"A","kind":"unknown","parameters":{"x":1.5,"require":{"a":1}}}"#,
        "29 at 0: Class[a] require",
    ),
    (
        r#"{"type":"Concat_file","title":"c","kind":"compilable_type","parameters":{"path":"/c","notify":[true]}}"#,
        "29 at 0: File[/c] notify",
    ),
    // references that find nothing, as they are written
    (
        r#"{"type":"Exec","title":"e","kind":"compilable_type","file":"/m/a.pp","line":7,"parameters":{"require":["EXEC[e]","FILE[/x]"]}}"#,
        "40 at 0: FILE[/x] (/m/a.pp:7)",
    ),
    (
        r#"{"type":"Exec","title":"e","kind":"compilable_type","parameters":{"before":"Class[::]"}}"#,
        "40 at 0: Class[::]",
    ),
    // of one resource all of the one kind come first, in the order of names; resources come in the text's order
    (
        r#"{"type":"File","title":"/a","kind":"compilable_type","parameters":{"before":"File[/x]","require":5,"owner":1.5}}"#,
        "29 at 0: File[/a] owner",
    ),
    (
        r#"{"type":"File","title":"/a","kind":"compilable_type","parameters":{"subscribe":"File[/x]","notify":"File[/y]","require":"File[/z]"}}"#,
        "40 at 0: File[/y]",
    ),
    (
        r#"{"type":"File","title":"/a","kind":"compilable_type","parameters":{"before":"File[/x]"}},{"type":"File","title":"/b","kind":"compilable_type","parameters":{"owner":1.5}}"#,
        "40 at 0: File[/x]",
    ),
    // what isn't asked
    (
        r#"{"type":"Class","title":"a","kind":"unknown","parameters":{"content":1.5}},{"type":"Exec","title":"e","kind":"compilable_type","parameters":{"timeout":1.5,"ensure":1.5}},{"type":"File","title":"/a","kind":"compilable_type","parameters":{"tag":1.5,"mode":1.5,"before":null}}"#,
        "",
    ),
];

#[test]
fn catalogs_that_are_refused(rt: HostRuntime) -> Result<(), Fail> {
    are_related(rt.alloc(), REFUSED)
}
