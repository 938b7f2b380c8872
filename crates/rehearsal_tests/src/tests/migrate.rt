//! Listings that are written in their newest form.

use super::verify::all_told;
use std::test::Fail;

#[test]
fn listings_in_version_two(rt: HostRuntime) -> Result<(), Fail> {
    all_told(
        rt.alloc(),
        &["--ask", "migrate", "site.pp"],
        0,
        &[
            (
                r#"{"version":1,"packages":{}}"#,
                "{\"packages\":{},\"version\":2}\n",
            ),
            (
                r#"{"version":1,"packages":{"ntp":{"files":["/etc/ntp.conf"],"folders":[]}}}"#,
                "{\"packages\":{\"ntp\":{\"files\":[[\"/etc/ntp.conf\",null]],\"folders\":[]}},\"version\":2}\n",
            ),
            (
                r#"{"version":1,"packages":{"ntp":{"files":["/etc//ntp.conf"],"folders":["/etc/ntp/"]}}}"#,
                "{\"packages\":{\"ntp\":{\"files\":[[\"/etc/ntp.conf\",null]],\"folders\":[\"/etc/ntp\"]}},\"version\":2}\n",
            ),
            (
                r#"{"version":2,"packages":{"b":{"files":[["/b","d"]],"folders":[]},"a":{"folders":[],"files":[]}}}"#,
                "{\"packages\":{\"a\":{\"files\":[],\"folders\":[]},\"b\":{\"files\":[[\"/b\",\"d\"]],\"folders\":[]}},\"version\":2}\n",
            ),
            (
                "{\"packages\":{\"a\":{\"files\":[],\"folders\":[]}},\"version\":2}\n",
                "{\"packages\":{\"a\":{\"files\":[],\"folders\":[]}},\"version\":2}\n",
            ),
        ],
    )
}

#[test]
fn texts_that_are_no_listings(rt: HostRuntime) -> Result<(), Fail> {
    all_told(
        rt.alloc(),
        &["site.pp", "--ask=migrate"],
        4,
        &[
            ("", "refused 61 at 0: packages\n"),
            (
                r#"{"version":3,"packages":{}}"#,
                "refused 61 at 0: packages\n",
            ),
            (
                r#"{"version":1,"packages":{"a":{"files":["/"],"folders":[]}}}"#,
                "refused 61 at 0: packages\n",
            ),
            (
                r#"{"version":1,"packages":{"a":{"files":["/a"],"folders":["/a/"]}}}"#,
                "refused 61 at 0: packages\n",
            ),
            (
                r#"{"version":2,"packages":{"a":{"files":["/a"],"folders":[]}}}"#,
                "refused 61 at 0: packages\n",
            ),
        ],
    )
}
