//! Types that do nothing, and resources that aren't to be changed.

use super::answers::is_answered;
use std::alloc::Global;
use std::test::Fail;
use test_rows::joined;

/// Types and parameters, and the program or the refusal of such a resource of the title `t`.
const TYPES: &[(&str, &str, &str)] = &[
    ("Notify", r#""message":"m""#, "id\n"),
    ("Anchor", "", "id\n"),
    ("Filebucket", r#""path":false"#, "id\n"),
    ("Schedule", "", "id\n"),
    ("Whit", "", "id\n"),
    ("Concat_fragment", r#""target":"/nowhere""#, "id\n"),
    ("Resources", "", "id\n"),
    ("Resources", r#""purge":false"#, "id\n"),
    ("Resources", r#""purge":"true""#, "23 at 0: Resources[t]"),
    ("Exec", r#""command":"/bin/c""#, "50 at 0: Exec[t]"),
    ("File_line", "", "23 at 0: File_line[t]"),
    ("Group", r#""ensure":"maybe""#, "55 at 0: Group[t]"),
    // `noop`
    ("Exec", r#""noop":true"#, "id\n"),
    ("File_line", r#""noop":"true""#, "id\n"),
    ("Exec", r#""noop":false"#, "50 at 0: Exec[t]"),
    ("Exec", r#""noop":"x""#, "50 at 0: Exec[t]"),
    ("File", r#""noop":true,"ensure":"maybe""#, "id\n"),
    (
        "Group",
        r#""noop":"false","ensure":"absent""#,
        "if file?(\"/.rehearsal/group/t\") then rm(\"/.rehearsal/group/t\") else id\n",
    ),
];

/// A resource of this type and with these parameters.
fn resource(alloc: Global, kind: &str, parameters: &str) -> Result<String, Fail> {
    Ok(joined(
        alloc,
        &[
            r#"{"type":""#,
            kind,
            r#"","title":"t","kind":"compilable_type","parameters":{"#,
            parameters,
            r#"}}"#,
        ],
    )?)
}

/// A resource of this type and these parameters has this program or refusal.
fn has_program(alloc: Global, kind: &str, parameters: &str, want: &str) -> Result<(), Fail> {
    let resources = resource(alloc, kind, parameters)?;
    is_answered(alloc, resources.as_str(), "", want)
}

/// A resource of each row's type and parameters has the program or the refusal beside them.
fn have_programs(alloc: Global, rows: &[(&str, &str, &str)]) -> Result<(), Fail> {
    for (kind, parameters, want) in rows {
        has_program(alloc, *kind, *parameters, *want)?;
    }
    Ok(())
}

#[test]
fn types_have_programs(rt: HostRuntime) -> Result<(), Fail> {
    have_programs(rt.alloc(), TYPES)
}
