//! Rows of circles.
use super::drafts::are_answered;
use std::test::Fail;

#[test]
fn circles_are_refused(rt: HostRuntime) -> Result<(), Fail> {
    are_answered(
        rt.alloc(),
        &[
            (
                "plain file[/a]; plain file[/b]; arrow file[/a] file[/b]; arrow file[/b] file[/a]",
                "41 at 0: File[/a] -> File[/b] -> File[/a]",
            ),
            (
                "plain file[/a] require=file[/a]",
                "41 at 0: File[/a] -> File[/a]",
            ),
            // a class that contains itself
            (
                "class class[a]; contain class[a] class[a]",
                "41 at 0: start Class[a] -> start Class[a]",
            ),
            // a class that requires itself
            (
                "class class[a]; arrow class[a] class[a]",
                "41 at 0: start Class[a] -> end Class[a] -> start Class[a]",
            ),
            // a member before its container
            (
                "class class[a]; plain file[/f] in=class[a]; arrow file[/f] class[a]",
                "41 at 0: start Class[a] -> File[/f] -> start Class[a]",
            ),
            // and after it
            (
                "class class[a]; plain file[/f] in=class[a] require=class[a]",
                "41 at 0: end Class[a] -> File[/f] -> end Class[a]",
            ),
            // an automatic edge isn't dropped against a way round
            (
                "plain file[/a]; plain file[/a/b]; plain file[/c]; arrow file[/a/b] file[/c]; arrow file[/c] file[/a]",
                "41 at 0: File[/a] -> File[/a/b] -> File[/c] -> File[/a]",
            ),
        ],
    )
}
