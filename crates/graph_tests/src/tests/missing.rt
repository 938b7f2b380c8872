//! Rows of references to nothing.
use super::drafts::are_answered;
use std::test::Fail;

#[test]
fn references_to_nothing_are_refused(rt: HostRuntime) -> Result<(), Fail> {
    are_answered(
        rt.alloc(),
        &[
            (
                "class class[c]; plain file[/a] require=file[/z]",
                "40 at 1: File[/z]",
            ),
            // what is still virtual isn't there
            (
                "virtual file[/v]; plain file[/a] before=file[/v]",
                "40 at 1: File[/v]",
            ),
            // metaparameters before arrows, in order of resources
            (
                "arrow file[/x] file[/y]; plain file[/a]; plain file[/b] before=file[/z]",
                "40 at 2: File[/z]",
            ),
            (
                "plain file[/a] before=file[/y]; plain file[/b] before=file[/z]",
                "40 at 0: File[/y]",
            ),
            // those of a class too, and by attributes in their order
            (
                "class class[c] notify=file[/x] require=file[/y]",
                "40 at 0: File[/x]",
            ),
            // of an arrow first the side that comes before
            (
                "plain file[/a]; arrow file[/a],file[/x] file[/y]",
                "40 at 1: File[/x]",
            ),
            (
                "plain file[/a]; arrow file[/a] my::type[d],file[/y]",
                "40 at 1: My::Type[d]",
            ),
            // before a circle
            (
                "plain file[/a] require=file[/a]; arrow file[/a] file[/z]",
                "40 at 1: File[/z]",
            ),
        ],
    )
}
