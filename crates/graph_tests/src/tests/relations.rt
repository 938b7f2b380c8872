//! Rows of relations: metaparameters, arrows, containers.
use super::drafts::are_answered;
use std::test::Fail;

#[test]
fn metaparameters_and_arrows(rt: HostRuntime) -> Result<(), Fail> {
    are_answered(
        rt.alloc(),
        &[
            ("", ""),
            (
                "plain file[/a]; plain file[/b] before=file[/a]",
                "File[/a]\nFile[/b]\nFile[/b] -> File[/a]\n",
            ),
            (
                "plain file[/a] notify=file[/b]; plain file[/b]",
                "File[/a]\nFile[/b]\nFile[/a] -> File[/b]\n",
            ),
            (
                "plain file[/a] require=file[/b]; plain file[/b]",
                "File[/a]\nFile[/b]\nFile[/b] -> File[/a]\n",
            ),
            (
                "plain file[/a] subscribe=file[/b],file[/c]; plain file[/b]; plain file[/c]",
                "File[/a]\nFile[/b]\nFile[/c]\nFile[/b] -> File[/a]\nFile[/c] -> File[/a]\n",
            ),
            // a virtual resource isn't there, and what it says counts for nothing
            (
                "plain file[/a]; virtual file[/v] before=file[/a],file[/z]; plain file[/b]",
                "File[/a]\nFile[/b]\n",
            ),
            // `<-` and `<~` are told with their sides exchanged
            (
                "plain file[/a]; plain file[/b]; arrow file[/b] file[/a]",
                "File[/a]\nFile[/b]\nFile[/b] -> File[/a]\n",
            ),
            // each of one side before each of the other, and paths join
            (
                "plain file[/a]; plain file[/b]; plain file[/c]; plain file[/d]; arrow file[/a],file[/b] file[/c]; arrow file[/c] file[/d]",
                "File[/a]\nFile[/b]\nFile[/c]\nFile[/d]\nFile[/a] -> File[/c]\nFile[/a] -> File[/d]\nFile[/b] -> File[/c]\nFile[/b] -> File[/d]\nFile[/c] -> File[/d]\n",
            ),
            // a side on which a collector matched nothing
            (
                "plain file[/a]; plain file[/b]; arrow file[/a] -; arrow - file[/b]",
                "File[/a]\nFile[/b]\n",
            ),
            // through an empty class
            (
                "class class[empty]; plain file[/a]; plain file[/b]; arrow file[/a] class[empty]; arrow class[empty] file[/b]",
                "File[/a]\nFile[/b]\nFile[/a] -> File[/b]\n",
            ),
            // a relation from a defined resource, and to a class
            (
                "defined my::type[d]; plain file[/d] in=my::type[d]; class class[c]; plain file[/c] in=class[c]; plain file[/e]; arrow my::type[d] class[c]",
                "File[/d]\nFile[/c]\nFile[/e]\nFile[/d] -> File[/c]\n",
            ),
            // the same by a metaparameter of the defined resource
            (
                "defined my::type[d] before=class[c]; plain file[/d] in=my::type[d]; class class[c]; plain file[/c] in=class[c]",
                "File[/d]\nFile[/c]\nFile[/d] -> File[/c]\n",
            ),
        ],
    )
}

#[test]
fn containers(rt: HostRuntime) -> Result<(), Fail> {
    are_answered(
        rt.alloc(),
        &[
            // a class that isn't contained may run at any time
            (
                "class class[outer]; class class[inner]; plain file[/i] in=class[inner]; plain file[/x] require=class[outer]",
                "File[/i]\nFile[/x]\n",
            ),
            // one that is contained ends before its container
            (
                "class class[outer]; class class[inner]; plain file[/i] in=class[inner]; plain file[/x] require=class[outer]; contain class[outer] class[inner]",
                "File[/i]\nFile[/x]\nFile[/i] -> File[/x]\n",
            ),
            // and begins after it began
            (
                "class class[outer] require=file[/x]; class class[inner]; plain file[/i] in=class[inner]; plain file[/x]; contain class[outer] class[inner]",
                "File[/i]\nFile[/x]\nFile[/x] -> File[/i]\n",
            ),
            // a defined resource in a class, and a plain one in it
            (
                "class class[c]; defined my::type[d] in=class[c]; plain file[/d] in=my::type[d]; plain file[/x] before=class[c]; plain file[/y] require=class[c]",
                "File[/d]\nFile[/x]\nFile[/y]\nFile[/d] -> File[/y]\nFile[/x] -> File[/d]\nFile[/x] -> File[/y]\n",
            ),
        ],
    )
}
