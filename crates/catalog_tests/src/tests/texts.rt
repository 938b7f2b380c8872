//! Rows of the text of a catalog.
use super::answers::text_of;
use std::alloc::Global;
use std::test::Fail;
use test_rows::same;

fn is_printed(alloc: Global, text: &str, want: &str) -> Result<(), Fail> {
    let printed = text_of(alloc, text)?;
    same(alloc, text, printed.as_str(), want)
}

/// Each row: a manifest, and the text of its catalog, or the refusal.
fn are_printed(alloc: Global, rows: &[(&str, &str)]) -> Result<(), Fail> {
    for (text, want) in rows {
        is_printed(alloc, *text, *want)?;
    }
    Ok(())
}

#[test]
fn real_resources_are_printed_with_their_attributes(rt: HostRuntime) -> Result<(), Fail> {
    are_printed(
        rt.alloc(),
        &[
            (
                "File { mode => '0644' } file { '/a': content => 'x' }",
                "File[/a]\n  content => \"x\"\n  mode => \"0644\"\n",
            ),
            (
                "define d($p) { file { $title: content => $p } } d { '/x': p => 'q' } d { '/y': p => 'r' }",
                "File[/x]\n  content => \"q\"\nFile[/y]\n  content => \"r\"\n",
            ),
            ("include z", "22 at 0: z"),
            ("@file { '/v': content => 'x' } class c { } include c", ""),
            (
                "file { '/a': content => { 'b' => 1, 'a' => [true, undef, 'q\"'] } }",
                "File[/a]\n  content => {\"a\":[true,null,\"q\\\"\"],\"b\":1}\n",
            ),
            (
                "file { '/a': require => File['/b'] } file { '/b': }",
                "File[/a]\n  require => \"File[/b]\"\nFile[/b]\n",
            ),
        ],
    )
}
