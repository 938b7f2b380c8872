//! Rows of defined types, virtual resources, collectors and realizations.
use super::answers::are_compiled;
use std::test::Fail;

#[test]
fn defined_resources_run(rt: HostRuntime) -> Result<(), Fail> {
    are_compiled(
        rt.alloc(),
        &[
            (
                "define d($p) { file { $title: content => $p } } d { '/x': p => 'q' } d { '/y': p => 'r' }",
                "D[/x] p=q; D[/y] p=r; File[/x] content=q; File[/y] content=r; 0<2 1<3 ",
            ),
            (
                "define d() { @file { '/w': content => 'x' } } @d { 'a': } D <| |> File <| |>",
                "D[a]; File[/w] content=x; 0<1 ",
            ),
            ("define d() { file { '/w': } } @d { 'a': }", "@D[a]; "),
            ("define d($p) { file { $name: } } d { 'a': }", "25 at 37: p"),
        ],
    )
}

#[test]
fn collectors_make_real(rt: HostRuntime) -> Result<(), Fail> {
    are_compiled(
        rt.alloc(),
        &[
            ("@file { '/v': content => 'x' }", "@File[/v] content=x; "),
            (
                "@file { '/v': content => 'x' } File <| content == 'x' |>",
                "File[/v] content=x; ",
            ),
            ("File <| title == '/v' |> @file { '/v': }", "File[/v]; "),
            (
                "@file { '/v': content => 'x' } File <| content != 'x' |>",
                "@File[/v] content=x; ",
            ),
            ("@file { '/v': } realize(File['/v'])", "File[/v]; "),
            ("realize(File['/v']) @file { '/v': }", "File[/v]; "),
            ("realize(File['/v'])", "40 at 0: File[/v]"),
            (
                "@file { '/v': } file { '/a': } -> File <| |>",
                "File[/v]; File[/a]; File[/a] -> File[/v] File[/a] ",
            ),
        ],
    )
}
