//! Rows of resources, defaults, conditions and functions.
use super::answers::{are_compiled, are_compiled_with};
use std::test::Fail;

#[test]
fn resources_have_their_attributes_and_defaults(rt: HostRuntime) -> Result<(), Fail> {
    are_compiled(
        rt.alloc(),
        &[
            ("", ""),
            (
                "file { '/etc/motd': content => 'hi' }",
                "File[/etc/motd] content=hi; ",
            ),
            (
                "File { mode => '0644' } file { '/a': content => 'x' }",
                "File[/a] content=x mode=0644; ",
            ),
            (
                "file { '/a': content => 'x', mode => '1' } File { mode => '0644' }",
                "File[/a] content=x mode=1; ",
            ),
            (
                "file { ['/a', '/b']: content => 'x' }",
                "File[/a] content=x; File[/b] content=x; ",
            ),
            ("file { '/a': content => undef }", "File[/a]; "),
            ("file { []: mode => '1' }", ""),
            (
                "File { mode => undef } File { mode => '1' } file { '/a': }",
                "File[/a] mode=1; ",
            ),
            (
                "file { '/a': mode => undef } File { mode => '1' }",
                "File[/a] mode=1; ",
            ),
            (
                "$x = 'y' file { '/a': content => \"${x}z\" }",
                "File[/a] content=yz; ",
            ),
            (
                "file { '/a': } -> file { '/b': }",
                "File[/a]; File[/b]; File[/a] -> File[/b] ",
            ),
            (
                "file { '/a': } file { '/b': } File['/a'] <- File['/b']",
                "File[/a]; File[/b]; File[/b] -> File[/a] ",
            ),
        ],
    )
}

#[test]
fn conditions_choose_one_block(rt: HostRuntime) -> Result<(), Fail> {
    are_compiled(
        rt.alloc(),
        &[
            (
                "if true { file { '/a': } } else { file { '/b': } }",
                "File[/a]; ",
            ),
            (
                "if false { file { '/a': } } elsif true { file { '/c': } } else { file { '/b': } }",
                "File[/c]; ",
            ),
            (
                "if false { file { '/a': } } else { file { '/b': } }",
                "File[/b]; ",
            ),
            ("if false { file { '/a': } }", ""),
            (
                "unless true { file { '/a': } } else { file { '/b': } }",
                "File[/b]; ",
            ),
            ("unless false { file { '/a': } }", "File[/a]; "),
            (
                "case 2 { 1: { file { '/a': } } 1, 2: { file { '/b': } } default: { file { '/c': } } }",
                "File[/b]; ",
            ),
            (
                "case 3 { 1: { file { '/a': } } default: { file { '/c': } } 2: { file { '/b': } } }",
                "File[/c]; ",
            ),
        ],
    )
}

#[test]
fn facts_are_variables(rt: HostRuntime) -> Result<(), Fail> {
    are_compiled_with(
        rt.alloc(),
        "{\"os\":{\"family\":\"Debian\"},\"load\":0.5}",
        &[
            (
                "case $facts['os']['family'] { 'debian': { file { '/d': content => 'x' } } default: { file { '/e': content => 'x' } } }",
                "File[/d] content=x; ",
            ),
            ("$x = $load + 1", "29 at 5: operand"),
        ],
    )
}
