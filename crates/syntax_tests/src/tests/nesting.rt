//! Rows of the depth at which a token is refused.
use super::answers::refusal_of;
use std::alloc::Global;
use std::test::Fail;
use test_rows::{Pieces, nested, same};

fn refusal_is(alloc: Global, text: &str, want: &str) -> Result<(), Fail> {
    let refusal = refusal_of(alloc, text)?;
    same(alloc, text, refusal.as_str(), want)
}

fn is_refused(alloc: Global, pieces: &Pieces, count: usize, want: &str) -> Result<(), Fail> {
    let text = nested(alloc, pieces, count)?;
    refusal_is(alloc, text.as_str(), want)
}

/// Each row: pieces, how often two of them are repeated, and the refusal, or `none`.
fn are_refused(alloc: Global, rows: &[(Pieces, usize, &str)]) -> Result<(), Fail> {
    for (pieces, count, want) in rows {
        is_refused(alloc, pieces, *count, *want)?;
    }
    Ok(())
}

#[test]
fn brackets_nest_up_to_the_limit(rt: HostRuntime) -> Result<(), Fail> {
    are_refused(
        rt.alloc(),
        &[
            (("$x = ", "[", "", "]"), 64, "none"),
            (("$x = ", "[", "", "]"), 65, "13 at 69: nesting"),
            (("$x = ", "[", "", ""), 64, "12 at 69: syntax"),
            (("$x = ", "(", "1", ")"), 64, "none"),
            (("$x = ", "(", "1", ")"), 65, "13 at 69: nesting"),
            (("$x = ", "(", "", ""), 63, "12 at 68: syntax"),
        ],
    )
}

#[test]
fn operators_nest_up_to_the_limit(rt: HostRuntime) -> Result<(), Fail> {
    are_refused(
        rt.alloc(),
        &[
            (("$x = ", "!", "$y", ""), 64, "none"),
            (("$x = ", "!", "$y", ""), 65, "13 at 69: nesting"),
            (("$x = [", "!", "$y]", ""), 63, "none"),
            (("$x = [", "!", "$y]", ""), 64, "13 at 69: nesting"),
            (("$x = $y", "[0]", "", ""), 64, "none"),
            (("$x = $y", "[0]", "", ""), 65, "13 at 199: nesting"),
            (("$x = $y", "?{a=>1}", "", ""), 65, "none"),
            (("$x = $y", "?{a=>1}", "", ""), 66, "13 at 462: nesting"),
        ],
    )
}

#[test]
fn holes_and_blocks_nest_up_to_the_limit(rt: HostRuntime) -> Result<(), Fail> {
    are_refused(
        rt.alloc(),
        &[
            (("$x = ", "\"${", "1", "}\""), 64, "none"),
            (("$x = ", "\"${", "1", "}\""), 65, "13 at 198: nesting"),
            (("", "if true { ", "", "}"), 64, "none"),
            (("", "if true { ", "", "}"), 65, "13 at 648: nesting"),
            (("$x = [", "[$y[0],-1],", "]", ""), 99, "none"),
            (("User <| ", "(", "a==1", ")"), 63, "12 at 138: syntax"),
            (("User <| ", "(", "a==1", ")"), 64, "13 at 71: nesting"),
        ],
    )
}
