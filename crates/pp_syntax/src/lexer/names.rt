//! Names at the front of a text.
ghost use Rattle.std.specs.Prelude.{◌≡◌};
ghost use Rattle.std.specs.Option.{option_map};
ghost use Rattle.pp_syntax.specs.Scanning.{tail_from, segment, after_colons, next_segment, more_segments, joined, name, name_behind};

use crate::lexer::bytes::{Style, is_name};

/// What is left behind the longest tail of a segment.
pub fn tail(style: Style, text: &[u8]) -> &[u8]
    ensures { result.now ≡ tail_from style text.now text.now }
{
    let mut best = text;
    let mut rest = text;
    while let Some((b, more)) = rest.split_first() {
        rest = more;
        if is_name(*b) {
            best = more;
        } else {
            let dash = *b == b'-';
            let may = style.has_dashes();
            if !(dash && may) {
                break;
            }
        }
    }
    best
}

fn segment(style: Style, text: &[u8]) -> Option<&[u8]>
    ensures { option_map (λ r. r.now) result ≡ segment style text.now }
{
    let (b, more) = text.split_first()?;
    if style.begins(*b) {
        Some(tail(style, more))
    } else {
        None
    }
}

/// What is left behind a `::`.
pub fn after_colons(text: &[u8]) -> Option<&[u8]>
    ensures { option_map (λ r. r.now) result ≡ after_colons text.now }
{
    match text {
        [b, c, rest @ ..] if *b == b':' && *c == b':' => Some(rest),
        _ => None,
    }
}

#[tactic(auto, unfolding(crate::specs::Scanning::next_segment))]
fn next_segment(style: Style, text: &[u8]) -> Option<&[u8]>
    ensures { option_map (λ r. r.now) result ≡ next_segment style text.now }
{
    segment(style, after_colons(text)?)
}

/// What is left behind the segments that follow, each with `::` in front.
fn more_segments(style: Style, turns: usize, text: &[u8]) -> &[u8]
    ensures { result.now ≡ more_segments turns style text.now }
{
    let mut rest = text;
    for _turn in 0..turns {
        let Some(next) = next_segment(style, rest) else {
            return rest;
        };
        rest = next;
    }
    rest
}

/// What is left behind segments with `::` between them.
#[tactic(auto, unfolding(crate::specs::Scanning::joined))]
pub fn joined(style: Style, text: &[u8]) -> Option<&[u8]>
    ensures { option_map (λ r. r.now) result ≡ joined style text.now }
{
    let rest = segment(style, text)?;
    // Each segment takes a byte at least.
    Some(more_segments(style, rest.len(), rest))
}

/// The same, and there may be a `::` in front.
#[tactic(auto, unfolding(crate::specs::Scanning::name))]
pub fn name(style: Style, text: &[u8]) -> Option<&[u8]>
    ensures { option_map (λ r. r.now) result ≡ name style text.now }
{
    match after_colons(text) {
        Some(rest) => joined(style, rest),
        None => joined(style, text),
    }
}
