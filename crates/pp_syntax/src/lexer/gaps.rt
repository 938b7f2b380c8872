//! Blanks and comments.
ghost use Rattle.std.specs.Prelude.{◌≡◌};
ghost use Rattle.std.specs.Option.{option_map};
ghost use Rattle.pp_syntax.specs.Scanning.{after_close, after_block, gap_of};

use crate::lexer::bytes::{Class, after_all, is_blank};

/// What is left behind the first `*/`.
fn after_close(text: &[u8]) -> Option<&[u8]>
    ensures { option_map (λ r. r.now) result ≡ after_close text.now }
{
    let mut rest = text;
    loop {
        match rest {
            [] => return None,
            [b'*', b'/', more @ ..] => return Some(more),
            [_, more @ ..] => rest = more,
        }
    }
}

fn after_block(text: &[u8]) -> Option<&[u8]>
    ensures { option_map (λ r. r.now) result ≡ after_block text.now }
{
    match text {
        [b'*', more @ ..] => after_close(more),
        _ => None,
    }
}

/// What is left behind a blank or a comment.
#[tactic(auto, unfolding(crate::specs::Scanning::gap_of))]
pub fn gap_of(text: &[u8]) -> Option<&[u8]>
    ensures { option_map (λ r. r.now) result ≡ gap_of text.now }
{
    let (b, more) = text.split_first()?;
    if is_blank(*b) {
        return Some(more);
    }
    match *b {
        b'#' => Some(after_all(Class::Line, more)),
        b'/' => after_block(more),
        _ => None,
    }
}
