//! Texts, ASCII case aside.
//!
//! A text is sought in a text by a rolling hash (Karp and Rabin 1987): the hash of the window that is looked at follows from
//! the one before it, and bytes are compared only where it is the hash of what is sought. Two texts may have one hash, so the
//! bytes decide; the proof needs of the hash only that equal texts have equal ones.

ghost use Rattle.std.specs.Prelude.{◌≡◌, false};
ghost use Rattle.pp_value.specs.Texts.{lowered, same_text, less_text, begins, is_part};

use crate::hashes::{goes_on, hash_from, next_hash, power_of};

/// Whether two texts are equal, ASCII case aside.
#[tactic(auto, using(crate::proofs::TextLaws::same_is))]
pub fn same_text(a: &str, b: &str) -> bool
    ensures { result ≡ same_text a.now b.now }
{
    a.eq_ignore_ascii_case(b)
}

/// Whether the first is less, by bytes after lowering ASCII.
pub fn less_text(a: &[u8], b: &[u8]) -> bool
    ensures { result ≡ less_text a.now b.now }
{
    let mut front = a;
    let mut rest = b;
    while let Some((x, front_more)) = front.split_first() {
        let Some((y, rest_more)) = rest.split_first() else {
            return false;
        };
        let (low, other) = (x.to_ascii_lowercase(), y.to_ascii_lowercase());
        if low < other {
            return true;
        }
        if other < low {
            return false;
        }
        front = front_more;
        rest = rest_more;
    }
    !rest.is_empty()
}

/// Whether the second begins with the first, ASCII case aside.
fn begins(part: &[u8], text: &[u8]) -> bool
    ensures { result ≡ begins (lowered part.now) (lowered text.now) }
{
    let mut front = part;
    let mut rest = text;
    while let Some((x, front_more)) = front.split_first() {
        let Some((y, rest_more)) = rest.split_first() else {
            return false;
        };
        if x.to_ascii_lowercase() != y.to_ascii_lowercase() {
            return false;
        }
        front = front_more;
        rest = rest_more;
    }
    true
}

/// Whether the part stands in front of the text, ASCII case aside. Where the hashes tell that it doesn't, nothing is compared.
fn stands_first(part: &[u8], text: &[u8], alike: bool) -> bool
    requires { alike ≡ false → begins (lowered part.now) (lowered text.now) ≡ false }
    ensures { result ≡ begins (lowered part.now) (lowered text.now) }
{
    if !alike {
        return false;
    }
    begins(part, text)
}

/// Whether the first stands somewhere in the second, ASCII case aside. The time is that of reading both, as far as texts that
/// differ have hashes that differ.
pub fn is_part(part: &[u8], text: &[u8]) -> bool
    ensures { result ≡ is_part (lowered part.now) (lowered text.now) }
{
    let Some((window, after)) = text.split_at_checked(part.len()) else {
        return false;
    };
    let power = power_of(part);
    let sought = hash_from(0, part);
    let mut front: u64 = 0;
    let mut end = hash_from(0, window);
    let mut rest = text;
    let mut ahead = after;
    while let Some((next, beyond)) = ahead.split_first() {
        if stands_first(part, rest, goes_on(front, power, sought, end)) {
            return true;
        }
        let Some((first, more)) = rest.split_first() else {
            return false;
        };
        front = next_hash(front, *first);
        end = next_hash(end, *next);
        rest = more;
        ahead = beyond;
    }
    stands_first(part, rest, goes_on(front, power, sought, end))
}
