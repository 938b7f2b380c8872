//! Whole numbers in the words.

ghost use Rattle.std.specs.Prelude.{◌≡◌, ◌≤◌, ◌<◌, ◌^◌, ℕ, Some};
ghost use Rattle.command_line.specs.Words.{digits_within, number_in};

/// The number of decimal digits, if it is at most this.
fn digits(word: &[u8], most: u64) -> Option<u64>
    requires { most < 2 ^ 32 }
    ensures { result ≡ digits_within most 0 word.now }
{
    let mut n: u64 = 0;
    for b in word {
        if *b < b'0' || *b > b'9' {
            return None;
        }
        n = 10 * n + u64::from(*b - b'0');
        if n > most {
            return None;
        }
    }
    Some(n)
}

/// The number that is spelled in decimal digits without a sign and without a leading zero, if it is at most this.
fn spelled(word: &str, most: u64) -> Option<u64>
    requires { most < 2 ^ 32 }
    ensures { result ≡ number_in most word.now }
{
    let bytes = word.as_bytes();
    match bytes {
        [] => None,
        [b'0', ..] => None,
        _ => digits(bytes, most),
    }
}

/// A number from 1 to the greatest one, in decimal digits without a sign and without a leading zero.
pub fn number(word: &str, most: u64) -> Option<u64>
    requires { most < 2 ^ 32 }
    ensures number { result ≡ number_in most word.now }
    ensures range { (n : ℕ) → result ≡ Some n → (1 ≤ n) × (n ≤ most) }
{
    spelled(word, most)
}
