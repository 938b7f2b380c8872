//! Hashes of texts, ASCII case aside.

ghost use Rattle.std.specs.Prelude.{◌≡◌, ◌<◌};
ghost use Rattle.std.specs.Char.{to_ascii_lowercase};
ghost use Rattle.pp_value.specs.Texts.{lowered};
ghost use Rattle.pp_value.specs.Hashes.{modulus, next_hash, hash_from, power_from, goes_on};

/// The largest prime below `2 ^ 32`.
const MODULUS: u64 = 4_294_967_291;

const BASE: u64 = 2_654_435_761;

/// The hash of a text that goes on by a byte.
#[tactic(auto, using(crate::proofs::HashLaws::below))]
pub fn next_hash(hash: u64, byte: u8) -> u64
    requires { hash < modulus }
    ensures hash { result ≡ next_hash hash (to_ascii_lowercase byte) }
    ensures reduced { result < modulus }
{
    (hash * BASE + u64::from(byte.to_ascii_lowercase())) % MODULUS
}

/// The hash of a text that goes on by these bytes.
pub fn hash_from(hash: u64, text: &[u8]) -> u64
    requires { hash < modulus }
    ensures hash { result ≡ hash_from hash (lowered text.now) }
    ensures reduced { result < modulus }
{
    let mut end = hash;
    let mut rest = text;
    while let Some((byte, more)) = rest.split_first() {
        end = next_hash(end, *byte);
        rest = more;
    }
    end
}

/// What a hash counts for after these bytes.
#[tactic(auto, using(crate::proofs::HashLaws::below))]
pub fn power_of(text: &[u8]) -> u64
    ensures power { result ≡ power_from 1 (lowered text.now) }
    ensures reduced { result < modulus }
{
    let mut power: u64 = 1;
    let mut rest = text;
    while let Some((_, more)) = rest.split_first() {
        power = power * BASE % MODULUS;
        rest = more;
    }
    power
}

/// Whether a text of the first hash goes on as one of the third does, as far as the hashes tell.
pub fn goes_on(front: u64, power: u64, sought: u64, end: u64) -> bool
    requires front { front < modulus }
    requires power { power < modulus }
    requires sought { sought < modulus }
    ensures { result ≡ goes_on front power sought end }
{
    (front * power + sought) % MODULUS == end
}
