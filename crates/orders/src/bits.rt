//! Rows of bits, one row and one bit in each row for each of n nodes: a Boolean matrix, of which a row is joined 64 bits at a
//! time.
ghost use Rattle.std.specs.Prelude.{◌≡◌, ◌==◌, ℕ, ◌+◌, ◌*◌, ◌^◌, ◌<◌, ◌≤◌, ◌&&◌, ◌||◌, false, length, IfOk};
ghost use Rattle.orders.specs.Relation.{old_number};
ghost use Rattle.orders.specs.Table.{width_of, cell};

use rh_base::NoMemory;
use std::alloc::Global;

/// How many words a row has.
pub fn width(n: u32) -> usize
    ensures { result ≡ width_of n }
{
    (n as usize + 63) / 64
}

/// A table with no bit set.
pub fn empty_table(alloc: Global, n: u32) -> Result<Vec<u64>, NoMemory>
    ensures size { IfOk result (λ words. length words.items ≡ n * width_of n) }
    ensures unset { IfOk result (λ words. (a b : ℕ) → cell (width_of n) words.items a b ≡ false) }
{
    let size = n as usize * width(n);
    Ok(vec![in alloc; 0; size]?)
}

/// Whether bit b of row a is set.
pub fn is_set(words: &[u64], n: u32, a: u32, b: u32) -> bool
    requires size { length words.now ≡ n * width_of n }
    requires row { a < n }
    requires column { b < n }
    ensures { result ≡ cell (width_of n) words.now a b }
{
    let word = words[a as usize * width(n) + b as usize / 64];
    (word >> (b % 64)) & 1 == 1
}

/// Sets bit b of row a.
pub fn insert(words: &mut [u64], n: u32, a: u32, b: u32)
    requires size { length words.old ≡ n * width_of n }
    requires row { a < n }
    requires column { b < n }
    ensures { (x y : ℕ) → x < n → y < n → cell (width_of n) words.new x y
        ≡ (((x == a) && (y == b)) || cell (width_of n) words.old x y) }
{
    let at = a as usize * width(n) + b as usize / 64;
    let word = words[at];
    words[at] = word | (1 << (b % 64));
}

/// Sets in row `to` what is set in row `from`.
pub fn insert_row(words: &mut [u64], n: u32, to: u32, from: u32)
    requires size { length words.old ≡ n * width_of n }
    requires to { to < n }
    requires from { from < n }
    ensures { (x y : ℕ) → x < n → y < n → cell (width_of n) words.new x y
        ≡ (((x == to) && cell (width_of n) words.old from y) || cell (width_of n) words.old x y) }
{
    let width = width(n);
    let target = to as usize * width;
    let source = from as usize * width;
    for k in 0..width {
        let word = words[source + k];
        let own = words[target + k];
        words[target + k] = own | word;
    }
}

/// The number that node k had before node r was taken out.
pub fn old_number_of(r: u32, k: u32) -> u32
    requires { k + 1 < 2 ^ 32 }
    ensures { result ≡ old_number r k }
{
    if k < r { k } else { k + 1 }
}

/// Sets in row `a` of a table of n nodes what a table of one more node has there, its node `r` left out.
pub fn copy_row(from: &[u64], r: u32, into: &mut [u64], n: u32, a: u32)
    requires fits { n + 1 < 2 ^ 32 }
    requires from { length from.now ≡ (n + 1) * width_of (n + 1) }
    requires into { length into.old ≡ n * width_of n }
    requires r { r ≤ n }
    requires a { a < n }
    ensures { (x y : ℕ) → x < n → y < n → cell (width_of n) into.new x y
        ≡ (((x == a) && cell (width_of (n + 1)) from.now (old_number r a) (old_number r y))
        || cell (width_of n) into.old x y) }
{
    let row = old_number_of(r, a);
    for b in 0..n {
        if is_set(from, n + 1, row, old_number_of(r, b)) {
            insert(into, n, a, b);
        }
    }
}
