//! Texts that grow with a number, and one of a proof.

use rh_base::NoMemory;
use std::alloc::Global;

/// Assignments to `$a0`, `$a1` and so on: a text, and then so many that are each twice the one before.
pub fn doubled(alloc: Global, first: &str, times: u32) -> Result<String, NoMemory> {
    let mut manifest = format!(in alloc; "$a0 = '{first}'\n")?;
    for i in 0..times {
        let line = format!(in alloc; "$a{} = \"${{a{i}}}${{a{i}}}\"\n", i + 1)?;
        manifest.push_str(line.as_str())?;
    }
    Ok(manifest)
}

/// Assignments to `$a1`, `$a2` and so on of so many lists: one with nothing in it, and then each of the one before.
pub fn boxes(alloc: Global, count: usize) -> Result<String, NoMemory> {
    let mut manifest = String::from_str(alloc, "$a1 = []\n")?;
    for i in 1..count {
        let line = format!(in alloc; "$a{} = [$a{i}]\n", i + 1)?;
        manifest.push_str(line.as_str())?;
    }
    Ok(manifest)
}

/// So many titles, with a comma between.
fn listed(alloc: Global, count: u32) -> Result<String, NoMemory> {
    let mut list = String::from_str(alloc, "'/0'")?;
    for i in 1..count {
        let title = format!(in alloc; ", '/{i}'")?;
        list.push_str(title.as_str())?;
    }
    Ok(list)
}

/// So many titles, in a list.
pub fn titles(alloc: Global, count: u32) -> Result<String, NoMemory> {
    let inner = listed(alloc, count)?;
    Ok(format!(in alloc; "[{inner}]")?)
}

/// A front, a piece that is repeated, a middle, and a piece that is repeated behind it.
pub type Pieces = (&'static str, &'static str, &'static str, &'static str);

/// The pieces, with each of the two that are repeated so many times.
pub fn nested(alloc: Global, pieces: &Pieces, count: usize) -> Result<String, NoMemory> {
    let (front, open, middle, close) = *pieces;
    let opens = open.repeat(alloc, count)?;
    let closes = close.repeat(alloc, count)?;
    Ok(format!(in alloc; "{front}{opens}{middle}{closes}")?)
}

/// The proof that three pigeons have no two holes.
pub const PIGEONS: &str = "proofs 1
p cnf 6 9
1 2 0
3 4 0
5 6 0
-1 -3 0
-1 -5 0
-3 -5 0
-2 -4 0
-2 -6 0
-4 -6 0
log 2
-1 0 9 3 -6 2 -4 4 3 5 5 0
0 6 3 -5 2 -3 8 6 7 4 1 -2 10 1 0
";
