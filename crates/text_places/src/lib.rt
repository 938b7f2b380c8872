//! Lines and columns of the bytes of a text.
#![tactic(auto)]

ghost use Rattle.std.specs.Prelude.{◌≡◌, ◌≤◌, ℕ, List, length};
ghost use Rattle.text_places.specs.Places.{IsPlace};

/// Where a byte stands: its line and its column, both from 1.
#[derive(Clone, Copy, Debug, PartialEq, Eq)]
pub struct Place {
    pub line: usize,
    pub column: usize,
}

/// The line and the column of the byte that stands behind so many; past the end they are those of the end.
pub fn place_of(text: &[u8], at: usize) -> Place
    ensures place { IsPlace text.now at result.line result.column }
{
    let ahead = &text[..at.min(text.len())];
    let mut line = 1;
    let mut column = 1;
    for b in ahead {
        if *b == b'\n' {
            line += 1;
            column = 1;
        } else {
            column += 1;
        }
    }
    Place { line, column }
}

/// A byte has one line and one column, and within a text no two bytes have both alike.
pub fn places()
    ensures one { (text : List ℕ) (at line column other more : ℕ) → IsPlace text at line column
        → IsPlace text at other more → (line ≡ other) × (column ≡ more) }
    ensures apart { (text : List ℕ) (a b line column : ℕ) → a ≤ length text → b ≤ length text
        → IsPlace text a line column → IsPlace text b line column → a ≡ b }
{}
