//! Texts and refusals, as the rows have them.

ghost use Rattle.std.specs.Prelude.{◌≡◌, ◌++◌, IfOk, codes, string_bytes};
ghost use Rattle.std.specs.Fmt.{decimal};
ghost use Rattle.rh_base.specs.Refused.{IfRefused};

use rh_base::{Fault, NoMemory, Text};
use std::alloc::Global;
use std::test::Fail;

pub fn text(alloc: Global, piece: &str) -> Result<Text, NoMemory>
    ensures { IfOk result (λ text. text ≡ piece.now) }
{
    Ok(Text::from_string(String::from_str(alloc, piece)?))
}

/// A refusal, as `29 at 5: operand`.
pub fn refused(alloc: Global, fault: &Fault) -> Result<String, NoMemory>
    ensures { IfOk result (λ line. IfRefused fault.now
        (λ r. string_bytes line ≡ decimal r.number ++ (codes " at " ++ (decimal r.at ++ (codes ": " ++ r.name))))) }
{
    match fault {
        Fault::Refused(r) => {
            let number = r.number;
            let at = r.at;
            let name = r.name.as_str();
            Ok(format!(in alloc; "{number} at {at}: {name}")?)
        }
        Fault::Memory(m) => Err(*m),
    }
}

/// A number between two words.
pub fn numbered(alloc: Global, front: &str, number: u64, behind: &str) -> Result<String, NoMemory>
    ensures { IfOk result (λ line. string_bytes line ≡ front.now ++ (decimal number ++ behind.now)) }
{
    Ok(format!(in alloc; "{front}{number}{behind}")?)
}

/// A number in decimal.
pub fn number_text(alloc: Global, number: u64) -> Result<String, NoMemory>
    ensures { IfOk result (λ line. string_bytes line ≡ decimal number) }
{
    Ok(format!(in alloc; "{number}")?)
}

/// The parts one behind the other.
pub fn joined(alloc: Global, parts: &[&str]) -> Result<String, NoMemory> {
    let mut whole = String::new(alloc);
    for part in parts {
        whole.push_str(*part)?;
    }
    Ok(whole)
}

/// A failure that shows the row, what was got and what was wanted, where these two differ.
///
/// An `assert_eq!` that shows them takes the prover three times as long, in each driver that has one.
pub fn same(alloc: Global, row: &str, got: &str, want: &str) -> Result<(), Fail>
    ensures { IfOk result (λ _. got.now ≡ want.now) }
{
    if got == want {
        return Ok(());
    }
    let told = joined(alloc, &[row, ": got ", got, ", not ", want])?;
    Err(Fail::new(told))
}

/// The same of numbers.
pub fn same_number(alloc: Global, row: &str, got: u64, want: u64) -> Result<(), Fail>
    ensures { IfOk result (λ _. got ≡ want) }
{
    if got != want {
        let told = format!(in alloc; "{row}: got {got}, not {want}")?;
        return Err(Fail::new(told));
    }
    Ok(())
}

/// The same of texts, of a row of several words.
pub fn same_of(alloc: Global, words: &[&str], got: &str, want: &str) -> Result<(), Fail>
    ensures { IfOk result (λ _. got.now ≡ want.now) }
{
    let row = joined(alloc, words)?;
    same(alloc, row.as_str(), got, want)
}

/// The same of texts, of a row of a number and a word.
pub fn same_at(alloc: Global, number: u64, word: &str, got: &str, want: &str) -> Result<(), Fail>
    ensures { IfOk result (λ _. got.now ≡ want.now) }
{
    let row = numbered(alloc, "", number, " ")?;
    same_of(alloc, &[row.as_str(), word], got, want)
}
