//! Names without control characters.

ghost use Rattle.std.specs.Prelude.{◌≡◌, ◌++◌, ◌<◌, true, ℕ, List, string_bytes, encode_utf8, IfOk, OnOk};
ghost use Rattle.printed_names.specs.Printed.{is_control, hex_digit, escaped, printed, HasNoControl};

use rh_base::{NoMemory, Text};
use std::alloc::Global;

fn is_control(c: char) -> bool
    ensures { result ≡ is_control c }
{
    let code = c as u32;
    let low = code < 32;
    let last = code == 127;
    low || last
}

fn hex_digit(n: u8) -> char
    requires { n < 16 }
    ensures { result ≡ hex_digit n }
{
    if n < 10 {
        char::from(b'0' + n)
    } else {
        char::from(b'W' + n)
    }
}

/// Appends a control character as it is printed.
#[tactic(auto, using(crate::proofs::Lines::digit_byte))]
fn push_escaped(c: char, into: &mut String) -> Result<(), NoMemory>
    requires { is_control c ≡ true }
    ensures { OnOk result (string_bytes into.new ≡ string_bytes into.old ++ escaped c) }
{
    let code = c as u32 as u8;
    into.push_str("\\x")?;
    into.push(hex_digit(code / 16))?;
    into.push(hex_digit(code % 16))?;
    Ok(())
}

/// Appends a character as it is printed.
#[tactic(auto, using(crate::proofs::Lines::control_char, crate::proofs::Lines::other_char))]
fn push_char(c: char, into: &mut String) -> Result<(), NoMemory>
    ensures { OnOk result (string_bytes into.new ≡ string_bytes into.old ++ printed (encode_utf8 c)) }
{
    if is_control(c) {
        return push_escaped(c, into);
    }
    into.push(c)?;
    Ok(())
}

fn printed_string(alloc: Global, name: &str) -> Result<String, NoMemory>
    ensures { IfOk result (λ s. string_bytes s ≡ printed name.now) }
{
    let mut shown = String::new(alloc);
    for c in name.chars() {
        push_char(c, &mut shown)?;
    }
    Ok(shown)
}

/// A name as it is printed: each control character as `\x` and two hexadecimal digits, so that it stays on its line.
pub fn printed(alloc: Global, name: &str) -> Result<Text, NoMemory>
    ensures value { IfOk result (λ text. text ≡ printed name.now) }
    ensures line { IfOk result HasNoControl }
    ensures same { HasNoControl name.now → IfOk result (λ text. text ≡ name.now) }
{
    one_line();
    Ok(Text::from_string(printed_string(alloc, name)?))
}

/// What is printed of a name has no control character, and a name without any is printed as it is.
pub fn one_line()
    ensures none { (name : List ℕ) → HasNoControl (printed name) }
    ensures same { (name : List ℕ) → HasNoControl name → printed name ≡ name }
{}
