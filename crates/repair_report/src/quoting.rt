//! References as they are written in Puppet.

ghost use Rattle.std.specs.Prelude.{◌≡◌, ◌++◌, string_bytes, encode_utf8_all, IfOk, OnOk};
ghost use Rattle.repair_report.specs.Lines.{escaped, escaped_char, quoted, quoted_ref};

use pp_value::{Ref, shown_ref};
use rh_base::{NoMemory, Text};
use std::alloc::Global;

/// Appends a character of a title. A quote and a backslash stand behind a backslash.
fn push_escaped(c: char, into: &mut String) -> Result<(), NoMemory>
    ensures { OnOk result (string_bytes into.new ≡ string_bytes into.old ++ encode_utf8_all (escaped_char c)) }
{
    if c == '\'' || c == '\\' {
        into.push('\\')?;
    }
    Ok(into.push(c)?)
}

/// The characters of a title.
fn escaped(alloc: Global, title: &str) -> Result<String, NoMemory>
    ensures { IfOk result (λ text. string_bytes text ≡ escaped title.now) }
{
    let mut text = String::new(alloc);
    for c in title.chars() {
        push_escaped(c, &mut text)?;
    }
    Ok(text)
}

/// A title in single quotes.
fn quoted(alloc: Global, title: &str) -> Result<Text, NoMemory>
    ensures { IfOk result (λ text. text ≡ quoted title.now) }
{
    let inside = escaped(alloc, title)?;
    let mut text = Text::from_string(String::new(alloc));
    text.push("'")?;
    text.push(inside.as_str())?;
    text.push("'")?;
    Ok(text)
}

/// A reference, as `File['/a']`.
pub fn quoted_ref(alloc: Global, r: &Ref) -> Result<Text, NoMemory>
    ensures { IfOk result (λ text. text ≡ quoted_ref r.now) }
{
    let title = quoted(alloc, r.title.as_str())?;
    let kind = r.kind.copy(alloc)?;
    shown_ref(alloc, &Ref { kind, title })
}
