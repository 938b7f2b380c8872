//! Names in refusals.

ghost use Rattle.std.specs.Prelude.{◌≡◌, ◌++◌, IfOk};
ghost use Rattle.compiled_relations.specs.Finding.{place_told, name_and_line};

use compiled_text::CompiledResource;
use json_parts::text_of;
use rh_base::{NoMemory, Text};
use std::alloc::Global;

/// Where the manifest declares a resource, if that is known.
fn place_told(alloc: Global, r: &CompiledResource) -> Result<Text, NoMemory>
    ensures { IfOk result (λ text. text ≡ place_told r.now.file r.now.line) }
{
    let Some(file) = &r.file else {
        return Ok(Text::new(alloc));
    };
    let Some(line) = r.line else {
        return Ok(Text::new(alloc));
    };
    Ok(Text::from_string(format!(in alloc; " ({}:{line})", file.as_str())?))
}

/// A name that a refusal tells of a resource, and behind it the line of the manifest which declares that.
pub fn name_and_line(alloc: Global, r: &CompiledResource, name: &str) -> Result<Text, NoMemory>
    ensures { IfOk result (λ text. text ≡ name_and_line r.now name.now) }
{
    let mut text = text_of(alloc, name)?;
    text.push(place_told(alloc, r)?.as_str())?;
    Ok(text)
}
