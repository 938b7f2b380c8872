//! Reading parts of JSON texts.

ghost use Rattle.std.specs.Prelude.{◌≡◌, IfOk, option_map};
ghost use Rattle.serde_json.specs.View.{view};
ghost use Rattle.json_parts.specs.Versions.{has_version};

use rh_base::{NoMemory, Text};
use serde_json::Value as Json;
use std::alloc::Global;

/// A copy of a string.
pub fn text_of(alloc: Global, text: &str) -> Result<Text, NoMemory>
    ensures { IfOk result (λ t. t ≡ text.now) }
{
    Ok(Text::from_string(String::from_str(alloc, text)?))
}

/// Whether a version is told, and is the number 1.
pub fn has_version(json: Option<&Json>) -> bool
    ensures { result ≡ has_version (option_map (λ d. view d.now) json.entry) }
{
    match json {
        Some(json) => match json.as_u64() {
            Some(n) => n == 1,
            None => false,
        },
        None => false,
    }
}
