//! Reading the text of assumptions.

ghost use Rattle.std.specs.Prelude.{◌≡◌, IfOk, IfErr, List, option_map, codes};
ghost use Rattle.std.specs.List.{AllByRecursion};
ghost use Rattle.serde_json.specs.View.{view, members_view};
ghost use Rattle.rh_base.specs.Reading.{Gives};
ghost use Rattle.rh_base.specs.Refused.{IfRefused, IsRefusal};
ghost use Rattle.assumed_text.specs.declared.assumed.Assumption.{Assumption as Row};
ghost use Rattle.assumed_text.specs.Form.{SaysAssumptions, IsAssumptionsText};
ghost use Rattle.json_parts.specs.Forms.{IfForm};
ghost use Rattle.assumed_text.specs.Reading.{assumption_of, rows_of, rows_in, rows_with, all_rows, IsProperAssumption};

use crate::assumed::{Assumption, Assumptions};
use crate::behavior::assumed_of;
use crate::laws::assumption_texts;
use crate::subjects::subject_of;
use compiled_text::compiled_texts;
use json_parts::has_version;
use pkg_listing::package_paths;
use rh_base::{Fault, Misread, NoMemory, Seq};
use serde_json::{Category, Map, Value as Json};
use std::alloc::Global;

/// The assumption of a member.
fn assumption_of(alloc: Global, key: &str, json: &Json) -> Result<Assumption, Misread>
    ensures assumption { Gives (λ a. a) result (assumption_of key.now (view json.now)) }
    ensures proper { IfOk result IsProperAssumption }
{
    let subject = subject_of(alloc, key)?;
    let assumed = assumed_of(alloc, json)?;
    Ok(Assumption { subject, assumed })
}

/// The assumptions of all members.
fn rows_of(alloc: Global, members: &Map<String, Json>) -> Result<Seq<Assumption>, Misread>
    ensures rows { Gives (λ rows. rows) result (rows_of (members_view members.now.entries)) }
    ensures proper { IfOk result (AllByRecursion IsProperAssumption) }
{
    let mut rows = Seq::new(alloc);
    for (key, json) in members.iter() {
        rows.push(assumption_of(alloc, key.as_str(), json)?)?;
    }
    Ok(rows)
}

/// The assumptions of an object.
fn rows_in(alloc: Global, json: Option<&Json>) -> Result<Seq<Assumption>, Misread>
    ensures rows { Gives (λ rows. rows) result (rows_in (option_map (λ d. view d.now) json.entry)) }
    ensures proper { IfOk result (AllByRecursion IsProperAssumption) }
{
    let Some(json) = json else {
        return Err(Misread::Form);
    };
    match json.as_object() {
        Some(members) => rows_of(alloc, members),
        None => Err(Misread::Form),
    }
}

/// The assumptions of a version and an object, which are so many keys.
fn rows_with(alloc: Global, json: &Json, keys: usize) -> Result<Seq<Assumption>, Misread>
    ensures rows { Gives (λ rows. rows) result (rows_with (view json.now) keys) }
    ensures proper { IfOk result (AllByRecursion IsProperAssumption) }
{
    let are_two = keys == 2;
    let is_first = has_version(json.get("version"));
    if !(are_two && is_first) {
        return Err(Misread::Form);
    }
    rows_in(alloc, json.get("resources"))
}

/// The assumptions that JSON tells.
fn all_rows(alloc: Global, json: &Json) -> Result<Seq<Assumption>, Misread>
    ensures rows { Gives (λ rows. rows) result (all_rows (view json.now)) }
    ensures proper { IfOk result (AllByRecursion IsProperAssumption) }
{
    match json.as_object() {
        Some(members) => rows_with(alloc, json, members.len()),
        None => Err(Misread::Form),
    }
}

/// The assumptions that JSON tells, with their types in a table.
fn assumptions_of(alloc: Global, json: &Json) -> Result<Assumptions, Misread>
    ensures says { IfOk result (λ rows. SaysAssumptions rows (view json.now)) }
    ensures none { IfErr result (λ e. IfForm e ((rows : List Row) → SaysAssumptions rows (view json.now) → ⊥)) }
{
    compiled_texts();
    package_paths();
    let rows = all_rows(alloc, json)?;
    Ok(Assumptions::of(alloc, rows)?)
}

/// The assumptions of a text; any other text is refused.
pub fn assumptions_from_json(alloc: Global, bytes: &[u8]) -> Result<Assumptions, Fault>
    ensures found { IfOk result (IsAssumptionsText bytes.now) }
    // What this text says is what is found.
    ensures only { (rows : List Row) → IsAssumptionsText bytes.now rows → IfOk result (λ found. found ≡ rows) }
    ensures refused { IfErr result (λ e. IfRefused e (λ r. IsRefusal 66 0 (codes "assume") r
        × ((rows : List Row) → IsAssumptionsText bytes.now rows → ⊥))) }
{
    assumption_texts();
    let json = match Json::from_slice(alloc, bytes) {
        Ok(json) => json,
        Err(e) => {
            if e.classify() == Category::Memory {
                return Err(Fault::Memory(NoMemory));
            }
            return Err(Fault::refused(alloc, 66, 0, "assume"));
        }
    };
    match assumptions_of(alloc, &json) {
        Ok(assumptions) => Ok(assumptions),
        Err(Misread::Form) => Err(Fault::refused(alloc, 66, 0, "assume")),
        Err(Misread::Memory(m)) => Err(Fault::Memory(m)),
    }
}
