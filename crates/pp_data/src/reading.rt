//! Class data from JSON.

ghost use Rattle.std.specs.Prelude.{◌≡◌, List, IfOk, IfErr, option_map, codes};
ghost use Rattle.rh_base.specs.Refused.{IfRefused, IsRefusal};
ghost use Rattle.serde_json.specs.View.{view, items_view, members_view};
ghost use Rattle.pp_data.specs.declared.data.Level.{Level as L};
ghost use Rattle.std.specs.List.{AllByRecursion};
ghost use Rattle.pp_data.specs.Form.{AreData};
ghost use Rattle.pp_data.specs.Lookup.{AreProper, IsProperLevel};
ghost use Rattle.rh_base.specs.Reading.{Gives};
ghost use Rattle.pp_data.specs.Reading.{has_only, pairs_in, when_in, level_in, levels_in, data_in};

use crate::data::{Data, Level};
use pp_eval::pairs_of_json;
use pp_value::Pairs;
use rh_base::{Fault, Misread, NoMemory, Seq};
use serde_json::{Category, Map, Value as Json};
use std::alloc::Global;

/// Whether an object has no other keys than these two, which may be one.
fn has_only(members: &Map<String, Json>, one: &str, other: &str) -> bool
    ensures { result ≡ has_only one.now other.now (members_view members.now.entries) }
{
    for (key, _) in members.iter() {
        let is_one = key.as_str() == one;
        let is_other = key.as_str() == other;
        if !(is_one || is_other) {
            return false;
        }
    }
    true
}

/// The pairs of an object.
fn pairs_in(alloc: Global, json: &Json) -> Result<Pairs, Misread>
    ensures pairs { Gives (λ p. p) result (pairs_in (view json.now)) }
    ensures proper { IfOk result AreProper }
{
    let members = json.as_object().ok_or(Misread::Form)?;
    Ok(pairs_of_json(alloc, members)?)
}

/// What a level asks for: nothing, where `when` is left out.
fn when_in(alloc: Global, json: Option<&Json>) -> Result<Pairs, Misread>
    ensures pairs { Gives (λ p. p) result (when_in (option_map (λ d. view d.now) json.entry)) }
    ensures proper { IfOk result AreProper }
{
    match json {
        Some(json) => pairs_in(alloc, json),
        None => Ok(Pairs::new(alloc)),
    }
}

#[tactic(auto, using(crate::proofs::FormLaws::got))]
fn level_in(alloc: Global, json: &Json) -> Result<Level, Misread>
    ensures level { Gives (λ level. level) result (level_in (view json.now)) }
    ensures proper { IfOk result IsProperLevel }
{
    let members = json.as_object().ok_or(Misread::Form)?;
    if !has_only(members, "when", "values") {
        return Err(Misread::Form);
    }
    let values = json.get("values").ok_or(Misread::Form)?;
    let values = pairs_in(alloc, values)?;
    let when = when_in(alloc, json.get("when"))?;
    Ok(Level { when, values })
}

fn levels_in(alloc: Global, items: &Vec<Json>) -> Result<Seq<Level>, Misread>
    ensures levels { Gives (λ levels. levels) result (levels_in (items_view items.now.items)) }
    ensures proper { IfOk result (AllByRecursion IsProperLevel) }
{
    let mut levels = Seq::new(alloc);
    for item in items {
        levels.push(level_in(alloc, item)?)?;
    }
    Ok(levels)
}

#[tactic(auto, using(crate::proofs::FormLaws::got))]
fn data_in(alloc: Global, json: &Json) -> Result<Data, Misread>
    ensures levels { Gives (λ d. d) result (data_in (view json.now)) }
    ensures proper { IfOk result (AllByRecursion IsProperLevel) }
{
    let members = json.as_object().ok_or(Misread::Form)?;
    if !has_only(members, "levels", "levels") {
        return Err(Misread::Form);
    }
    let items = json
        .get("levels")
        .and_then(Json::as_array)
        .ok_or(Misread::Form)?;
    let levels = levels_in(alloc, items)?;
    Ok(Data::of(levels))
}

/// The data of a text `{"levels": [{"when": {FACT: VALUE}, "values": {KEY: VALUE}}]}`, where `when` may be left
/// out; any other text is refused. Values are read as facts are, and a key is any text.
#[tactic(auto, using(crate::proofs::FormLaws::read_data))]
pub fn data_from_json(alloc: Global, bytes: &[u8]) -> Result<Data, Fault>
    ensures levels { IfOk result (AreData bytes.now) }
    ensures proper { IfOk result (AllByRecursion IsProperLevel) }
    ensures refused { IfErr result (λ e. IfRefused e (λ r. IsRefusal 64 0 (codes "data") r
        × ((levels : List L) → AreData bytes.now levels → ⊥))) }
{
    let json = match Json::from_slice(alloc, bytes) {
        Ok(json) => json,
        Err(e) => {
            if e.classify() == Category::Memory {
                return Err(Fault::Memory(NoMemory));
            }
            return Err(Fault::refused(alloc, 64, 0, "data"));
        }
    };
    match data_in(alloc, &json) {
        Ok(data) => Ok(data),
        Err(Misread::Form) => Err(Fault::refused(alloc, 64, 0, "data")),
        Err(Misread::Memory(m)) => Err(Fault::Memory(m)),
    }
}
