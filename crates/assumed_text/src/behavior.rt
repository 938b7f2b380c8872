//! What is assumed of one resource or type, from JSON.

ghost use Rattle.std.specs.Prelude.{◌≡◌, [], Some, IfOk, IfErr, OnOk, option_map};
ghost use Rattle.std.specs.List.{AllByRecursion};
ghost use Rattle.serde_json.specs.View.{view, members_view};
ghost use Rattle.rh_base.specs.Reading.{Gives, Fails};
ghost use Rattle.fs_semantics.specs.FileTree.{IsSegment};
ghost use Rattle.assumed_text.specs.Reading.{is_action, has_only_parts, has_action, paths_in, path_in, behavior_of, with_new, all_paths, if_fit, behaves, word_of, assumed_of, IfProper, IsProperBehavior, IsProper};

use crate::assumed::{Assumed, BEHAVIOR_PATHS, Behavior};
use fs_lang::Path;
use pkg_listing::{PathSet, folders_of, path_of};
use rh_base::{Misread, Seq};
use serde_json::{Map, Value as Json};
use std::alloc::Global;

/// Whether a key has paths on which a resource acts.
fn is_action(key: &str) -> bool
    ensures { result ≡ is_action key.now }
{
    let needs = key == "needs";
    let folders = key == "folders";
    let makes = key == "makes";
    let edits = key == "edits";
    let removes = key == "removes";
    needs || (folders || (makes || (edits || removes)))
}

/// Whether each key names a part of a behavior.
fn has_only_parts(members: &Map<String, Json>) -> bool
    ensures { result ≡ has_only_parts (members_view members.now.entries) }
{
    for (key, _) in members.iter() {
        let is_action = is_action(key.as_str());
        let is_creates = key.as_str() == "creates";
        if !(is_action || is_creates) {
            return false;
        }
    }
    true
}

/// Whether a key has paths on which a resource acts.
fn has_action(members: &Map<String, Json>) -> bool
    ensures { result ≡ has_action (members_view members.now.entries) }
{
    for (key, _) in members.iter() {
        if is_action(key.as_str()) {
            return true;
        }
    }
    false
}

/// The paths of an array; none, where it doesn't stand.
fn paths_in(alloc: Global, json: Option<&Json>) -> Result<Seq<Path>, Misread>
    ensures paths { Gives (λ ps. ps) result (paths_in (option_map (λ d. view d.now) json.entry)) }
    ensures proper { IfOk result (AllByRecursion (AllByRecursion IsSegment)) }
{
    let Some(json) = json else {
        return Ok(Seq::new(alloc));
    };
    match json.as_array() {
        Some(items) => folders_of(alloc, items.as_slice()),
        None => Err(Misread::Form),
    }
}

/// A path, if it stands.
fn path_in(alloc: Global, json: Option<&Json>) -> Result<Option<Path>, Misread>
    ensures path { Gives (λ p. p) result (path_in (option_map (λ d. view d.now) json.entry)) }
    ensures proper { IfOk result IfProper }
{
    match json {
        Some(json) => Ok(Some(path_of(alloc, json)?)),
        None => Ok(None),
    }
}

/// The behavior of these parts.
fn behavior_of(alloc: Global, json: &Json) -> Result<Behavior, Misread>
    ensures behavior { Gives (λ b. b) result (behavior_of (view json.now)) }
    ensures proper { IfOk result IsProperBehavior }
{
    let needs = paths_in(alloc, json.get("needs"))?;
    let folders = paths_in(alloc, json.get("folders"))?;
    let makes = paths_in(alloc, json.get("makes"))?;
    let edits = paths_in(alloc, json.get("edits"))?;
    let removes = paths_in(alloc, json.get("removes"))?;
    let creates = path_in(alloc, json.get("creates"))?;
    Ok(Behavior {
        needs,
        folders,
        makes,
        edits,
        removes,
        creates,
    })
}

/// Adds paths of which none is there already.
fn add_new(alloc: Global, paths: &[Path], seen: &mut PathSet) -> Result<(), Misread>
    ensures ok { OnOk result (with_new seen.old paths.now ≡ Some seen.new) }
    ensures err { IfErr result (λ e. Fails e (with_new seen.old paths.now)) }
{
    for path in paths {
        if !seen.insert(alloc, path)? {
            return Err(Misread::Form);
        }
    }
    Ok(())
}

/// The paths on which a behavior acts, if none stands twice.
fn all_paths(alloc: Global, b: &Behavior) -> Result<PathSet, Misread>
    ensures { Gives (λ s. s) result (all_paths b.now) }
{
    let mut seen = PathSet::new(alloc);
    add_new(alloc, b.needs.as_slice(), &mut seen)?;
    add_new(alloc, b.folders.as_slice(), &mut seen)?;
    add_new(alloc, b.makes.as_slice(), &mut seen)?;
    add_new(alloc, b.edits.as_slice(), &mut seen)?;
    add_new(alloc, b.removes.as_slice(), &mut seen)?;
    Ok(seen)
}

/// The behavior, if none of its paths stands twice, and they aren't too many.
fn if_fit(alloc: Global, b: Behavior) -> Result<Behavior, Misread>
    ensures { Gives (λ c. c) result (if_fit b) }
{
    let paths = all_paths(alloc, &b)?;
    if paths.as_slice().len() <= BEHAVIOR_PATHS {
        Ok(b)
    } else {
        Err(Misread::Form)
    }
}

/// The behavior that an object tells.
fn behaves(alloc: Global, json: &Json, members: &Map<String, Json>) -> Result<Behavior, Misread>
    ensures behavior { Gives (λ b. b) result (behaves (view json.now) (members_view members.now.entries)) }
    ensures proper { IfOk result IsProperBehavior }
{
    let are_parts = has_only_parts(members);
    let acts = has_action(members);
    if !(are_parts && acts) {
        return Err(Misread::Form);
    }
    let behavior = behavior_of(alloc, json)?;
    if_fit(alloc, behavior)
}

/// What a word says.
fn word_of(word: &str) -> Result<Assumed, Misread>
    ensures { Gives (λ a. a) result (word_of word.now) }
{
    let is_none = word == "none";
    let is_refused = word == "refused";
    if is_none {
        Ok(Assumed::Nothing)
    } else if is_refused {
        Ok(Assumed::Refused)
    } else {
        Err(Misread::Form)
    }
}

/// What is assumed, as JSON tells.
pub fn assumed_of(alloc: Global, json: &Json) -> Result<Assumed, Misread>
    ensures assumed { Gives (λ a. a) result (assumed_of (view json.now)) }
    ensures proper { IfOk result IsProper }
{
    if let Some(word) = json.as_str() {
        return word_of(word);
    }
    let Some(members) = json.as_object() else {
        return Err(Misread::Form);
    };
    Ok(Assumed::Does(behaves(alloc, json, members)?))
}
