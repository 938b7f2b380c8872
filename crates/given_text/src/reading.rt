//! Reading the text of what every host has.

ghost use Rattle.std.specs.Prelude.{◌≡◌, Some, IfOk, IfErr, option_map, codes};
ghost use Rattle.std.specs.List.{AllByRecursion};
ghost use Rattle.serde_json.specs.View.{view, members_view};
ghost use Rattle.rh_base.specs.Reading.{Gives};
ghost use Rattle.rh_base.specs.Refused.{IfRefused, IsRefusal};
ghost use Rattle.fs_semantics.specs.FileTree.{IsSegment};
ghost use Rattle.given_text.specs.declared.given.Given.{Given as Said};
ghost use Rattle.given_text.specs.Form.{IsClosed, IsGivenBy, IsGivenText};
ghost use Rattle.json_parts.specs.Forms.{IfForm};
ghost use Rattle.given_text.specs.Reading.{link_of, links_of, links_in, folders_in, stated_with, stated_of, IsProperLink, IsProper};

use crate::checking::is_sound;
use crate::folders::{named_tree, paths_in};
use crate::given::Given;
use crate::laws::given_texts;
use fs_lang::Path;
use given_links::GivenLink;
use json_parts::has_version;
use pkg_listing::{folders_of, managed_path, path_of};
use rh_base::{Fault, Misread, NoMemory, Seq};
use serde_json::{Category, Map, Value as Json};
use std::alloc::Global;

/// The link of a member.
fn link_of(alloc: Global, key: &str, json: &Json) -> Result<GivenLink, Misread>
    ensures link { Gives (λ l. l) result (link_of key.now (view json.now)) }
    ensures proper { IfOk result IsProperLink }
{
    let path = managed_path(alloc, key)?;
    let target = path_of(alloc, json)?;
    Ok(GivenLink { path, target })
}

/// The links of all members.
fn links_of(alloc: Global, members: &Map<String, Json>) -> Result<Seq<GivenLink>, Misread>
    ensures links { Gives (λ ls. ls) result (links_of (members_view members.now.entries)) }
    ensures proper { IfOk result (AllByRecursion IsProperLink) }
{
    let mut links = Seq::new(alloc);
    for (key, json) in members.iter() {
        links.push(link_of(alloc, key.as_str(), json)?)?;
    }
    Ok(links)
}

/// The links of an object.
fn links_at(alloc: Global, json: &Json, keys: usize) -> Result<Seq<GivenLink>, Misread>
    ensures links { Gives (λ ls. ls) result (links_in (Some (view json.now)) keys) }
    ensures proper { IfOk result (AllByRecursion IsProperLink) }
{
    let is_one = keys == 3;
    if !is_one {
        return Err(Misread::Form);
    }
    match json.as_object() {
        Some(members) => links_of(alloc, members),
        None => Err(Misread::Form),
    }
}

/// The links of an object, which stands among so many keys; no links where it doesn't stand.
fn links_in(alloc: Global, json: Option<&Json>, keys: usize) -> Result<Seq<GivenLink>, Misread>
    ensures links { Gives (λ ls. ls) result (links_in (option_map (λ d. view d.now) json.entry) keys) }
    ensures proper { IfOk result (AllByRecursion IsProperLink) }
{
    match json {
        Some(json) => links_at(alloc, json, keys),
        None => {
            let are_two = keys == 2;
            if are_two {
                Ok(Seq::new(alloc))
            } else {
                Err(Misread::Form)
            }
        }
    }
}

/// The folders of a list.
fn folders_in(alloc: Global, json: Option<&Json>) -> Result<Seq<Path>, Misread>
    ensures folders { Gives (λ ps. ps) result (folders_in (option_map (λ d. view d.now) json.entry)) }
    ensures proper { IfOk result (AllByRecursion (AllByRecursion IsSegment)) }
{
    let Some(json) = json else {
        return Err(Misread::Form);
    };
    match json.as_array() {
        Some(items) => folders_of(alloc, items.as_slice()),
        None => Err(Misread::Form),
    }
}

/// The folders and links that an object names.
fn stated_with(alloc: Global, json: &Json, keys: usize) -> Result<Given, Misread>
    ensures stated { Gives (λ g. g) result (stated_with (view json.now) keys) }
    ensures proper { IfOk result IsProper }
{
    if !has_version(json.get("version")) {
        return Err(Misread::Form);
    }
    let folders = folders_in(alloc, json.get("folders"))?;
    let links = links_in(alloc, json.get("links"), keys)?;
    Ok(Given { folders, links })
}

/// The folders and links that JSON names.
fn stated_of(alloc: Global, json: &Json) -> Result<Given, Misread>
    ensures stated { Gives (λ g. g) result (stated_of (view json.now)) }
    ensures proper { IfOk result IsProper }
{
    match json.as_object() {
        Some(members) => stated_with(alloc, json, members.len()),
        None => Err(Misread::Form),
    }
}

/// The folders of what is named, and the links.
fn closed(alloc: Global, stated: Given) -> Result<Given, NoMemory>
    ensures { IfOk result (IsClosed stated) }
{
    let Given { folders, links } = stated;
    let tree = named_tree(alloc, folders.as_slice(), links.as_slice())?;
    let folders = paths_in(alloc, &tree)?;
    Ok(Given { folders, links })
}

/// What every host has, where what JSON names is sound.
fn given_of(alloc: Global, json: &Json) -> Result<Given, Misread>
    ensures given { IfOk result (IsGivenBy (view json.now)) }
    ensures none { IfErr result (λ e. IfForm e ((g : Said) → IsGivenBy (view json.now) g → ⊥)) }
{
    let stated = stated_of(alloc, json)?;
    let sound = is_sound(alloc, &stated)?;
    if !sound {
        return Err(Misread::Form);
    }
    Ok(closed(alloc, stated)?)
}

/// The given folders and links of a text; any other text is refused.
pub fn given_from_json(alloc: Global, bytes: &[u8]) -> Result<Given, Fault>
    ensures found { IfOk result (IsGivenText bytes.now) }
    // What this text gives is what is found.
    ensures only { (g : Said) → IsGivenText bytes.now g → IfOk result (λ h. h ≡ g) }
    ensures refused { IfErr result (λ e. IfRefused e (λ r. IsRefusal 67 0 (codes "given") r × ((g : Said) → IsGivenText bytes.now g → ⊥))) }
{
    given_texts();
    let json = match Json::from_slice(alloc, bytes) {
        Ok(json) => json,
        Err(e) => {
            if e.classify() == Category::Memory {
                return Err(Fault::Memory(NoMemory));
            }
            return Err(Fault::refused(alloc, 67, 0, "given"));
        }
    };
    match given_of(alloc, &json) {
        Ok(given) => Ok(given),
        Err(Misread::Form) => Err(Fault::refused(alloc, 67, 0, "given")),
        Err(Misread::Memory(m)) => Err(Fault::Memory(m)),
    }
}
