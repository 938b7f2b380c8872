//! Reading the text of a listing.

ghost use Rattle.std.specs.Prelude.{◌≡◌, map, OnOk, IfOk, IfErr, option_map, codes};
ghost use Rattle.std.specs.List.{AllByRecursion};
ghost use Rattle.serde_json.specs.View.{view, items_view, members_view};
ghost use Rattle.rh_base.specs.Reading.{Gives, Fails};
ghost use Rattle.rh_base.specs.Refused.{IfRefused, IsRefusal};
ghost use Rattle.fs_semantics.specs.FileTree.{IsSegment};
ghost use Rattle.pkg_listing.specs.Packages.{Packages, AreFit, ArePathsProper, paths_of, stand_once};
ghost use Rattle.pkg_listing.specs.Form.{IsListingText};
ghost use Rattle.pkg_listing.specs.Reading.{AddsAll, AddsPackage, lists_of, managed_path, path_of, if_digest, digest_of, pair_of, file_of, files_of, folders_of, two_of, package_of, packages_of, version_of, listing_of};

use crate::laws::listing_texts;
use crate::listing::{DIGEST_BYTES, Listed, Listing, Package};
use crate::paths::PathSet;
use fs_lang::{Path, PathFault};
use json_parts::text_of;
use pp_value::Keyed;
use rh_base::{Fault, Misread, NoMemory, Seq, Text};
use serde_json::{Category, Map, Value as Json};
use std::alloc::Global;

/// Which form the files of a listing have.
#[derive(Clone, Copy, Debug, PartialEq, Eq)]
pub enum Version {
    /// Each file is its path.
    First,
    /// Each file is a path and a digest.
    Second,
}

/// The path that a text spells, if it may be managed.
pub fn managed_path(alloc: Global, text: &str) -> Result<Path, Misread>
    ensures path { Gives (λ p. p) result (managed_path text.now) }
    ensures proper { IfOk result (AllByRecursion IsSegment) }
{
    let path = match Path::read(alloc, text) {
        Ok(path) => path,
        Err(PathFault::Bad) => return Err(Misread::Form),
        Err(PathFault::Memory(m)) => return Err(Misread::Memory(m)),
    };
    if path.may_be_managed() {
        Ok(path)
    } else {
        Err(Misread::Form)
    }
}

/// The path that JSON spells, which is a text, if it may be managed.
pub fn path_of(alloc: Global, json: &Json) -> Result<Path, Misread>
    ensures path { Gives (λ p. p) result (path_of (view json.now)) }
    ensures proper { IfOk result (AllByRecursion IsSegment) }
{
    match json.as_str() {
        Some(text) => managed_path(alloc, text),
        None => Err(Misread::Form),
    }
}

fn digest_text(alloc: Global, text: &str) -> Result<Text, Misread>
    ensures { Gives (λ t. t) result (if_digest text.now) }
{
    let is_empty = text.is_empty();
    let is_short = text.len() <= DIGEST_BYTES;
    if is_empty || !is_short {
        return Err(Misread::Form);
    }
    Ok(text_of(alloc, text)?)
}

fn digest_of(alloc: Global, json: &Json) -> Result<Option<Text>, Misread>
    ensures { Gives (λ d. d) result (digest_of (view json.now)) }
{
    match json {
        Json::Null => Ok(None),
        Json::String(text) => Ok(Some(digest_text(alloc, text.as_str())?)),
        Json::Bool(_) | Json::Number(_) | Json::Array(_) | Json::Object(_) => Err(Misread::Form),
    }
}

/// A file from a list of its path and its digest.
fn pair_of(alloc: Global, items: &[Json]) -> Result<Listed, Misread>
    ensures file { Gives (λ f. f) result (pair_of (items_view items.now)) }
    ensures proper { IfOk result (λ f. AllByRecursion IsSegment f.path) }
{
    let Some((first, more)) = items.split_first() else {
        return Err(Misread::Form);
    };
    let Some((second, more)) = more.split_first() else {
        return Err(Misread::Form);
    };
    if !more.is_empty() {
        return Err(Misread::Form);
    }
    let path = path_of(alloc, first)?;
    let digest = digest_of(alloc, second)?;
    Ok(Listed { path, digest })
}

fn file_of(alloc: Global, version: Version, json: &Json) -> Result<Listed, Misread>
    ensures file { Gives (λ f. f) result (file_of version (view json.now)) }
    ensures proper { IfOk result (λ f. AllByRecursion IsSegment f.path) }
{
    match version {
        Version::First => {
            let path = path_of(alloc, json)?;
            Ok(Listed { path, digest: None })
        }
        Version::Second => match json.as_array() {
            Some(items) => pair_of(alloc, items.as_slice()),
            None => Err(Misread::Form),
        },
    }
}

fn files_of(alloc: Global, version: Version, items: &[Json]) -> Result<Seq<Listed>, Misread>
    ensures files { Gives (λ fs. fs) result (files_of version (items_view items.now)) }
    ensures proper { IfOk result (AllByRecursion (λ f. AllByRecursion IsSegment f.path)) }
{
    let mut files = Seq::new(alloc);
    for item in items {
        files.push(file_of(alloc, version, item)?)?;
    }
    Ok(files)
}

/// The paths of items that are all texts of such.
pub fn folders_of(alloc: Global, items: &[Json]) -> Result<Seq<Path>, Misread>
    ensures folders { Gives (λ ps. ps) result (folders_of (items_view items.now)) }
    ensures proper { IfOk result (AllByRecursion (AllByRecursion IsSegment)) }
{
    let mut folders = Seq::new(alloc);
    for item in items {
        folders.push(path_of(alloc, item)?)?;
    }
    Ok(folders)
}

/// Whether the files' paths are new, and differ from one another.
fn files_are_new(alloc: Global, files: &[Listed], seen: &mut PathSet) -> Result<bool, NoMemory>
    ensures { AddsAll result (map (λ f. f.path) files.now) seen.old seen.new }
{
    for file in files {
        if !seen.insert(alloc, &file.path)? {
            return Ok(false);
        }
    }
    Ok(true)
}

fn folders_are_new(alloc: Global, folders: &[Path], seen: &mut PathSet) -> Result<bool, NoMemory>
    ensures { AddsAll result folders.now seen.old seen.new }
{
    for folder in folders {
        if !seen.insert(alloc, folder)? {
            return Ok(false);
        }
    }
    Ok(true)
}

/// Whether no path stands twice.
fn stand_once(alloc: Global, p: &Package) -> Result<bool, NoMemory>
    ensures { IfOk result (λ b. b ≡ stand_once (paths_of p.now)) }
{
    let mut seen = PathSet::new(alloc);
    let files = files_are_new(alloc, p.files.as_slice(), &mut seen)?;
    if !files {
        return Ok(false);
    }
    folders_are_new(alloc, p.folders.as_slice(), &mut seen)
}

/// The values of an object that has just these two keys.
fn two_of<'j>(json: &'j Json, a: &str, b: &str) -> Option<(&'j Json, &'j Json)>
    ensures { option_map (λ x. (view x.0.now, view x.1.now)) result ≡ two_of a.now b.now (view json.now) }
{
    let members = json.as_object()?;
    let are_two = members.len() == 2;
    if !are_two {
        return None;
    }
    let first = json.get(a)?;
    let second = json.get(b)?;
    Some((first, second))
}

fn lists_of(
    alloc: Global,
    version: Version,
    files: &Json,
    folders: &Json,
) -> Result<Package, Misread>
    ensures found { Gives (λ p. p) result (lists_of version (view files.now) (view folders.now)) }
    ensures proper { IfOk result ArePathsProper }
{
    let (Some(files), Some(folders)) = (files.as_array(), folders.as_array()) else {
        return Err(Misread::Form);
    };
    let files = files_of(alloc, version, files.as_slice())?;
    let folders = folders_of(alloc, folders.as_slice())?;
    Ok(Package { files, folders })
}

fn package_of(alloc: Global, version: Version, json: &Json) -> Result<Package, Misread>
    ensures found { Gives (λ p. p) result (package_of version (view json.now)) }
    ensures proper { IfOk result ArePathsProper }
{
    let Some((files, folders)) = two_of(json, "files", "folders") else {
        return Err(Misread::Form);
    };
    let made = lists_of(alloc, version, files, folders)?;
    let once = stand_once(alloc, &made)?;
    if once { Ok(made) } else { Err(Misread::Form) }
}

/// Puts the package of a member behind those before it.
fn put_package(
    alloc: Global,
    version: Version,
    name: &str,
    json: &Json,
    packages: &mut Keyed<Package>,
) -> Result<(), Misread>
    ensures ok { OnOk result (AddsPackage version name.now (view json.now) packages.old packages.new) }
    ensures err { IfErr result (λ e. Fails e (package_of version (view json.now))) }
{
    let made = package_of(alloc, version, json)?;
    let name = match String::from_str(alloc, name) {
        Ok(name) => Text::from_string(name),
        Err(_) => return Err(Misread::Memory(NoMemory)),
    };
    packages.put(name, made)?;
    Ok(())
}

fn packages_of(
    alloc: Global,
    version: Version,
    members: &Map<String, Json>,
) -> Result<Keyed<Package>, Misread>
    ensures packages { Gives (λ ps. ps) result (packages_of version (members_view members.now.entries)) }
    ensures fit { IfOk result AreFit }
{
    let mut packages = Keyed::new(alloc);
    for (name, json) in members.iter() {
        put_package(alloc, version, name.as_str(), json, &mut packages)?;
    }
    Ok(packages)
}

fn version_of(json: &Json) -> Option<Version>
    ensures { result ≡ version_of (view json.now) }
{
    match json.as_u64()? {
        1 => Some(Version::First),
        2 => Some(Version::Second),
        _ => None,
    }
}

fn listing_of(alloc: Global, json: &Json) -> Result<Listing, Misread>
    ensures { Gives (λ l. l) result (listing_of (view json.now)) }
{
    let Some((version, packages)) = two_of(json, "version", "packages") else {
        return Err(Misread::Form);
    };
    let (Some(version), Some(packages)) = (version_of(version), packages.as_object()) else {
        return Err(Misread::Form);
    };
    let packages = packages_of(alloc, version, packages)?;
    Ok(Listing::of(packages))
}

/// The listing of a text, of version 1 or 2; any other text is refused.
pub fn listing_from_json(alloc: Global, bytes: &[u8]) -> Result<Listing, Fault>
    ensures found { IfOk result (IsListingText bytes.now) }
    // Each listing of this text is the one that is found.
    ensures only { (ps : Packages) → IsListingText bytes.now ps → IfOk result (λ l. l ≡ ps) }
    ensures refused { IfErr result (λ e. IfRefused e (λ r. IsRefusal 61 0 (codes "packages") r
        × ((ps : Packages) → IsListingText bytes.now ps → ⊥))) }
{
    listing_texts();
    let json = match Json::from_slice(alloc, bytes) {
        Ok(json) => json,
        Err(e) => {
            if e.classify() == Category::Memory {
                return Err(Fault::Memory(NoMemory));
            }
            return Err(Fault::refused(alloc, 61, 0, "packages"));
        }
    };
    match listing_of(alloc, &json) {
        Ok(listing) => {
            listing.packages();
            Ok(listing)
        }
        Err(Misread::Form) => Err(Fault::refused(alloc, 61, 0, "packages")),
        Err(Misread::Memory(m)) => Err(Fault::Memory(m)),
    }
}
