//! Writing the text of a listing.

ghost use Rattle.std.specs.Prelude.{◌≡◌, ◌++◌, map, Some, IfOk, OnOk, OnErr, IsUtf8};
ghost use Rattle.std.specs.declared.cmp.Ordering.TheVariants.{Greater};
ghost use Rattle.std.specs.Ordering.{nat_cmp};
ghost use Rattle.std.specs.Cmp.Lexicographic.{slice_cmp};
ghost use Rattle.serde_json.specs.Data.{object, member, no_members};
ghost use Rattle.serde_json.specs.Read.{read};
ghost use Rattle.serde_json.specs.View.{view, members_view};
ghost use Rattle.pkg_listing.specs.Packages.{AreFit};
ghost use Rattle.pkg_listing.specs.Form.{IsListingText};
ghost use Rattle.pkg_listing.specs.ListingText.{path_data, digest_data, file_data, package_data, packages_data, listing_data, listing_text};

use crate::listing::{Listed, Listing, Package};
use fs_lang::{Path, path_texts};
use json_parts::{append, put_member, text_json};
use rh_base::{NoMemory, Text};
use serde_json::{Map, Value as Json};
use std::alloc::Global;

fn path_json(alloc: Global, p: &Path) -> Result<Json, NoMemory>
    ensures { IfOk result (λ json. view json ≡ path_data p.now) }
{
    Ok(Json::String(p.text(alloc)?.into_string()))
}

fn digest_json(alloc: Global, digest: &Option<Text>) -> Result<Json, NoMemory>
    ensures { IfOk result (λ json. view json ≡ digest_data digest.now) }
{
    match digest {
        None => Ok(Json::Null),
        Some(digest) => text_json(alloc, digest.as_str()),
    }
}

fn file_json(alloc: Global, file: &Listed) -> Result<Json, NoMemory>
    ensures { IfOk result (λ json. view json ≡ file_data file.now) }
{
    let mut items = Vec::new(alloc);
    items.push(path_json(alloc, &file.path)?)?;
    items.push(digest_json(alloc, &file.digest)?)?;
    Ok(Json::Array(items))
}

fn files_json(alloc: Global, files: &[Listed]) -> Result<Vec<Json>, NoMemory>
    ensures { IfOk result (λ items. map view items.items ≡ map file_data files.now) }
{
    let mut items = Vec::new(alloc);
    for file in files {
        items.push(file_json(alloc, file)?)?;
    }
    Ok(items)
}

fn folders_json(alloc: Global, folders: &[Path]) -> Result<Vec<Json>, NoMemory>
    ensures { IfOk result (λ items. map view items.items ≡ map path_data folders.now) }
{
    let mut items = Vec::new(alloc);
    for folder in folders {
        items.push(path_json(alloc, folder)?)?;
    }
    Ok(items)
}

/// An object with two members, of which the first has the lesser key.
fn object(alloc: Global, a: &str, x: Json, b: &str, y: Json) -> Result<Json, NoMemory>
    requires { slice_cmp nat_cmp b.now a.now ≡ Greater }
    ensures { IfOk result (λ json. view json ≡ object (member a.now (view x) (member b.now (view y) no_members))) }
{
    let mut members = Map::new(alloc);
    members.insert(String::from_str(alloc, a)?, x)?;
    members.insert(String::from_str(alloc, b)?, y)?;
    Ok(Json::Object(members))
}

fn package_json(alloc: Global, p: &Package) -> Result<Json, NoMemory>
    ensures { IfOk result (λ json. view json ≡ package_data p.now) }
{
    let files = Json::Array(files_json(alloc, p.files.as_slice())?);
    let folders = Json::Array(folders_json(alloc, p.folders.as_slice())?);
    object(alloc, "files", files, "folders", folders)
}

fn packages_json(alloc: Global, packages: &[(Text, Package)]) -> Result<Map<String, Json>, NoMemory>
    requires { AreFit packages.now }
    ensures { IfOk result (λ members. members_view members.entries ≡ packages_data packages.now) }
{
    let mut members = Map::new(alloc);
    for pair in packages {
        let name = pair.0.copy(alloc)?;
        put_member(name, package_json(alloc, &pair.1)?, &mut members)?;
    }
    Ok(members)
}

fn listing_json(alloc: Global, listing: &Listing) -> Result<Json, NoMemory>
    ensures { IfOk result (λ json. view json ≡ listing_data listing.now) }
{
    let packages = Json::Object(packages_json(alloc, listing.packages())?);
    object(alloc, "packages", packages, "version", Json::from(2u64))
}

/// The text of a listing. It is UTF-8, and is read as the JSON of the listing.
fn written(alloc: Global, listing: &Listing) -> Result<Vec<u8>, NoMemory>
    ensures text { IfOk result (λ bytes. bytes.items ≡ listing_text listing.now) }
    ensures utf8 { IfOk result (λ bytes. IsUtf8 bytes.items) }
    ensures read { IfOk result (λ bytes. read bytes.items ≡ Some (listing_data listing.now)) }
{
    let json = listing_json(alloc, listing)?;
    Ok(json.to_vec(alloc)?)
}

/// Appends the text of a listing, of version 2: compact JSON, with the keys in the order of their bytes. The listing is
/// read back from it.
pub fn listing_to_json(alloc: Global, listing: &Listing, into: &mut Vec<u8>) -> Result<(), NoMemory>
    ensures ok { OnOk result (into.new.items ≡ into.old.items ++ listing_text listing.now) }
    ensures err { OnErr result (into.new.items ≡ into.old.items) }
    ensures again { OnOk result (IsListingText (listing_text listing.now) listing.now) }
{
    path_texts();
    listing.packages();
    let text = written(alloc, listing)?;
    append(into, text.as_slice())
}
