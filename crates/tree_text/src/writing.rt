//! Writing the text of a tree.

ghost use Rattle.std.specs.Prelude.{◌≡◌, ◌++◌, Some, IfOk, OnOk, OnErr, IsUtf8};
ghost use Rattle.serde_json.specs.Read.{read};
ghost use Rattle.serde_json.specs.Data.{object};
ghost use Rattle.fs_semantics.specs.FileTree.{Link};
ghost use Rattle.serde_json.specs.View.{view, members_view};
ghost use Rattle.fs_lang.specs.Meaning.{entry_of};
ghost use Rattle.tree_text.specs.TreeText.{entry_data, members_of, tree_text, IsWithinLimits, IsTreeText};

use crate::laws::tree_texts;
use fs_lang::{Entry, Tree};
use json_parts::{append, put_member, text_json, text_of};
use rh_base::{NoMemory, Text};
use serde_json::{Map, Value as Json};
use std::alloc::Global;

fn link_json(alloc: Global, target: &Text) -> Result<Json, NoMemory>
    ensures { IfOk result (λ json. view json ≡ entry_data (Link target.now)) }
{
    let text = text_json(alloc, target.as_str())?;
    let mut members = Map::new(alloc);
    put_member(text_of(alloc, "link")?, text, &mut members)?;
    Ok(Json::Object(members))
}

fn entry_json(alloc: Global, entry: &Entry) -> Result<Json, NoMemory>
    ensures { IfOk result (λ json. view json ≡ entry_data (entry_of entry.now)) }
{
    match entry {
        Entry::Folder => Ok(Json::Null),
        Entry::File(content) => text_json(alloc, content.as_str()),
        Entry::Link(target) => link_json(alloc, target),
    }
}

fn members_of(alloc: Global, tree: &Tree) -> Result<Map<String, Json>, NoMemory>
    ensures { IfOk result (λ members. members_view members.entries ≡ members_of tree.now) }
{
    let mut members = Map::new(alloc);
    for (p, entry) in tree.entries() {
        let key = p.text(alloc)?;
        put_member(key, entry_json(alloc, entry)?, &mut members)?;
    }
    Ok(members)
}

/// The text of a tree. It is UTF-8, and is read as the members of the tree.
fn written(alloc: Global, tree: &Tree) -> Result<Vec<u8>, NoMemory>
    ensures text { IfOk result (λ bytes. bytes.items ≡ tree_text tree.now) }
    ensures utf8 { IfOk result (λ bytes. IsUtf8 bytes.items) }
    ensures read { IfOk result (λ bytes. read bytes.items ≡ Some (object (members_of tree.now))) }
{
    let json = Json::Object(members_of(alloc, tree)?);
    Ok(json.to_vec(alloc)?)
}

/// Appends the text of a tree: compact JSON, with the keys in the order of their bytes. A tree whose paths are within the
/// limits is read back from it.
pub fn tree_to_json(alloc: Global, tree: &Tree, into: &mut Vec<u8>) -> Result<(), NoMemory>
    ensures ok { OnOk result (into.new.items ≡ into.old.items ++ tree_text tree.now) }
    ensures err { OnErr result (into.new.items ≡ into.old.items) }
    ensures again { OnOk result (IsWithinLimits tree.now → IsTreeText (tree_text tree.now) tree.now) }
{
    tree_texts();
    tree.is_tree();
    let text = written(alloc, tree)?;
    append(into, text.as_slice())
}
