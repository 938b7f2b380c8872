//! Reading the text of a tree.

ghost use Rattle.std.specs.Prelude.{◌≡◌, ◌↔◌, IsTrue, IfOk, IfErr, OnOk, option_map, option_and_then, codes};
ghost use Rattle.serde_json.specs.Find.{as_object};
ghost use Rattle.rh_base.specs.Reading.{Gives};
ghost use Rattle.rh_base.specs.Refused.{IfRefused, IsRefusal};
ghost use Rattle.serde_json.specs.View.{view, members_view};
ghost use Rattle.fs_semantics.specs.FileTree.{Path as P, Entry as E, Tree as T, IsTree, parent};
ghost use Rattle.fs_lang.specs.PathText.{IsPathText};
ghost use Rattle.fs_semantics.specs.Entries.{IsFreeAt, IsFolderAt};
ghost use Rattle.fs_lang.specs.Meaning.{entry_of};
ghost use Rattle.tree_text.specs.TreeText.{AreMembers, IsTreeText, IsWithinLimits};
ghost use Rattle.json_parts.specs.Forms.{IfForm};
ghost use Rattle.tree_text.specs.Reading.{target_in, entry_in, IsKey, Fits, IsGrown};

use crate::laws::tree_texts;
use fs_lang::{Entry, Path, PathFault, Tree, path_texts};
use fs_semantics::{file_trees, paths, tests};
use json_parts::text_of;
use rh_base::{Fault, Misread, NoMemory};
use serde_json::{Category, Map, Value as Json};
use std::alloc::Global;

fn path_of(alloc: Global, key: &str) -> Result<Path, Misread>
    ensures found { IfOk result (λ p. IsPathText key.now p) }
    ensures none { IfErr result (λ e. IfForm e ((p : P) → IsPathText key.now p → ⊥)) }
{
    match Path::read(alloc, key) {
        Ok(path) => Ok(path),
        Err(PathFault::Bad) => Err(Misread::Form),
        Err(PathFault::Memory(m)) => Err(Misread::Memory(m)),
    }
}

/// The path of a key, unless it is spelled in another form.
fn path_in(alloc: Global, key: &str) -> Result<Path, Misread>
    ensures found { IfOk result (λ p. IsKey key.now p) }
    ensures none { IfErr result (λ e. IfForm e ((p : P) → IsKey key.now p → ⊥)) }
{
    path_texts();
    let path = path_of(alloc, key)?;
    let text = path.text(alloc)?;
    if text.as_str() == key {
        Ok(path)
    } else {
        Err(Misread::Form)
    }
}

/// The target that a link's object has.
#[tactic(auto, using(crate::proofs::StoredLaws::target_one, crate::proofs::StoredLaws::target_none))]
fn target_in(json: &Json) -> Option<&str>
    ensures { option_map (λ s. s.now) result ≡ option_and_then target_in (as_object (view json.now)) }
{
    let members = json.as_object()?;
    let is_one = members.len() == 1;
    let target = json.get("link").and_then(Json::as_str);
    if is_one { target } else { None }
}

fn entry_in(alloc: Global, json: &Json) -> Result<Entry, Misread>
    ensures { Gives entry_of result (entry_in (view json.now)) }
{
    match json {
        Json::Null => Ok(Entry::Folder),
        Json::String(content) => Ok(Entry::File(text_of(alloc, content.as_str())?)),
        Json::Object(_) => {
            let target = target_in(json).ok_or(Misread::Form)?;
            Ok(Entry::Link(text_of(alloc, target)?))
        }
        Json::Bool(_) | Json::Number(_) | Json::Array(_) => Err(Misread::Form),
    }
}

/// Whether nothing stands at a path other than the root.
fn is_free(tree: &Tree, p: &Path) -> bool
    ensures { IsTrue result ↔ IsFreeAt tree.now p.now }
{
    let is_root = p.segments().is_empty();
    let is_there = tree.get(p).is_some();
    !is_root && !is_there
}

/// Whether a path is the root or a folder.
fn is_folder(tree: &Tree, p: &Path) -> bool
    ensures { IsTrue result ↔ IsFolderAt tree.now p.now }
{
    if p.segments().is_empty() {
        return true;
    }
    matches!(tree.get(p), Some(Entry::Folder))
}

/// Whether an entry may be added at a path.
fn has_place(alloc: Global, tree: &Tree, p: &Path) -> Result<bool, NoMemory>
    ensures { IfOk result (λ b. IsTrue b ↔ (IsFreeAt tree.now p.now × IsFolderAt tree.now (parent p.now))) }
{
    let above = p.parent(alloc)?;
    let free = is_free(tree, p);
    let folder = is_folder(tree, &above);
    Ok(free && folder)
}

/// Adds the entry for which a member stands. The tree isn't used again after a fault.
fn add_member(alloc: Global, key: &str, json: &Json, tree: &mut Tree) -> Result<(), Misread>
    ensures ok { OnOk result (IsGrown key.now (view json.now) tree.old tree.new) }
    ensures err { IfErr result (λ e. IfForm e ((p : P) (x : E) → Fits key.now (view json.now) tree.old p x → ⊥)) }
{
    path_texts();
    let path = path_in(alloc, key)?;
    let entry = entry_in(alloc, json)?;
    let fits = has_place(alloc, tree, &path)?;
    if !fits {
        return Err(Misread::Form);
    }
    tree.add(path, entry)?;
    Ok(())
}

/// The tree of an object's entries. Parents come before their children, since their texts do.
fn tree_in(alloc: Global, members: &Map<String, Json>) -> Result<Tree, Misread>
    ensures members { IfOk result (AreMembers (members_view members.now.entries)) }
    ensures limits { IfOk result IsWithinLimits }
    ensures none { IfErr result (λ e. IfForm e ((t : T) → IsTree t → IsWithinLimits t
        → AreMembers (members_view members.now.entries) t → ⊥)) }
{
    path_texts();
    paths();
    file_trees();
    tests();
    let mut tree = Tree::empty(alloc)?;
    for (key, json) in members.iter() {
        tree.is_tree();
        add_member(alloc, key.as_str(), json, &mut tree)?;
    }
    Ok(tree)
}

/// The tree of a text: an object from path texts, as they are written, to null (a folder), a text (a file) or
/// `{"link": TARGET}`; any other text is refused.
pub fn tree_from_json(alloc: Global, bytes: &[u8]) -> Result<Tree, Fault>
    ensures found { IfOk result (IsTreeText bytes.now) }
    // Each tree of this text is the one that is found.
    ensures only { (t : T) → IsTreeText bytes.now t → IfOk result (λ u. u ≡ t) }
    ensures refused { IfErr result (λ e. IfRefused e (λ r. IsRefusal 62 0 (codes "tree") r × ((t : T) → IsTreeText bytes.now t → ⊥))) }
{
    tree_texts();
    let json = match Json::from_slice(alloc, bytes) {
        Ok(json) => json,
        Err(e) => {
            if e.classify() == Category::Memory {
                return Err(Fault::Memory(NoMemory));
            }
            return Err(Fault::refused(alloc, 62, 0, "tree"));
        }
    };
    let Json::Object(members) = &json else {
        return Err(Fault::refused(alloc, 62, 0, "tree"));
    };
    match tree_in(alloc, members) {
        Ok(tree) => {
            tree.is_tree();
            Ok(tree)
        }
        Err(Misread::Form) => Err(Fault::refused(alloc, 62, 0, "tree")),
        Err(Misread::Memory(m)) => Err(Fault::Memory(m)),
    }
}
