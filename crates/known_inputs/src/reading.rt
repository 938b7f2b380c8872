//! Reading the files of a request, but for a manifest.

ghost use Rattle.std.specs.Prelude.{◌≡◌, ◌↔◌, IsTrue, false, IfOk, IfErr, OnOk};
ghost use Rattle.std.specs.Option.{option_map};
ghost use Rattle.rh_base.specs.Refused.{IfRefused};
ghost use Rattle.fs_semantics.specs.FileTree.{is_dir};
ghost use Rattle.given_hosts.specs.Given.{Stand};
ghost use Rattle.given_links.specs.Reading.{read_as};
ghost use Rattle.command_line.specs.declared.table.Role.TheVariants as role;
ghost use Rattle.known_inputs.specs.Inputs.{bytes_of, AreFactsOf, IsListingOf, AreDataOf, IsTreeOf, IsCompiledOf, AreAssumedOf, IsGivenOf, BeginsIn, edited_in, wants_edited, HasNoFacts, HasNoListing, HasNoData, HasNoTree, HasNoCompiled, HasNoAssumptions, HasNoGiven, LacksGiven, AreTold, AreNamed, IsKnown, FirstUnread};

use crate::edited::check_edits;
use crate::inputs::{Inputs, Known};
use assumed_text::{Assumptions, assumptions_from_json};
use command_line::Role;
use compiled_text::{CompiledCatalog, compiled_from_json};
use fs_lang::{Entry, Path, Tree};
use given_links::path_readings;
use given_text::{Given, folder_tree, given_from_json};
use pkg_listing::{Listing, listing_from_json};
use pp_data::{Data, data_from_json};
use pp_eval::facts_from_json;
use pp_value::{Pairs, Value};
use rh_base::{Fault, Seq};
use std::alloc::Global;
use tree_text::tree_from_json;

/// The facts of a text; there are none without it.
fn facts_of(alloc: Global, bytes: Option<&[u8]>) -> Result<Value, Fault>
    ensures facts { IfOk result (AreFactsOf (option_map (λ b. b.now) bytes.entry)) }
    ensures refused { IfErr result (λ e. IfRefused e (HasNoFacts (option_map (λ b. b.now) bytes.entry))) }
{
    match bytes {
        Some(bytes) => facts_from_json(alloc, bytes),
        None => Ok(Value::Map(Pairs::new(alloc))),
    }
}

/// The listing of a text; it is empty without one.
fn listing_of(alloc: Global, bytes: Option<&[u8]>) -> Result<Listing, Fault>
    ensures listing { IfOk result (IsListingOf (option_map (λ b. b.now) bytes.entry)) }
    ensures refused { IfErr result (λ e. IfRefused e (HasNoListing (option_map (λ b. b.now) bytes.entry))) }
{
    match bytes {
        Some(bytes) => listing_from_json(alloc, bytes),
        None => Ok(Listing::empty(alloc)?),
    }
}

/// The class data of a text; there are none without it.
fn class_data_of(alloc: Global, bytes: Option<&[u8]>) -> Result<Data, Fault>
    ensures levels { IfOk result (AreDataOf (option_map (λ b. b.now) bytes.entry)) }
    ensures refused { IfErr result (λ e. IfRefused e (HasNoData (option_map (λ b. b.now) bytes.entry))) }
{
    match bytes {
        Some(bytes) => data_from_json(alloc, bytes),
        None => Ok(Data::empty(alloc)),
    }
}

/// The file tree of a text, if there is one.
fn tree_of(alloc: Global, bytes: Option<&[u8]>) -> Result<Option<Tree>, Fault>
    ensures tree { IfOk result (IsTreeOf (option_map (λ b. b.now) bytes.entry)) }
    ensures refused { IfErr result (λ e. IfRefused e (HasNoTree (option_map (λ b. b.now) bytes.entry))) }
{
    match bytes {
        Some(bytes) => Ok(Some(tree_from_json(alloc, bytes)?)),
        None => Ok(None),
    }
}

/// The compiled catalog of a text, if there is one.
pub fn compiled_of(alloc: Global, bytes: Option<&[u8]>) -> Result<Option<CompiledCatalog>, Fault>
    ensures compiled { IfOk result (IsCompiledOf (option_map (λ b. b.now) bytes.entry)) }
    ensures refused { IfErr result (λ e. IfRefused e (HasNoCompiled (option_map (λ b. b.now) bytes.entry))) }
{
    match bytes {
        Some(bytes) => Ok(Some(compiled_from_json(alloc, bytes)?)),
        None => Ok(None),
    }
}

/// What a text assumes; it is nothing without one.
fn assumed_of(alloc: Global, bytes: Option<&[u8]>) -> Result<Assumptions, Fault>
    ensures assumed { IfOk result (AreAssumedOf (option_map (λ b. b.now) bytes.entry)) }
    ensures refused { IfErr result (λ e. IfRefused e (HasNoAssumptions (option_map (λ b. b.now) bytes.entry))) }
{
    match bytes {
        Some(bytes) => assumptions_from_json(alloc, bytes),
        None => Ok(Assumptions::none(alloc)),
    }
}

/// The folders and links of a text; there are none without it.
fn given_of(alloc: Global, bytes: Option<&[u8]>) -> Result<Given, Fault>
    ensures given { IfOk result (IsGivenOf (option_map (λ b. b.now) bytes.entry)) }
    ensures refused { IfErr result (λ e. IfRefused e (HasNoGiven (option_map (λ b. b.now) bytes.entry))) }
{
    match bytes {
        Some(bytes) => given_from_json(alloc, bytes),
        None => Ok(Given {
            folders: Seq::new(alloc),
            links: Seq::new(alloc),
        }),
    }
}

/// Whether a path is the root or a folder.
fn is_folder(tree: &Tree, p: &Path) -> bool
    ensures { result ≡ is_dir tree.now p.now }
{
    if p.segments().is_empty() {
        return true;
    }
    matches!(tree.get(p), Some(Entry::Folder))
}

/// Whether each of these is a folder in a tree.
fn stand(tree: &Tree, folders: &[Path]) -> bool
    ensures { IsTrue result ↔ Stand folders.now tree.now }
{
    for folder in folders {
        if !is_folder(tree, folder) {
            return false;
        }
    }
    true
}

/// The tree in which a run begins.
fn beginning(alloc: Global, told: Option<Tree>, folders: &[Path]) -> Result<Tree, Fault>
    ensures begins { IfOk result (BeginsIn told folders.now) }
    ensures refused { IfErr result (λ e. IfRefused e (LacksGiven told folders.now)) }
{
    match told {
        None => Ok(folder_tree(alloc, folders)?),
        Some(tree) => {
            if stand(&tree, folders) {
                Ok(tree)
            } else {
                Err(Fault::refused(alloc, 62, 0, "tree"))
            }
        }
    }
}

/// Facts, packages and class data.
#[derive(Drop)]
struct Told {
    facts: Value,
    listing: Listing,
    class_data: Data,
}

/// A tree, what is assumed, and a compiled catalog.
#[derive(Drop)]
struct Named {
    tree: Option<Tree>,
    assumed: Assumptions,
    compiled: Option<CompiledCatalog>,
}

/// What is told of a node.
#[tactic(auto, using(crate::proofs::ReadingLaws::listing_refused, crate::proofs::ReadingLaws::data_refused))]
fn told_of(alloc: Global, inputs: &Inputs) -> Result<Told, Fault>
    ensures told { IfOk result (λ r. AreTold inputs.now r.facts r.listing r.class_data) }
    ensures refused { IfErr result (λ e. IfRefused e (FirstUnread inputs.now)) }
{
    let facts = facts_of(alloc, inputs.bytes(Role::Facts))?;
    let listing = listing_of(alloc, inputs.bytes(Role::Packages))?;
    let class_data = class_data_of(alloc, inputs.bytes(Role::Data))?;
    Ok(Told {
        facts,
        listing,
        class_data,
    })
}

/// What the other files say, behind those that tell of a node.
#[tactic(auto, using(crate::proofs::ReadingLaws::tree_refused, crate::proofs::ReadingLaws::compiled_refused, crate::proofs::ReadingLaws::assumed_refused))]
fn named_of(alloc: Global, inputs: &Inputs, told: &Told) -> Result<Named, Fault>
    requires told { AreTold inputs.now told.now.facts told.now.listing told.now.class_data }
    ensures named { IfOk result (λ r. AreNamed inputs.now r.tree r.compiled r.assumed) }
    ensures refused { IfErr result (λ e. IfRefused e (FirstUnread inputs.now)) }
{
    let tree = tree_of(alloc, inputs.bytes(Role::Tree))?;
    let compiled = compiled_of(alloc, inputs.bytes(Role::Compiled))?;
    let assumed = assumed_of(alloc, inputs.bytes(Role::Assume))?;
    Ok(Named {
        tree,
        assumed,
        compiled,
    })
}

/// The folders and links that every host has, where nothing that is wanted is edited, as it stands and as they read it.
#[tactic(auto, using(crate::proofs::ReadingLaws::edits_refused, crate::proofs::ReadingLaws::given_refused, crate::proofs::ReadingLaws::edits_as_read_refused, crate::proofs::ReadingLaws::nothing_is_read))]
fn given_beside(alloc: Global, inputs: &Inputs, told: &Told, named: &Named) -> Result<Given, Fault>
    requires told { AreTold inputs.now told.now.facts told.now.listing told.now.class_data }
    requires named { AreNamed inputs.now named.now.tree named.now.compiled named.now.assumed }
    ensures given { IfOk result (IsGivenOf (bytes_of role.Given inputs.now)) }
    ensures apart { OnOk result (wants_edited (λ p. p) inputs.now.wanted (edited_in named.now.compiled named.now.assumed) ≡ false) }
    ensures apart_as_read { IfOk result
        (λ g. wants_edited (read_as g.links) inputs.now.wanted (edited_in named.now.compiled named.now.assumed)
        ≡ false) }
    ensures refused { IfErr result (λ e. IfRefused e (FirstUnread inputs.now)) }
{
    path_readings();
    let catalog = &named.compiled;
    let assumed = &named.assumed;
    check_edits(alloc, &[], &inputs.wanted, catalog, assumed)?;
    let given = given_of(alloc, inputs.bytes(Role::Given))?;
    let links = given.links.as_slice();
    check_edits(alloc, links, &inputs.wanted, catalog, assumed)?;
    Ok(given)
}

/// What the files of a request say, but for a manifest, with the compiled catalog that one of them is; or the refusal of the first that says
/// nothing.
#[tactic(auto, using(crate::proofs::ReadingLaws::lack_refused))]
pub fn known_inputs(
    alloc: Global,
    inputs: &Inputs,
) -> Result<(Known, Option<CompiledCatalog>), Fault>
    ensures known { IfOk result (λ r. IsKnown inputs.now r.0) }
    ensures compiled { IfOk result (λ r. IsCompiledOf (bytes_of role.Compiled inputs.now) r.1) }
    ensures refused { IfErr result (λ e. IfRefused e (FirstUnread inputs.now)) }
{
    let told = told_of(alloc, inputs)?;
    let named = named_of(alloc, inputs, &told)?;
    let given = given_beside(alloc, inputs, &told, &named)?;
    let tree = beginning(alloc, named.tree, given.folders.as_slice())?;
    let known = Known {
        facts: told.facts,
        listing: told.listing,
        class_data: told.class_data,
        tree,
        assumed: named.assumed,
        given,
    };
    Ok((known, named.compiled))
}
