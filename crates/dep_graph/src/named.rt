//! Automatic edges to users and groups that resources name.

ghost use Rattle.std.specs.Prelude.{◌≡◌, ◌<◌, ◌++◌, ◌∷◌, [], codes, is_some, option_map, slice_get, IfOk, OnOk};
ghost use Rattle.std.specs.List.{All, flat_map};
ghost use Rattle.pp_eval.specs.Evaluation.{text_of, texts_of, titles_of};
ghost use Rattle.catalog_semantics.specs.States.{declared_bound};
ghost use Rattle.graph_semantics.specs.Automatic.{text_or, name_of, is_somebody, somebodies, list_or_none, text_in, texts_in, user_or_root, attribute};
ghost use Rattle.dep_graph.specs.Named.{is_linked, kept_edge, is_proper, has_name, named_targets, member_text, targets_by_names, kept_edges, edges_by_names, named_edges};

use crate::links::Link;
use crate::targets::resource_at;
use catalog::Catalog;
use catalog_semantics::Resource;
use fs_lang::{PathFault, segment};
use pp_value::Value;
use rh_base::{NoMemory, Seq};
use std::alloc::Global;

/// A text, or another where nothing is given.
pub fn text_or<'a>(other: &'a str, value: Option<&'a Value>) -> Option<&'a str>
    ensures { option_map (λ t. t.now) result ≡ text_or other.now (option_map (λ x. x.now) value.entry) }
{
    match value {
        None => Some(other),
        Some(Value::Str(text)) => Some(text.as_str()),
        Some(_) => None,
    }
}

/// The name of what a resource manages.
fn name_of(r: &Resource) -> Option<&str>
    ensures { option_map (λ t. t.now) result ≡ name_of r.now }
{
    text_or(r.id.title.as_str(), r.attrs.find("name"))
}

fn is_linked(links: &[Link], a: u32, b: u32) -> bool
    ensures { result ≡ is_linked links.now a b }
{
    for link in links {
        let from = link.from.as_slice().contains(&a);
        let to = link.to.as_slice().contains(&b);
        if from && to {
            return true;
        }
    }
    false
}

/// Adds the edge from a target, unless a relation stands to it.
fn push_kept(
    links: &[Link],
    target: u32,
    place: u32,
    edges: &mut Seq<(u32, u32)>,
) -> Result<(), NoMemory>
    requires target { target < declared_bound }
    requires place { place < declared_bound }
    ensures { OnOk result (edges.new ≡ edges.old ++ kept_edge links.now target place) }
{
    if is_linked(links, 2 * place, 2 * target) {
        return Ok(());
    }
    edges.push((2 * target, 2 * place))
}

/// Whether a text may be a name.
#[tactic(auto, using(crate::proofs::NamedLaws::named_told, crate::proofs::NamedLaws::unnamed_told))]
fn is_proper(alloc: Global, name: &str) -> Result<bool, NoMemory>
    ensures { IfOk result (λ t. t ≡ is_proper name.now) }
{
    match segment(alloc, name) {
        Ok(_) => Ok(true),
        Err(PathFault::Bad) => Ok(false),
        Err(PathFault::Memory(m)) => Err(m),
    }
}

/// Whether a text has other characters than digits.
fn is_somebody(name: &str) -> bool
    ensures { result ≡ is_somebody name.now }
{
    let bytes = name.as_bytes();
    for c in bytes {
        if !c.is_ascii_digit() {
            return true;
        }
    }
    false
}

fn has_name(r: Option<&Resource>, kind: &str, name: &str) -> bool
    ensures { result ≡ has_name kind.now name.now (option_map (λ r. r.now) r.entry) }
{
    let Some(r) = r else {
        return false;
    };
    if r.id.kind.as_str() != kind {
        return false;
    }
    match name_of(r) {
        Some(text) => text == name,
        None => false,
    }
}

/// Adds the places of all that have a name.
fn push_targets(
    alloc: Global,
    catalog: &Catalog,
    plain: &[u32],
    kind: &str,
    name: &str,
    targets: &mut Seq<u32>,
) -> Result<(), NoMemory>
    ensures { OnOk result (targets.new ≡ targets.old ++ named_targets catalog.now plain.now (kind.now, name.now)) }
{
    if !is_proper(alloc, name)? {
        return Ok(());
    }
    for place in plain {
        if has_name(resource_at(catalog, *place), kind, name) {
            targets.push(*place)?;
        }
    }
    Ok(())
}

/// Adds those whom a name means, if it means anybody.
fn push_somebody(
    alloc: Global,
    catalog: &Catalog,
    plain: &[u32],
    kind: &str,
    name: &str,
    targets: &mut Seq<u32>,
) -> Result<(), NoMemory>
    ensures { OnOk result (targets.new ≡ targets.old ++ flat_map (named_targets catalog.now plain.now)
        (somebodies kind.now (name.now ∷ []))) }
{
    if !is_somebody(name) {
        return Ok(());
    }
    push_targets(alloc, catalog, plain, kind, name, targets)
}

fn text_of(value: &Value) -> Option<&str>
    ensures { option_map (λ t. t.now) result ≡ text_of value.now }
{
    match value {
        Value::Str(text) => Some(text.as_str()),
        _ => None,
    }
}

/// Adds those whom the text of an attribute means.
fn push_text(
    alloc: Global,
    catalog: &Catalog,
    plain: &[u32],
    kind: &str,
    value: Option<&Value>,
    targets: &mut Seq<u32>,
) -> Result<(), NoMemory>
    ensures { OnOk result (targets.new ≡ targets.old ++ flat_map (named_targets catalog.now plain.now)
        (somebodies kind.now (text_in (option_map (λ x. x.now) value.entry)))) }
{
    let Some(value) = value else {
        return Ok(());
    };
    match text_of(value) {
        Some(name) => push_somebody(alloc, catalog, plain, kind, name, targets),
        None => Ok(()),
    }
}

/// Whether all of these are texts.
fn are_texts(items: &[Value]) -> bool
    ensures { result ≡ is_some (texts_of items.now) }
{
    for item in items {
        if text_of(item).is_none() {
            return false;
        }
    }
    true
}

/// Adds those whom the texts among these mean.
fn push_members(
    alloc: Global,
    catalog: &Catalog,
    plain: &[u32],
    kind: &str,
    items: &[Value],
    targets: &mut Seq<u32>,
) -> Result<(), NoMemory>
    ensures { OnOk result (targets.new ≡ targets.old ++ flat_map (named_targets catalog.now plain.now)
        (somebodies kind.now (flat_map member_text items.now))) }
{
    for item in items {
        push_text(alloc, catalog, plain, kind, Some(item), targets)?;
    }
    Ok(())
}

/// Adds those whom the members of a list mean, if all are texts.
#[tactic(auto, using(crate::proofs::NamedLaws::all_texts, crate::proofs::NamedLaws::no_texts))]
fn push_listed(
    alloc: Global,
    catalog: &Catalog,
    plain: &[u32],
    kind: &str,
    items: &[Value],
    targets: &mut Seq<u32>,
) -> Result<(), NoMemory>
    ensures { OnOk result (targets.new ≡ targets.old ++ flat_map (named_targets catalog.now plain.now)
        (somebodies kind.now (list_or_none (texts_of items.now)))) }
{
    if !are_texts(items) {
        return Ok(());
    }
    push_members(alloc, catalog, plain, kind, items, targets)
}

/// Adds those whom a text or a list of texts means.
fn push_titles(
    alloc: Global,
    catalog: &Catalog,
    plain: &[u32],
    kind: &str,
    value: &Value,
    targets: &mut Seq<u32>,
) -> Result<(), NoMemory>
    ensures { OnOk result (targets.new ≡ targets.old ++ flat_map (named_targets catalog.now plain.now)
        (somebodies kind.now (list_or_none (titles_of value.now)))) }
{
    match value {
        Value::Str(name) => push_somebody(alloc, catalog, plain, kind, name.as_str(), targets),
        Value::List(items) => push_listed(alloc, catalog, plain, kind, items.as_slice(), targets),
        _ => Ok(()),
    }
}

/// Adds those whom the text or the texts of an attribute mean.
fn push_texts(
    alloc: Global,
    catalog: &Catalog,
    plain: &[u32],
    kind: &str,
    value: Option<&Value>,
    targets: &mut Seq<u32>,
) -> Result<(), NoMemory>
    ensures { OnOk result (targets.new ≡ targets.old ++ flat_map (named_targets catalog.now plain.now)
        (somebodies kind.now (texts_in (option_map (λ x. x.now) value.entry)))) }
{
    match value {
        Some(value) => push_titles(alloc, catalog, plain, kind, value, targets),
        None => Ok(()),
    }
}

/// Adds the user of a cron job.
fn push_user_or_root(
    alloc: Global,
    catalog: &Catalog,
    plain: &[u32],
    value: Option<&Value>,
    targets: &mut Seq<u32>,
) -> Result<(), NoMemory>
    ensures { OnOk result (targets.new ≡ targets.old ++ flat_map (named_targets catalog.now plain.now)
        (somebodies (codes "user") (user_or_root (option_map (λ x. x.now) value.entry)))) }
{
    match value {
        None => push_somebody(alloc, catalog, plain, "user", "root", targets),
        given => push_text(alloc, catalog, plain, "user", given, targets),
    }
}

/// Adds the user and the group of a file.
fn push_owners(
    alloc: Global,
    catalog: &Catalog,
    plain: &[u32],
    r: &Resource,
    targets: &mut Seq<u32>,
) -> Result<(), NoMemory>
    ensures { OnOk result (targets.new ≡ targets.old ++ flat_map (named_targets catalog.now plain.now)
        (somebodies (codes "user") (text_in (attribute r.now (codes "owner"))) ++ somebodies (codes "group")
        (text_in (attribute r.now (codes "group"))))) }
{
    let owner = r.attrs.find("owner");
    push_text(alloc, catalog, plain, "user", owner, targets)?;
    let group = r.attrs.find("group");
    push_text(alloc, catalog, plain, "group", group, targets)
}

/// Adds the groups of a user.
fn push_groups(
    alloc: Global,
    catalog: &Catalog,
    plain: &[u32],
    r: &Resource,
    targets: &mut Seq<u32>,
) -> Result<(), NoMemory>
    ensures { OnOk result (targets.new ≡ targets.old ++ flat_map (named_targets catalog.now plain.now)
        (somebodies (codes "group")
        (text_in (attribute r.now (codes "gid")) ++ texts_in (attribute r.now (codes "groups"))))) }
{
    let gid = r.attrs.find("gid");
    push_text(alloc, catalog, plain, "group", gid, targets)?;
    let groups = r.attrs.find("groups");
    push_texts(alloc, catalog, plain, "group", groups, targets)
}

/// The places of what a resource names, a line for each type.
fn targets_by_names(
    alloc: Global,
    catalog: &Catalog,
    plain: &[u32],
    r: &Resource,
) -> Result<Seq<u32>, NoMemory>
    ensures { IfOk result (λ targets. targets ≡ targets_by_names catalog.now plain.now r.now) }
{
    let mut targets = Seq::new(alloc);
    let kind = r.id.kind.as_str();
    if kind == "file" {
        push_owners(alloc, catalog, plain, r, &mut targets)?;
    } else if kind == "user" {
        push_groups(alloc, catalog, plain, r, &mut targets)?;
    } else if kind == "cron" {
        push_user_or_root(alloc, catalog, plain, r.attrs.find("user"), &mut targets)?;
    } else if kind == "ssh_authorized_key" {
        let user = r.attrs.find("user");
        push_text(alloc, catalog, plain, "user", user, &mut targets)?;
    }
    Ok(targets)
}

/// Adds the edges from some targets.
pub fn push_all_kept(
    links: &[Link],
    place: u32,
    targets: &[u32],
    edges: &mut Seq<(u32, u32)>,
) -> Result<(), NoMemory>
    requires place { place < declared_bound }
    requires targets { All (λ target. target < declared_bound) targets.now }
    ensures { OnOk result (edges.new ≡ edges.old ++ kept_edges links.now place targets.now) }
{
    for target in targets {
        push_kept(links, *target, place, edges)?;
    }
    Ok(())
}

/// Adds the edges from what the resource at a place names.
fn push_by_names(
    alloc: Global,
    catalog: &Catalog,
    links: &[Link],
    plain: &[u32],
    place: u32,
    edges: &mut Seq<(u32, u32)>,
) -> Result<(), NoMemory>
    requires plain { All (λ p. p < declared_bound) plain.now }
    requires place { place < declared_bound }
    ensures { OnOk result (edges.new ≡ edges.old ++ edges_by_names catalog.now links.now plain.now place
        (slice_get catalog.now.resources place)) }
{
    let Some(r) = resource_at(catalog, place) else {
        return Ok(());
    };
    let targets = targets_by_names(alloc, catalog, plain, r)?;
    push_all_kept(links, place, targets.as_slice(), edges)
}

/// Adds the edges from what the plain resources name.
pub fn push_named_edges(
    alloc: Global,
    catalog: &Catalog,
    links: &[Link],
    plain: &[u32],
    edges: &mut Seq<(u32, u32)>,
) -> Result<(), NoMemory>
    requires plain { All (λ p. p < declared_bound) plain.now }
    ensures { OnOk result (edges.new ≡ edges.old ++ named_edges catalog.now links.now plain.now plain.now) }
{
    for place in plain {
        push_by_names(alloc, catalog, links, plain, *place, edges)?;
    }
    Ok(())
}
