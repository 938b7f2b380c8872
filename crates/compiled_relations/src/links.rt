//! What comes before symbolic links: the files to which they lead.

ghost use Rattle.std.specs.Prelude.{◌≡◌, ◌++◌, option_map, IfOk, OnOk};
ghost use Rattle.fs_lang.specs.Fronts.{is_front};
ghost use Rattle.graph_semantics.specs.Automatic.{text_or, path_text_of};
ghost use Rattle.compiled_relations.specs.Links.{is_file, managed_path, link_target, file_at, files_from, leads_out, leads_to, targets_among, before_one, ahead_of, pairs_from, link_pairs, related_pairs, kept_behind, reference_at, relation_of, with_relations, with_links};

use crate::pairs::PlacePairs;
use crate::paths::path_in;
use crate::related::related_pairs;
use catalog::Catalog;
use catalog_semantics::{Relation, Resource, Sort};
use fs_lang::Path;
use pp_value::{Ref, Value};
use rh_base::{NoMemory, Seq, Text};
use std::alloc::Global;

/// A file by its place, its path, and how that is written.
#[derive(Drop)]
pub struct LinkedFile {
    pub place: u32,
    pub path: Path,
    pub text: Text,
}

/// Whether a resource is a real file of Puppet's own type.
fn is_file(r: &Resource) -> bool
    ensures { result ≡ is_file r.now }
{
    let is_named_so = r.id.kind.as_str() == "file";
    let is_plain = r.sort == Sort::Plain;
    is_named_so && is_plain && !r.is_virtual
}

/// A text, or this one where nothing is given; another value is none, undef too.
fn text_if_given<'r>(other: &'r str, value: Option<&'r Value>) -> Option<&'r str>
    ensures { option_map (λ t. t.now) result ≡ text_or other.now (option_map (λ x. x.now) value.entry) }
{
    match value {
        None => Some(other),
        Some(Value::Str(text)) => Some(text.as_str()),
        Some(_) => None,
    }
}

fn path_text_of(r: &Resource) -> Option<&str>
    ensures { option_map (λ t. t.now) result ≡ path_text_of r.now }
{
    text_if_given(r.id.title.as_str(), r.attrs.find("path"))
}

/// The path that a file manages, if its text spells one.
fn managed_path(alloc: Global, r: &Resource) -> Result<Option<Path>, NoMemory>
    ensures { IfOk result (λ path. path ≡ managed_path r.now) }
{
    if !is_file(r) {
        return Ok(None);
    }
    match path_text_of(r) {
        Some(text) => path_in(alloc, text),
        None => Ok(None),
    }
}

/// The text of what a link leads to.
fn link_target(r: &Resource) -> Option<&str>
    ensures { option_map (λ t. t.now) result ≡ link_target r.now }
{
    if !is_file(r) {
        return None;
    }
    match r.attrs.find("target") {
        Some(Value::Str(text)) => Some(text.as_str()),
        _ => None,
    }
}

/// Adds the file at a place, if its path is one.
fn push_file(
    alloc: Global,
    place: u32,
    r: &Resource,
    files: &mut Seq<LinkedFile>,
) -> Result<(), NoMemory>
    ensures { OnOk result (files.new ≡ files.old ++ file_at place (managed_path r.now)) }
{
    let Some(path) = managed_path(alloc, r)? else {
        return Ok(());
    };
    let text = path.text(alloc)?;
    files.push(LinkedFile { place, path, text })
}

/// The files of a catalog.
fn files_of(alloc: Global, catalog: &Catalog) -> Result<Seq<LinkedFile>, NoMemory>
    ensures { IfOk result (λ files. files ≡ files_from 0 catalog.now.resources) }
{
    let mut files = Seq::new(alloc);
    for place in 0..catalog.count() {
        push_file(alloc, place, catalog.get(place), &mut files)?;
    }
    Ok(files)
}

/// Whether the second begins with the first, or is it.
fn is_front(p: &[Text], q: &[Text]) -> bool
    ensures { result ≡ is_front p.now q.now }
{
    let mut front = p;
    let mut rest = q;
    while let Some((s, front_more)) = front.split_first() {
        let Some((r, rest_more)) = rest.split_first() else {
            return false;
        };
        if s.as_str() != r.as_str() {
            return false;
        }
        front = front_more;
        rest = rest_more;
    }
    true
}

/// Whether a path isn't at or under a link's own.
fn leads_out(own: Option<&Path>, path: &Path) -> bool
    ensures { result ≡ leads_out (option_map (λ p. p.now) own.entry) path.now }
{
    match own {
        Some(own) => !is_front(own.segments(), path.segments()),
        None => true,
    }
}

/// Whether a link with this target, and perhaps a path of its own, leads to a file.
fn leads_to(own: Option<&Path>, target: &str, f: &LinkedFile) -> bool
    ensures { result ≡ leads_to (option_map (λ p. p.now) own.entry) target.now f.now }
{
    let is_target = target == f.text.as_str();
    is_target && leads_out(own, &f.path)
}

/// Adds the files to which a link leads, each before the place of the link.
fn push_targets(
    own: Option<&Path>,
    target: &str,
    files: &[LinkedFile],
    place: u32,
    pairs: &mut Seq<(u32, u32)>,
) -> Result<(), NoMemory>
    ensures { OnOk result (pairs.new ≡ pairs.old ++ before_one
        (targets_among (option_map (λ p. p.now) own.entry) target.now files.now) place) }
{
    for f in files {
        if leads_to(own, target, f) {
            pairs.push((f.place, place))?;
        }
    }
    Ok(())
}

/// Adds what comes before a resource because that leads to it as a link.
fn push_ahead(
    alloc: Global,
    files: &[LinkedFile],
    place: u32,
    r: &Resource,
    pairs: &mut Seq<(u32, u32)>,
) -> Result<(), NoMemory>
    ensures { OnOk result (pairs.new ≡ pairs.old ++ ahead_of files.now place r.now (link_target r.now)) }
{
    let Some(target) = link_target(r) else {
        return Ok(());
    };
    let own = managed_path(alloc, r)?;
    push_targets(own.as_ref(), target, files, place, pairs)
}

/// What comes before which link, link by link.
fn link_pairs(alloc: Global, catalog: &Catalog) -> Result<Seq<(u32, u32)>, NoMemory>
    ensures { IfOk result (λ pairs. pairs ≡ link_pairs catalog.now) }
{
    let files = files_of(alloc, catalog)?;
    let mut pairs = Seq::new(alloc);
    for place in 0..catalog.count() {
        push_ahead(
            alloc,
            files.as_slice(),
            place,
            catalog.get(place),
            &mut pairs,
        )?;
    }
    Ok(pairs)
}

/// Those of the pairs between which no relation stands, neither by the first pairs nor by one that was kept before.
fn kept_behind(
    alloc: Global,
    before: PlacePairs,
    pairs: &[(u32, u32)],
) -> Result<Seq<(u32, u32)>, NoMemory>
    ensures { IfOk result (λ kept. kept ≡ kept_behind before pairs.now) }
{
    let mut seen = before;
    let mut kept = Seq::new(alloc);
    for pair in pairs {
        if seen.stands_between(*pair) {
            continue;
        }
        seen.insert(*pair)?;
        kept.push(*pair)?;
    }
    Ok(kept)
}

/// The reference of the resource at a place.
fn reference_at(alloc: Global, catalog: &Catalog, place: u32) -> Result<Seq<Ref>, NoMemory>
    ensures { IfOk result (λ refs. refs ≡ reference_at catalog.now place) }
{
    let mut refs = Seq::new(alloc);
    if place < catalog.count() {
        refs.push(catalog.get(place).id.copy(alloc)?)?;
    }
    Ok(refs)
}

/// The resource at the one place comes before that at the other.
fn relation_of(alloc: Global, catalog: &Catalog, pair: (u32, u32)) -> Result<Relation, NoMemory>
    ensures { IfOk result (λ q. q ≡ relation_of catalog.now pair) }
{
    let from = reference_at(alloc, catalog, pair.0)?;
    let to = reference_at(alloc, catalog, pair.1)?;
    Ok(Relation { from, to, at: 0 })
}

/// Adds the relations of these pairs.
fn add_relations(alloc: Global, pairs: &[(u32, u32)], catalog: &mut Catalog) -> Result<(), NoMemory>
    ensures { OnOk result (catalog.new ≡ with_relations catalog.old pairs.now) }
{
    for pair in pairs {
        let relation = relation_of(alloc, catalog, *pair)?;
        catalog.relate(relation)?;
    }
    Ok(())
}

/// Adds what comes before each link, link by link: the files to which it leads, unless a relation stands directly between the two.
pub fn add_links(alloc: Global, catalog: &mut Catalog) -> Result<(), NoMemory>
    ensures { OnOk result (catalog.new ≡ with_links catalog.old) }
{
    let pairs = link_pairs(alloc, catalog)?;
    let related = related_pairs(alloc, catalog)?;
    let kept = kept_behind(alloc, related, pairs.as_slice())?;
    add_relations(alloc, kept.as_slice(), catalog)
}
