//! Attributes as models are asked about them.

ghost use Rattle.std.specs.Prelude.{◌≡◌, ◌&&◌, not, codes, IfOk, option_and_then};
ghost use Rattle.std.specs.List.{list_any};
ghost use Rattle.fs_semantics.specs.FileTree.{path_eq};
ghost use Rattle.fs_lang.specs.Reading.{path_in};
ghost use Rattle.model_semantics.specs.Attributes.{attributes_fit, is_link};
ghost use Rattle.model_semantics.specs.Names.{Meets, text_at};
ghost use Rattle.model_semantics.specs.declared.kinds.Kind.TheVariants as kind;
ghost use Rattle.assumed_models.specs.Edits.{edits_beside};
ghost use Rattle.compiled_models.specs.Files.{is_spared, without_replace, attributes_asked};
ghost use Rattle.compiled_models.specs.Programs.{is_edited, copies_edited, attributes_with, asked_of};

use crate::files::is_spared;
use assumed_models::Edit;
use catalog_semantics::Resource;
use fs_lang::Path;
use given_links::{GivenLink, read_path};
use model_attributes::{attributes_fit, text_at};
use model_names::spelled;
use model_semantics::{Ensure, Kind, ModelFault};
use pp_value::{Pairs, Value, copy_pairs, distinct_pairs_are_kept};
use rh_base::{NoMemory, Text};
use std::alloc::Global;

/// Whether what stands there already stays, and that may be said of it: it is to be no link.
fn may_be_spared(e: Ensure, r: &Resource) -> bool
    ensures { result ≡ is_spared r.now && not (is_link e) }
{
    let spared = is_spared(r);
    let link = matches!(e, Ensure::Link);
    spared && !link
}

/// The attributes but `replace`.
fn without_replace(alloc: Global, attrs: &Pairs) -> Result<Pairs, NoMemory>
    ensures { IfOk result (λ rest. rest ≡ without_replace attrs.now) }
{
    distinct_pairs_are_kept();
    let mut rest = Pairs::new(alloc);
    for pair in attrs.as_slice() {
        if pair.0.as_str() != "replace" {
            let name = pair.0.copy(alloc)?;
            let value = pair.1.copy(alloc)?;
            rest.put(name, value)?;
        }
    }
    Ok(rest)
}

/// The attributes, but for `replace` where a file may say that it is false.
fn attributes_asked(alloc: Global, e: Ensure, r: &Resource) -> Result<Pairs, NoMemory>
    ensures { IfOk result (λ attrs. attrs ≡ attributes_asked e r.now) }
{
    if may_be_spared(e, r) {
        return without_replace(alloc, &r.attrs);
    }
    copy_pairs(alloc, &r.attrs)
}

/// The same, where a copy is refused.
fn attributes_with(alloc: Global, refused: bool, attrs: Pairs) -> Result<Pairs, NoMemory>
    ensures { IfOk result (λ asked. asked ≡ attributes_with refused attrs) }
{
    let mut asked = attrs;
    if refused {
        let mut name = Text::new(alloc);
        name.push("source")?;
        asked.put(name, Value::Opaque)?;
    }
    Ok(asked)
}

/// The path that a text spells, if it spells one.
fn path_in(alloc: Global, text: &str) -> Result<Option<Path>, NoMemory>
    ensures { IfOk result (λ p. p ≡ path_in text.now) }
{
    match spelled(alloc, text) {
        Ok(path) => Ok(Some(path)),
        Err(ModelFault::Because(_)) => Ok(None),
        Err(ModelFault::Memory(m)) => Err(m),
    }
}

/// The path of which a file is to be a copy, if it is to be one.
fn source_of(alloc: Global, r: &Resource) -> Result<Option<Path>, NoMemory>
    ensures { IfOk result (λ p. p ≡ option_and_then path_in (text_at (codes "source") r.now.attrs)) }
{
    match text_at(&r.attrs, "source") {
        Some(text) => path_in(alloc, text.as_str()),
        None => Ok(None),
    }
}

/// Whether others than the resource at a place edit a path, which was read through the links.
fn is_among_edits(edits: &[Edit], place: usize, p: &Path) -> bool
    ensures { result ≡ list_any (λ e. path_eq e.path p.now) (edits_beside place edits.now) }
{
    for edit in edits {
        if edit.place != place && edit.path == *p {
            return true;
        }
    }
    false
}

/// Whether the source is a path that others edit.
fn copies_edited(
    alloc: Global,
    links: &[GivenLink],
    edits: &[Edit],
    place: usize,
    r: &Resource,
) -> Result<bool, NoMemory>
    ensures { IfOk result (λ b. b ≡ copies_edited links.now (edits_beside place edits.now) r.now) }
{
    let Some(path) = source_of(alloc, r)? else {
        return Ok(false);
    };
    let read = read_path(alloc, links, &path)?;
    Ok(is_among_edits(edits, place, &read))
}

/// Whether the attributes of a file are accepted, or one is refused. Mostly they are asked about as they stand.
fn file_fits(alloc: Global, refused: bool, e: Ensure, r: &Resource) -> Result<(), ModelFault>
    ensures { Meets (λ done. done) (attributes_fit kind.File e (attributes_with refused (attributes_asked e r.now))) result }
{
    if !refused {
        if !may_be_spared(e, r) {
            return attributes_fit(alloc, Kind::File, e, &r.attrs);
        }
    }
    let plain = attributes_asked(alloc, e, r)?;
    let asked = attributes_with(alloc, refused, plain)?;
    attributes_fit(alloc, Kind::File, e, &asked)
}

/// Whether the attributes of a resource are accepted, or one is refused.
pub(crate) fn native_fits(
    alloc: Global,
    links: &[GivenLink],
    edits: &[Edit],
    place: usize,
    k: Kind,
    e: Ensure,
    r: &Resource,
) -> Result<(), ModelFault>
    ensures { Meets (λ done. done) (attributes_fit k e (asked_of links.now (edits_beside place edits.now) k e r.now)) result }
{
    match k {
        Kind::File => {
            let refused = copies_edited(alloc, links, edits, place, r)?;
            file_fits(alloc, refused, e, r)
        }
        Kind::Package | Kind::User | Kind::Group | Kind::Service | Kind::Cron | Kind::Key =>
            attributes_fit(alloc, k, e, &r.attrs),
    }
}
