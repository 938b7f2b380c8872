//! Whether a resource of a compiled catalog edits what is wanted, as it is assumed.

ghost use Rattle.std.specs.Prelude.{◌≡◌, map, false, IfOk, IfErr, OnOk};
ghost use Rattle.std.specs.Option.{option_map};
ghost use Rattle.rh_base.specs.Refused.{IfRefused};
ghost use Rattle.fs_semantics.specs.FileTree.{is_among};
ghost use Rattle.given_links.specs.Reading.{read_as};
ghost use Rattle.compiled_models.specs.Hosts.{ArePlaced};
ghost use Rattle.known_inputs.specs.Inputs.{edits_in, edits_at, edits_from, edited_in, wants_edited, WantsEdited};

use assumed_text::{Assumed, Assumptions};
use compiled_models::{Premises, assumed_at};
use compiled_text::{CompiledCatalog, CompiledResource};
use fs_lang::Path;
use given_links::{GivenLink, read_path};
use rh_base::{Fault, NoMemory};
use std::alloc::Global;
use wanted_entry::Wanted;

/// Whether a path is one of these, each read through the links.
fn is_among_read(
    alloc: Global,
    links: &[GivenLink],
    path: &Path,
    paths: &[Path],
) -> Result<bool, NoMemory>
    ensures { IfOk result (λ b. b ≡ is_among path.now (map (read_as links.now) paths.now)) }
{
    for other in paths {
        let read = read_path(alloc, links, other)?;
        if *path == read {
            return Ok(true);
        }
    }
    Ok(false)
}

/// Whether what is assumed of a resource, if something is, edits a path.
fn is_edited_by(
    alloc: Global,
    links: &[GivenLink],
    path: &Path,
    assumed: Option<&Assumed>,
) -> Result<bool, NoMemory>
    ensures { IfOk result (λ b. b ≡ is_among path.now (map (read_as links.now) (edits_in (option_map (λ x. x.now) assumed.entry)))) }
{
    match assumed {
        None | Some(Assumed::Nothing) | Some(Assumed::Refused) => Ok(false),
        Some(Assumed::Does(behavior)) => {
            is_among_read(alloc, links, path, behavior.edits.as_slice())
        }
    }
}

/// Whether the resource at a place edits a path.
fn is_edited_at(
    alloc: Global,
    links: &[GivenLink],
    path: &Path,
    premises: &Premises<'_>,
    place: usize,
    r: &CompiledResource,
) -> Result<bool, NoMemory>
    requires { ArePlaced premises.now }
    ensures { IfOk result (λ b. b ≡ is_among path.now
        (map (read_as links.now) (edits_at premises.now.resources.now premises.now.assumptions.now place r.now))) }
{
    if r.is_container {
        return Ok(false);
    }
    let assumed = assumed_at(alloc, premises, place, r)?;
    is_edited_by(alloc, links, path, assumed)
}

/// Whether one of the resources edits a path.
#[tactic(auto, using(crate::proofs::EditLaws::edited_by_first))]
fn is_edited(
    alloc: Global,
    links: &[GivenLink],
    path: &Path,
    premises: &Premises<'_>,
) -> Result<bool, NoMemory>
    requires { ArePlaced premises.now }
    ensures { IfOk result (λ b. b ≡ is_among path.now
        (map (read_as links.now)
        (edits_from premises.now.resources.now premises.now.assumptions.now 0 premises.now.resources.now))) }
{
    let mut place = 0;
    for r in premises.resources {
        if is_edited_at(alloc, links, path, premises, place, r)? {
            return Ok(true);
        }
        place += 1;
    }
    Ok(false)
}

/// Whether a resource of a compiled catalog, if there is one, edits a path, where each path is read through the links.
fn is_edited_in(
    alloc: Global,
    links: &[GivenLink],
    path: &Path,
    catalog: &Option<CompiledCatalog>,
    assumptions: &Assumptions,
) -> Result<bool, NoMemory>
    ensures { IfOk result (λ b. b ≡ is_among path.now (map (read_as links.now) (edited_in catalog.now assumptions.now))) }
{
    let Some(catalog) = catalog else {
        return Ok(false);
    };
    let premises = Premises::of(alloc, catalog.resources(), assumptions)?;
    is_edited(alloc, links, path, &premises)
}

/// Whether a content is wanted at a path that a resource edits, where each path is read through the links.
fn wants_edited(
    alloc: Global,
    links: &[GivenLink],
    wanted: &Option<Wanted>,
    catalog: &Option<CompiledCatalog>,
    assumptions: &Assumptions,
) -> Result<bool, NoMemory>
    ensures { IfOk result (λ b. b ≡ wants_edited (read_as links.now) wanted.now (edited_in catalog.now assumptions.now)) }
{
    let Some(wanted) = wanted else {
        return Ok(false);
    };
    if wanted.content.is_none() {
        return Ok(false);
    }
    let path = read_path(alloc, links, &wanted.path)?;
    is_edited_in(alloc, links, &path, catalog, assumptions)
}

/// Refused, where a content is wanted at a path that a resource edits.
pub fn check_edits(
    alloc: Global,
    links: &[GivenLink],
    wanted: &Option<Wanted>,
    catalog: &Option<CompiledCatalog>,
    assumptions: &Assumptions,
) -> Result<(), Fault>
    ensures apart { OnOk result (wants_edited (read_as links.now) wanted.now (edited_in catalog.now assumptions.now) ≡ false) }
    ensures refused { IfErr result (λ e. IfRefused e (WantsEdited (read_as links.now) wanted.now (edited_in catalog.now assumptions.now))) }
{
    if wants_edited(alloc, links, wanted, catalog, assumptions)? {
        return Err(Fault::refused(alloc, 66, 0, "assume"));
    }
    Ok(())
}
