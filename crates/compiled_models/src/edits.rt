//! The edits of files that are assumed.

ghost use Rattle.std.specs.Prelude.{◌≡◌, ◌++◌, ◌<◌, length, map, IfOk, OnOk};
ghost use Rattle.std.specs.List.{AllByRecursion};
ghost use Rattle.compiled_models.specs.Programs.{edit_at, edits_by, edits_of, assumed_of, natives_at};
ghost use Rattle.compiled_models.specs.Hosts.{IsSound, setting_of, native_of};

use crate::host::Host;
use crate::natives::{Native, native_at};
use crate::premises::assumed_at;
use assumed_models::{Edit, Edits, edit_mark};
use assumed_text::Assumed;
use catalog::Catalog;
use fs_lang::Path;
use given_links::{GivenLink, read_path};
use rh_base::{NoMemory, Seq};
use std::alloc::Global;

/// The edit of a file by a resource.
fn edit_at(alloc: Global, links: &[GivenLink], n: &Native<'_>, p: &Path) -> Result<Edit, NoMemory>
    ensures { IfOk result (λ e. e ≡ edit_at links.now (native_of n.now) p.now) }
{
    let path = read_path(alloc, links, p)?;
    let mark = edit_mark(alloc, n.resource, p)?;
    Ok(Edit {
        place: n.place as usize,
        path,
        mark,
    })
}

/// Adds the edits of a behavior.
fn push_edits(
    alloc: Global,
    links: &[GivenLink],
    n: &Native<'_>,
    paths: &[Path],
    edits: &mut Seq<Edit>,
) -> Result<(), NoMemory>
    ensures { OnOk result (edits.new ≡ edits.old ++ map (edit_at links.now (native_of n.now)) paths.now) }
{
    for p in paths {
        edits.push(edit_at(alloc, links, n, p)?)?;
    }
    Ok(())
}

/// Adds the edits that are assumed of a resource.
fn push_assumed(
    alloc: Global,
    host: &Host<'_>,
    n: &Native<'_>,
    edits: &mut Seq<Edit>,
) -> Result<(), NoMemory>
    requires { IsSound host.now }
    ensures { OnOk result (edits.new ≡ edits.old ++ edits_by host.now.links.now (native_of n.now)
        (assumed_of (setting_of host.now) (native_of n.now))) }
{
    match assumed_at(alloc, &host.premises, n.place as usize, n.text)? {
        Some(Assumed::Does(behavior)) => {
            push_edits(alloc, host.links, n, behavior.edits.as_slice(), edits)
        }
        Some(Assumed::Nothing) | Some(Assumed::Refused) | None => Ok(()),
    }
}

/// The edits of the resources at these places.
pub(crate) fn edits_of(
    alloc: Global,
    host: &Host<'_>,
    catalog: &Catalog,
    plain: &[u32],
) -> Result<Edits, NoMemory>
    requires sound { IsSound host.now }
    requires told { AllByRecursion (λ i. i < length host.now.catalog.now.resources) plain.now }
    requires made { AllByRecursion (λ i. i < length catalog.now.resources) plain.now }
    ensures { IfOk result (λ e. e ≡ edits_of (setting_of host.now)
        (natives_at host.now.catalog.now.resources catalog.now.resources plain.now)) }
{
    let mut edits = Seq::new(alloc);
    for place in plain {
        let n = native_at(host.catalog, catalog, *place);
        push_assumed(alloc, host, &n, &mut edits)?;
    }
    Edits::of(alloc, edits)
}
