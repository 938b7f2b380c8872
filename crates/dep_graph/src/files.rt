//! Automatic edges between files. "Nearest" counts segments: of the managed files above a path those with the most come before
//! it.

ghost use Rattle.std.specs.Prelude.{◌≡◌, ◌<◌, ◌++◌, ◌∷◌, [], ℕ, List, option_map, IfOk, OnOk};
ghost use Rattle.std.specs.List.{All};
ghost use Rattle.catalog_semantics.specs.States.{declared_bound};
ghost use Rattle.graph_semantics.specs.Automatic.{path_text_of};
ghost use Rattle.dep_graph.specs.Files.{PathIs, FilePathIs, AreFiles, is_above, nearest, is_nearest, nearest_places, file_edges};

use crate::links::Link;
use crate::named::{push_all_kept, text_or};
use crate::targets::resource_at;
use catalog::Catalog;
use catalog_semantics::Resource;
use fs_lang::{Path, PathFault, path_texts};
use rh_base::{NoMemory, Seq};
use std::alloc::Global;

/// A real file, by its place, and the path of what it manages.
#[derive(Drop)]
pub struct ManagedFile {
    pub path: Path,
    pub place: u32,
}

fn path_text_of(r: &Resource) -> Option<&str>
    ensures { option_map (λ t. t.now) result ≡ path_text_of r.now }
{
    text_or(r.id.title.as_str(), r.attrs.find("path"))
}

/// A path that isn't refused.
fn read(alloc: Global, text: &str) -> Result<Option<Path>, NoMemory>
    ensures { IfOk result (PathIs text.now) }
{
    let path = match Path::read(alloc, text) {
        Ok(path) => path,
        Err(PathFault::Bad) => return Ok(None),
        Err(PathFault::Memory(m)) => return Err(m),
    };
    if path.is_reserved() {
        return Ok(None);
    }
    Ok(Some(path))
}

/// The path that a file manages, unless it is refused.
fn file_path(alloc: Global, r: &Resource) -> Result<Option<Path>, NoMemory>
    ensures { IfOk result (FilePathIs r.now) }
{
    if r.id.kind.as_str() != "file" {
        return Ok(None);
    }
    match path_text_of(r) {
        Some(text) => read(alloc, text),
        None => Ok(None),
    }
}

/// Adds the file at a place, if one is there.
fn push_file(
    alloc: Global,
    catalog: &Catalog,
    place: u32,
    files: &mut Seq<ManagedFile>,
) -> Result<(), NoMemory>
    ensures { OnOk result ((places : List ℕ) → AreFiles catalog.now places files.old
        → AreFiles catalog.now (places ++ place ∷ []) files.new) }
{
    path_texts();
    let Some(r) = resource_at(catalog, place) else {
        return Ok(());
    };
    match file_path(alloc, r)? {
        Some(path) => files.push(ManagedFile { path, place }),
        None => Ok(()),
    }
}

/// The files among some plain resources.
pub fn files_of(
    alloc: Global,
    catalog: &Catalog,
    plain: &[u32],
) -> Result<Seq<ManagedFile>, NoMemory>
    ensures { IfOk result (AreFiles catalog.now plain.now) }
{
    let mut files = Seq::new(alloc);
    for place in plain {
        push_file(alloc, catalog, *place, &mut files)?;
    }
    Ok(files)
}

fn is_above(p: &Path, q: &Path) -> bool
    ensures { result ≡ is_above p.now q.now }
{
    p.is_ancestor(q)
}

/// How many segments the nearest file above a path has.
fn nearest(files: &[ManagedFile], p: &Path) -> usize
    ensures { result ≡ nearest files.now p.now }
{
    let mut most = 0;
    for f in files {
        if is_above(&f.path, p) {
            most = most.max(f.path.segments().len());
        }
    }
    most
}

fn is_nearest(n: usize, p: &Path, q: &Path) -> bool
    ensures { result ≡ is_nearest n p.now q.now }
{
    let above = is_above(q, p);
    let near = n <= q.segments().len();
    above && near
}

/// The places of the nearest files above a path.
fn nearest_places(alloc: Global, files: &[ManagedFile], p: &Path) -> Result<Seq<u32>, NoMemory>
    ensures { IfOk result (λ places. places ≡ nearest_places files.now p.now) }
{
    let n = nearest(files, p);
    let mut places = Seq::new(alloc);
    for f in files {
        if is_nearest(n, p, &f.path) {
            places.push(f.place)?;
        }
    }
    Ok(places)
}

/// Adds the edges from the nearest files above.
pub fn push_file_edges(
    alloc: Global,
    links: &[Link],
    files: &[ManagedFile],
    edges: &mut Seq<(u32, u32)>,
) -> Result<(), NoMemory>
    requires { All (λ f. f.place < declared_bound) files.now }
    ensures { OnOk result (edges.new ≡ edges.old ++ file_edges links.now files.now) }
{
    for f in files {
        let places = nearest_places(alloc, files, &f.path)?;
        push_all_kept(links, f.place, places.as_slice(), edges)?;
    }
    Ok(())
}
