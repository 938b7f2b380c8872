//! What references find among the resources of a compiled catalog. There is a map by hash for each way in which a resource may
//! be called, name, alias and path, and they are asked in turn; in each the resource counts that stands first.

ghost use Rattle.std.specs.Prelude.{◌≡◌, ◌<◌, length, IfOk, IfSome};
ghost use Rattle.compiled_relations.specs.Finding.{at_path, place_found, reference_found, found_by};
ghost use Rattle.compiled_relations.specs.Tables.{calls_by, IsTable};

use crate::names::{Way, calls_by, ref_to};
use crate::paths::written;
use crate::table::Table;
use compiled_text::{CompiledResource, counts_as, reference_of};
use pp_value::Ref;
use rh_base::{Misread, NoMemory};
use std::alloc::Global;
use std::marker::Model;

/// The resources of a compiled catalog, which lends them, and what references find among them.
#[derive(Drop)]
pub struct Index<'c> {
    resources: &'c [CompiledResource],
    names: Table,
    aliases: Table,
    paths: Table,
}

/// Contracts see the resources.
impl<'c> Model for Index<'c> {
    ghost use Rattle.std.specs.Prelude.{List};
    ghost use Rattle.std.specs.Coded.{codes};
    ghost use Rattle.pp_value.specs.contracts.value.Value as value;
    ghost use Rattle.compiled_text.specs.declared.catalog.CompiledResource.{CompiledResource};
    ghost use Rattle.compiled_relations.specs.Tables.{AreTables};

    ghost Value = { List CompiledResource };

    ghost coded = { Prim.hlevel (codes, value.the_row.coded) };

    ghost view = { λ i. i.resources.now };

    ghost invariant = { λ i. AreTables i.names i.aliases i.paths i.resources.now };
}

/// The first place of each reference by which these resources may be called in a way.
fn table_of(alloc: Global, way: Way, resources: &[CompiledResource]) -> Result<Table, NoMemory>
    ensures { IfOk result (λ table. IsTable table (calls_by way) resources.now) }
{
    let mut table = Table::new(alloc);
    for place in 0..resources.len() {
        let calls = calls_by(alloc, way, &resources[place])?;
        table.note_all(calls, place)?;
    }
    Ok(table)
}

impl<'c> Index<'c> {
    pub fn new(alloc: Global, resources: &'c [CompiledResource]) -> Result<Index<'c>, NoMemory>
        ensures { IfOk result (λ index. index ≡ resources.now) }
    {
        let names = table_of(alloc, Way::Name, resources)?;
        let aliases = table_of(alloc, Way::Alias, resources)?;
        let paths = table_of(alloc, Way::Path, resources)?;
        Ok(Index {
            resources,
            names,
            aliases,
            paths,
        })
    }

    pub fn resources(&self) -> &'c [CompiledResource]
        ensures { result.now ≡ self.now }
    {
        self.resources
    }

    /// The place of the first file at the path that the title of a reference to a file spells.
    fn at_path(&self, alloc: Global, r: &Ref) -> Result<Option<usize>, NoMemory>
        ensures { IfOk result (λ place. place ≡ at_path r.now self.now) }
    {
        if r.kind.as_str() != "file" {
            return Ok(None);
        }
        let Some(path) = written(alloc, r.title.as_str())? else {
            return Ok(None);
        };
        let file = ref_to(alloc, "file", path.as_str())?;
        Ok(self.paths.find(&file))
    }

    /// The place of what a reference finds.
    pub fn find(&self, alloc: Global, r: &Ref) -> Result<Option<usize>, NoMemory>
        ensures { IfOk result (λ place. place ≡ place_found self.now r.now) }
    {
        if r.title.is_empty() {
            return Ok(None);
        }
        if let Some(place) = self.names.find(r) {
            return Ok(Some(place));
        }
        if let Some(place) = self.aliases.find(r) {
            return Ok(Some(place));
        }
        self.at_path(alloc, r)
    }

    /// The reference, as the catalog has it, of what a reference finds.
    pub fn reference(&self, alloc: Global, r: &Ref) -> Result<Option<Ref>, NoMemory>
        ensures { IfOk result (λ found. found ≡ reference_found self.now r.now) }
    {
        let Some(place) = self.find(alloc, r)? else {
            return Ok(None);
        };
        match self.resources.get(place) {
            Some(found) => Ok(Some(counts_as(alloc, found)?)),
            None => Ok(None),
        }
    }

    /// The same of a text that is a reference; any other text finds nothing.
    pub fn found_by(&self, alloc: Global, text: &str) -> Result<Option<Ref>, NoMemory>
        ensures { IfOk result (λ found. found ≡ found_by self.now text.now) }
    {
        match reference_of(alloc, text) {
            Ok(r) => self.reference(alloc, &r),
            Err(Misread::Form) => Ok(None),
            Err(Misread::Memory(m)) => Err(m),
        }
    }
}
