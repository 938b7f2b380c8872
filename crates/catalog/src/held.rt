//! Which classes are contained where.

ghost use Rattle.std.specs.Prelude.{◌≡◌, ◌<◌, ◌==◌, [], ◌∷◌, ◌++◌, List, length, OnOk, OnErr, slice_index_or, slice_set};
ghost use Rattle.std.specs.List.{list_any};
ghost use Rattle.catalog_semantics.specs.declared.state.Holding.{Holding};
ghost use Rattle.catalog.specs.Members.{with_class, classes_in, AreRows};

use catalog_semantics::Holding;
use rh_base::{NoMemory, Seq};
use std::alloc::Global;
use std::marker::Model;

/// The holdings in order.
#[derive(Drop)]
pub struct Held {
    holdings: Vec<Holding>,
    /// for each container the classes in it, each once; what has none may have no row
    rows: Vec<Seq<u32>>,
    alloc: Global,
}

impl Model for Held {
    ghost use Rattle.std.specs.Prelude.{List};
    ghost use Rattle.catalog_semantics.specs.declared.state.Holding.{Holding};
    ghost use Rattle.catalog.specs.Members.{AreRows};

    ghost Value = { List Holding };

    ghost view = { λ h. h.holdings.items };

    ghost invariant = { λ h. AreRows h.rows.items h.holdings.items };
}

fn has_class(classes: &[u32], class: u32) -> bool
    ensures { result ≡ list_any (λ k. k == class) classes.now }
{
    classes.contains(&class)
}

/// Adds a class at the end, unless it stands already.
fn put_class(classes: &mut Seq<u32>, class: u32) -> Result<(), NoMemory>
    ensures ok { OnOk result (classes.new ≡ with_class class classes.old) }
    ensures err { OnErr result (classes.new ≡ classes.old) }
{
    if has_class(classes.as_slice(), class) {
        return Ok(());
    }
    classes.push(class)
}

/// Makes rows up to this one.
fn grow(alloc: Global, rows: &mut Vec<Seq<u32>>, outer: usize) -> Result<(), NoMemory>
    ensures stays { (holdings : List Holding) → AreRows rows.old.items holdings → AreRows rows.new.items holdings }
    ensures grown { OnOk result (outer < length rows.new.items) }
{
    while rows.len() <= outer {
        rows.push(Seq::new(alloc))?;
    }
    Ok(())
}

/// Adds a class to a row that is there.
fn put_into(rows: &mut Vec<Seq<u32>>, outer: usize, class: u32) -> Result<(), NoMemory>
    requires { outer < length rows.old.items }
    ensures ok { OnOk result (rows.new.items ≡ slice_set rows.old.items outer (with_class class (slice_index_or rows.old.items outer []))) }
    ensures err { OnErr result (rows.new.items ≡ rows.old.items) }
{
    put_class(&mut rows[outer], class)
}

/// Adds a holding, and its class to the container's row.
fn hold(
    alloc: Global,
    holdings: &mut Vec<Holding>,
    rows: &mut Vec<Seq<u32>>,
    h: Holding,
) -> Result<(), NoMemory>
    requires { AreRows rows.old.items holdings.old.items }
    ensures rows { AreRows rows.new.items holdings.new.items }
    ensures ok { OnOk result (holdings.new.items ≡ holdings.old.items ++ h ∷ []) }
    ensures err { OnErr result (holdings.new.items ≡ holdings.old.items) }
{
    let outer = h.outer as usize;
    grow(alloc, rows, outer)?;
    holdings.push(h)?;
    match put_into(rows, outer, h.class) {
        Ok(()) => Ok(()),
        Err(m) => {
            holdings.pop();
            Err(m)
        }
    }
}

impl Held {
    pub fn new(alloc: Global) -> Held
        ensures { result ≡ [] }
    {
        Held {
            holdings: Vec::new(alloc),
            rows: Vec::new(alloc),
            alloc,
        }
    }

    /// The classes that a container has.
    pub fn classes(&self, outer: usize) -> &[u32]
        ensures { result.now ≡ classes_in outer self.now }
    {
        match self.rows.get(outer) {
            Some(row) => row.as_slice(),
            None => &[],
        }
    }

    /// Puts a class into a container.
    pub fn hold(&mut self, outer: u32, class: u32) -> Result<(), NoMemory>
        ensures ok { OnOk result (self.new ≡ self.old ++ record { outer = outer; class = class } ∷ []) }
        ensures err { OnErr result (self.new ≡ self.old) }
    {
        hold(
            self.alloc,
            &mut self.holdings,
            &mut self.rows,
            Holding { outer, class },
        )
    }
}
