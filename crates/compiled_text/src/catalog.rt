//! What a compiled catalog says.

ghost use Rattle.std.specs.Prelude.{◌≡◌, ◌<◌, length};
ghost use Rattle.std.specs.List.{AllByRecursion};

use crate::refs::Refs;
use pp_value::{Pairs, Ref};
use rh_base::{Seq, Text};
use std::marker::Model;

/// A resource of a compiled catalog.
#[derive(Drop)]
pub struct CompiledResource {
    pub id: Ref,
    /// a stage, a class, or a resource of a type that a manifest defines
    pub is_container: bool,
    pub parameters: Pairs,
    /// the manifest that declares it
    pub file: Option<Text>,
    /// the line of that manifest
    pub line: Option<i64>,
}

/// A container, and what it contains, both by their places among the resources.
#[derive(Clone, Copy, Debug)]
pub struct Containment {
    pub outer: usize,
    pub inner: usize,
}

/// The resources of a compiled catalog, and what contains what.
#[derive(Drop)]
pub struct CompiledCatalog {
    resources: Seq<CompiledResource>,
    edges: Seq<Containment>,
    refs: Refs,
    /// for each resource its container
    holders: Seq<Option<usize>>,
}

impl Model for CompiledCatalog {
    ghost use Rattle.std.specs.Coded.{codes};
    ghost use Rattle.pp_value.specs.contracts.value.Value as value;
    ghost use Rattle.compiled_text.specs.Compiled.{Compiled, IsKept};

    ghost Value = { Compiled };

    ghost coded = { Prim.hlevel (codes, value.the_row.coded) };

    ghost view = { λ c. record { resources = c.resources; edges = c.edges } };

    ghost invariant = { λ c. IsKept c.refs c.holders (record { resources = c.resources; edges = c.edges }) };
}

impl CompiledCatalog {
    ghost use Rattle.compiled_text.specs.Compiled.{IsSound, IsProperResource, IsKept, ids_of, holder_of};
    ghost use Rattle.compiled_text.specs.Reading.{compiled_with, place_of};

    /// What is said by resources and edges that are sound, beside which stand the references in order and the containers.
    pub(crate) fn of(
        resources: Seq<CompiledResource>,
        edges: Seq<Containment>,
        refs: Refs,
        holders: Seq<Option<usize>>,
    ) -> CompiledCatalog
        requires { IsKept refs holders (compiled_with resources edges) }
        ensures { result ≡ compiled_with resources edges }
    {
        CompiledCatalog {
            resources,
            edges,
            refs,
            holders,
        }
    }

    /// The resources in the text's order.
    pub fn resources(&self) -> &[CompiledResource]
        ensures resources { result.now ≡ self.now.resources }
        ensures proper { AllByRecursion IsProperResource self.now.resources }
    {
        self.resources.as_slice()
    }

    /// What contains what, in the text's order.
    pub fn edges(&self) -> &[Containment]
        ensures edges { result.now ≡ self.now.edges }
        ensures sound { IsSound self.now }
    {
        self.edges.as_slice()
    }

    /// The place of a reference, found by its hash.
    pub fn find(&self, r: &Ref) -> Option<usize>
        ensures { result ≡ place_of r.now (ids_of self.now.resources) }
    {
        self.refs.find(r)
    }

    /// The container of the resource at a place, unless it is a class.
    pub fn holder(&self, place: usize) -> Option<usize>
        requires { place < length self.now.resources }
        ensures { result ≡ holder_of self.now place }
    {
        *self.holders.at(place)
    }
}
