//! The definitions of a manifest, gathered in order.

ghost use Rattle.std.specs.Prelude.{◌≡◌, [], map, option_map, IfOk, OnOk};
ghost use Rattle.pp_syntax.specs.declared.tree.Item.TheVariants as item;
ghost use Rattle.pp_eval.specs.Evaluating.{AnswersBy};
ghost use Rattle.pp_eval.specs.Scoping.{pairs_in};
ghost use Rattle.pp_eval.specs.References.{plain_name};
ghost use Rattle.pp_data.specs.Lookup.{lookup};
ghost use Rattle.catalog_semantics.specs.Sites.{class_parameter, type_parameter, gathered_one, gathered, node_names, site_of};
ghost use Rattle.pp_definitions.specs.Places.{noted};
ghost use Rattle.pp_definitions.specs.Gathering.{class_gathered, type_gathered, node_gathered};

use crate::definition::Definition;
use crate::nodes::{Node, NodeNames, note_all};
use crate::parameter::Parameter;
use crate::site::{Site, is_reserved, with_its_node};
use pp_data::Data;
use pp_eval::{plain_name, refusal};
use pp_syntax::{Item, Manifest, Param, Stmt};
use pp_value::Value;
use rh_base::{Fault, NoMemory, Seq, Text};
use std::alloc::Global;

/// Parameters of a class, with what class data say of them.
fn class_parameters<'m>(
    alloc: Global,
    class_data: &Data,
    facts: &Value,
    class: &str,
    params: &'m [Param],
) -> Result<Seq<Parameter<'m>>, NoMemory>
    ensures { IfOk result (λ ps. ps ≡ map (class_parameter (lookup class_data.now (pairs_in facts.now)) class.now) params.now) }
{
    let mut parameters = Seq::new(alloc);
    for param in params {
        let from_data = class_data.find(alloc, facts, class, param.name.as_str())?;
        parameters.push(Parameter::new(param, from_data))?;
    }
    Ok(parameters)
}

/// Parameters of a defined type.
fn type_parameters<'m>(alloc: Global, params: &'m [Param]) -> Result<Seq<Parameter<'m>>, NoMemory>
    ensures { IfOk result (λ ps. ps ≡ map type_parameter params.now) }
{
    let mut parameters = Seq::new(alloc);
    for param in params {
        parameters.push(Parameter::new(param, None))?;
    }
    Ok(parameters)
}

fn plain_parent(alloc: Global, parent: &Option<Text>) -> Result<Option<Text>, NoMemory>
    ensures { IfOk result (λ p. p ≡ option_map plain_name parent.now) }
{
    match parent {
        Some(parent) => Ok(Some(plain_name(alloc, parent.as_str())?)),
        None => Ok(None),
    }
}

/// Adds a class.
#[tactic(auto, using(crate::proofs::PlaceLaws::free_class))]
fn add_class<'m>(
    alloc: Global,
    at: u32,
    name: &str,
    parameters: Seq<Parameter<'m>>,
    parent: &Option<Text>,
    body: &'m [Stmt],
    site: &mut Site<'m>,
) -> Result<(), Fault>
    ensures answers { AnswersBy (λ done. site.new) (class_gathered at name.now parameters.entry parent.now body.now site.old) result }
    ensures nodes { site.new.nodes ≡ site.old.nodes }
{
    let name = plain_name(alloc, name)?;
    if site.is_taken(name.as_str()) {
        return Err(refusal(alloc, 24, at, name.as_str()));
    }
    let parent = plain_parent(alloc, parent)?;
    site.classes.add(Definition {
        at,
        name,
        parameters,
        parent,
        body,
    })?;
    Ok(())
}

/// Adds a defined type.
#[tactic(auto, using(crate::proofs::PlaceLaws::free_type))]
fn add_type<'m>(
    alloc: Global,
    at: u32,
    name: &str,
    parameters: Seq<Parameter<'m>>,
    body: &'m [Stmt],
    site: &mut Site<'m>,
) -> Result<(), Fault>
    ensures answers { AnswersBy (λ done. site.new) (type_gathered at name.now parameters.entry body.now site.old) result }
    ensures nodes { site.new.nodes ≡ site.old.nodes }
{
    let name = plain_name(alloc, name)?;
    let taken = site.is_taken(name.as_str());
    let reserved = is_reserved(name.as_str());
    if taken || reserved {
        return Err(refusal(alloc, 24, at, name.as_str()));
    }
    site.defined_types.add(Definition {
        at,
        name,
        parameters,
        parent: None,
        body,
    })?;
    Ok(())
}

/// Adds a node block, whose names must be new.
#[tactic(auto, using(crate::proofs::PlaceLaws::noted_new, crate::proofs::PlaceLaws::names_last, crate::proofs::PlaceLaws::node_refused, crate::proofs::PlaceLaws::node_added, crate::proofs::PlaceLaws::names_noted))]
fn add_node<'m>(
    alloc: Global,
    at: u32,
    names: &'m [Option<Text>],
    body: &'m [Stmt],
    taken: &mut NodeNames,
    site: &mut Site<'m>,
) -> Result<(), Fault>
    requires { taken.old ≡ noted (node_names site.old.nodes) }
    ensures noted { OnOk result (taken.new ≡ noted (node_names site.new.nodes)) }
    ensures answers { AnswersBy (λ done. site.new) (node_gathered at names.now body.now site.old) result }
{
    note_all(alloc, at, names, taken)?;
    site.nodes.push(Node::new(names, body))?;
    Ok(())
}

/// Gathers one item; statements and defaults define nothing.
fn gather_one<'m>(
    alloc: Global,
    class_data: &Data,
    facts: &Value,
    item: &'m Item,
    taken: &mut NodeNames,
    site: &mut Site<'m>,
) -> Result<(), Fault>
    requires { taken.old ≡ noted (node_names site.old.nodes) }
    ensures noted { OnOk result (taken.new ≡ noted (node_names site.new.nodes)) }
    ensures answers { AnswersBy (λ done. site.new) (gathered_one (lookup class_data.now (pairs_in facts.now)) item.now site.old) result }
{
    match item {
        Item::Class {
            at,
            name,
            params,
            parent,
            body,
        } => {
            let name = name.as_str();
            let parameters = class_parameters(alloc, class_data, facts, name, params.as_slice())?;
            add_class(alloc, *at, name, parameters, parent, body.as_slice(), site)
        }
        Item::Define {
            at,
            name,
            params,
            body,
        } => {
            let parameters = type_parameters(alloc, params.as_slice())?;
            add_type(alloc, *at, name.as_str(), parameters, body.as_slice(), site)
        }
        Item::Node { at, names, body } => {
            add_node(alloc, *at, names.as_slice(), body.as_slice(), taken, site)
        }
        _ => Ok(()),
    }
}

/// Gathers items in order.
fn gather<'m>(
    alloc: Global,
    class_data: &Data,
    facts: &Value,
    items: &'m [Item],
    site: &mut Site<'m>,
) -> Result<(), Fault>
    requires { site.old.nodes ≡ [] }
    ensures { AnswersBy (λ done. site.new) (gathered (lookup class_data.now (pairs_in facts.now)) items.now site.old) result }
{
    let mut taken = NodeNames::new(alloc);
    for item in items {
        match gather_one(alloc, class_data, facts, item, &mut taken, site) {
            Ok(()) => {}
            Err(fault) => return Err(fault),
        }
    }
    Ok(())
}

impl<'m> Site<'m> {
    /// What a manifest defines, where class data and facts give values to parameters of classes.
    pub fn of(
        alloc: Global,
        manifest: &'m Manifest,
        class_data: &Data,
        facts: &Value,
        node_name: &str,
    ) -> Result<Site<'m>, Fault>
        ensures { AnswersBy (λ s. s) (site_of manifest.now class_data.now (pairs_in facts.now) node_name.now) result }
    {
        let mut site = Site::none(alloc, node_name)?;
        gather(
            alloc,
            class_data,
            facts,
            manifest.items.as_slice(),
            &mut site,
        )?;
        with_its_node(alloc, site)
    }
}
