//! Node blocks, and the names of nodes.

ghost use Rattle.std.specs.Prelude.{◌≡◌, [], false, IfOk, option_map};
ghost use Rattle.std.specs.List.{list_any};
ghost use Rattle.pp_value.specs.Texts.{lowered, same_text};
ghost use Rattle.pp_eval.specs.Evaluating.{AnswersBy};
ghost use Rattle.catalog_semantics.specs.Sites.{is_same_node, stands_for, node_of};
ghost use Rattle.pp_definitions.specs.Places.{noted_one, noted_all};

use pp_eval::refusal;
use pp_syntax::Stmt;
use pp_value::Keyed;
use rh_base::{Fault, NoMemory, Text};
use std::alloc::Global;
use std::marker::Model;

/// A node block, whose statements are those of the manifest.
#[derive(Drop)]
pub struct Node<'m> {
    names: &'m [Option<Text>],
    body: &'m [Stmt],
}

impl<'m> Model for Node<'m> {
    ghost use Rattle.catalog_semantics.specs.Sites.{Node as N};
    ghost use Rattle.std.specs.Coded.{codes};
    ghost use Rattle.pp_syntax.specs.contracts.tree.Stmt as stmt;

    ghost Value = { N };

    ghost coded = { Prim.hlevel (codes, stmt.the_row.coded) };

    ghost view = { λ n. record { names = n.names.now; body = n.body.now } };
}

impl<'m> Node<'m> {
    pub fn new(names: &'m [Option<Text>], body: &'m [Stmt]) -> Node<'m>
        ensures { result ≡ record { names = names.now; body = body.now } }
    {
        Node { names, body }
    }

    /// Whether one of its names is this one, or is `default` where there is none.
    fn stands_for(&self, name: Option<&str>) -> bool
        ensures { result ≡ stands_for (option_map (λ x. x.now) name.entry) self.now }
    {
        is_among(name, self.names)
    }

    pub fn body(&self) -> &'m [Stmt]
        ensures { result.now ≡ self.now.body }
    {
        self.body
    }
}

fn same_text(a: &str, b: &str) -> bool
    ensures { result ≡ same_text a.now b.now }
{
    a.as_bytes().eq_ignore_ascii_case(b.as_bytes())
}

fn is_same_node(name: Option<&str>, own: &Option<Text>) -> bool
    ensures { result ≡ is_same_node (option_map (λ x. x.now) name.entry) own.now }
{
    match (name, own) {
        (Some(name), Some(own)) => same_text(name, own.as_str()),
        (None, None) => true,
        _ => false,
    }
}

fn is_among(name: Option<&str>, names: &[Option<Text>]) -> bool
    ensures { result ≡ list_any (is_same_node (option_map (λ x. x.now) name.entry)) names.now }
{
    for own in names {
        if is_same_node(name, own) {
            return true;
        }
    }
    false
}

/// The names of node blocks that stand already, in lower case.
#[derive(Drop)]
pub struct NodeNames {
    pub named: Keyed<bool>,
    pub has_default: bool,
}

impl NodeNames {
    pub fn new(alloc: Global) -> NodeNames
        ensures { result ≡ record { named = []; has_default = false } }
    {
        NodeNames {
            named: Keyed::new(alloc),
            has_default: false,
        }
    }
}

fn lower(alloc: Global, name: &str) -> Result<Text, NoMemory>
    ensures { IfOk result (λ text. text ≡ lowered name.now) }
{
    Ok(Text::from_string(name.to_ascii_lowercase(alloc)?))
}

/// Notes a name, which must be new.
pub fn note_name(
    alloc: Global,
    at: u32,
    name: &Option<Text>,
    names: &mut NodeNames,
) -> Result<(), Fault>
    ensures { AnswersBy (λ done. names.new) (noted_one at name.now names.old) result }
{
    let Some(name) = name else {
        if names.has_default {
            return Err(refusal(alloc, 24, at, "default"));
        }
        names.has_default = true;
        return Ok(());
    };
    let key = lower(alloc, name.as_str())?;
    if names.named.find(key.as_str()).is_some() {
        return Err(refusal(alloc, 24, at, name.as_str()));
    }
    names.named.push(key, true)?;
    Ok(())
}

/// Notes the names of a block, which must be new, in the block too.
pub fn note_all(
    alloc: Global,
    at: u32,
    block: &[Option<Text>],
    names: &mut NodeNames,
) -> Result<(), Fault>
    ensures { AnswersBy (λ done. names.new) (noted_all at block.now names.old) result }
{
    for name in block {
        match note_name(alloc, at, name, names) {
            Ok(()) => {}
            Err(fault) => return Err(fault),
        }
    }
    Ok(())
}

/// The first block that stands for a name.
pub fn node_of<'s, 'm>(name: Option<&str>, nodes: &'s [Node<'m>]) -> Option<&'s Node<'m>>
    ensures { option_map (λ n. n.now) result ≡ node_of (option_map (λ x. x.now) name.entry) nodes.now }
{
    for node in nodes {
        if node.stands_for(name) {
            return Some(node);
        }
    }
    None
}
