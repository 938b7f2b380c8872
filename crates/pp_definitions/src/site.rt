//! What holds while a manifest is gone through.
//!
//! What doesn't change then is a site, what changes is a state (`pp_declaration_state`); that the two belong to one manifest is the
//! caller's matter. A site lends the manifest's statements, so no tree is copied; a parameter stands beside its value from
//! class data. Parents go in a circle exactly where a chain of them is longer than there are classes, so that is counted.

ghost use Rattle.std.specs.Prelude.{◌≡◌, length, option_map, IfOk};
ghost use Rattle.pp_eval.specs.Evaluating.{AnswersBy};
ghost use Rattle.catalog_semantics.specs.Sites.{definition_of, is_built_in, is_type, is_taken, is_reserved, node_block, no_definitions, with_its_node, inherits_itself};
ghost use Rattle.pp_definitions.specs.Places.{has_some, parent_in};

use crate::definition::Definition;
use crate::definitions::Definitions;
use crate::nodes::{Node, node_of};
use pp_eval::refusal;
use rh_base::{Fault, NoMemory, Seq, Text};
use std::alloc::Global;
use std::marker::Model;

/// The definitions of a manifest, which lends its statements, and the name of the node.
#[derive(Drop)]
pub struct Site<'m> {
    pub(crate) classes: Definitions<'m>,
    pub(crate) defined_types: Definitions<'m>,
    pub(crate) nodes: Seq<Node<'m>>,
    pub(crate) node_name: Text,
}

impl<'m> Model for Site<'m> {
    ghost use Rattle.catalog_semantics.specs.Sites.{Site as S};
    ghost use Rattle.std.specs.Coded.{codes};
    ghost use Rattle.pp_value.specs.contracts.value.Value as value;
    ghost use Rattle.pp_syntax.specs.contracts.tree.TypeName as kind;
    ghost use Rattle.pp_syntax.specs.contracts.tree.Expr as expr;
    ghost use Rattle.pp_syntax.specs.contracts.tree.Stmt as stmt;

    ghost Value = { S };

    ghost coded = { Prim.hlevel (codes, value.the_row.coded, kind.the_row.coded, expr.the_row.coded, stmt.the_row.coded) };

    ghost view = { λ s. record { classes = s.classes; defined_types = s.defined_types; nodes = s.nodes; node_name = s.node_name } };
}

/// Whether a type is built in.
#[tactic(auto, using(crate::proofs::PlaceLaws::one_of_eight))]
pub fn is_built_in(name: &str) -> bool
    ensures { result ≡ is_built_in name.now }
{
    let exec = name == "exec";
    let file = name == "file";
    let package = name == "package";
    let user = name == "user";
    let group = name == "group";
    let service = name == "service";
    let cron = name == "cron";
    let key = name == "ssh_authorized_key";
    exec || (file || (package || (user || (group || (service || (cron || key))))))
}

/// A name that no defined type may have.
pub fn is_reserved(name: &str) -> bool
    ensures { result ≡ is_reserved name.now }
{
    let built_in = is_built_in(name);
    let class = name == "class";
    built_in || class
}

fn has_some(nodes: &[Node<'_>]) -> bool
    ensures { result ≡ has_some nodes.now }
{
    nodes.split_first().is_some()
}

/// Where there are node blocks, one of them must be the node's.
#[tactic(auto, using(crate::proofs::PlaceLaws::its_node_is))]
pub fn with_its_node<'m>(alloc: Global, site: Site<'m>) -> Result<Site<'m>, Fault>
    ensures { AnswersBy (λ s. s) (with_its_node site.entry) result }
{
    if site.node_block().is_some() {
        return Ok(site);
    }
    if has_some(site.nodes.as_slice()) {
        return Err(refusal(alloc, 31, 0, site.node_name.as_str()));
    }
    Ok(site)
}

impl<'m> Site<'m> {
    /// A site with no definitions.
    pub(crate) fn none(alloc: Global, node_name: &str) -> Result<Site<'m>, NoMemory>
        ensures { IfOk result (λ s. s ≡ no_definitions node_name.now) }
    {
        let node_name = Text::from_string(String::from_str(alloc, node_name)?);
        Ok(Site {
            classes: Definitions::new(alloc),
            defined_types: Definitions::new(alloc),
            nodes: Seq::new(alloc),
            node_name,
        })
    }

    /// A class by its name, found by its hash.
    pub fn class(&self, name: &str) -> Option<&Definition<'m>>
        ensures { option_map (λ d. d.now) result ≡ definition_of name.now self.now.classes }
    {
        self.classes.find(name)
    }

    /// A defined type by its name, found by its hash.
    pub fn defined_type(&self, name: &str) -> Option<&Definition<'m>>
        ensures { option_map (λ d. d.now) result ≡ definition_of name.now self.now.defined_types }
    {
        self.defined_types.find(name)
    }

    pub fn class_count(&self) -> usize
        ensures { result ≡ length self.now.classes }
    {
        self.classes.len()
    }

    fn parent_of(&self, d: &Definition<'m>) -> Option<&Definition<'m>>
        ensures { option_map (λ p. p.now) result ≡ parent_in self.now.classes d.now }
    {
        match &d.parent {
            Some(parent) => self.classes.find(parent.as_str()),
            None => None,
        }
    }

    /// Whether a class is refused for its parents, of which one comes twice.
    #[tactic(auto, using(crate::proofs::PlaceLaws::meets_itself, crate::proofs::PlaceLaws::goes_further, crate::proofs::PlaceLaws::ends_there))]
    pub fn inherits_itself(&self, d: &Definition<'m>) -> bool
        ensures { result ≡ inherits_itself self.now.classes d.now }
    {
        let count = self.class_count();
        if count == 0 {
            return true;
        }
        let Some(parent) = self.parent_of(d) else {
            return false;
        };
        let mut left = count - 1;
        let mut current = parent;
        while left > 0 {
            let Some(next) = self.parent_of(current) else {
                return false;
            };
            current = next;
            left -= 1;
        }
        true
    }

    /// Whether resources of a type may be declared.
    pub fn is_type(&self, name: &str) -> bool
        ensures { result ≡ is_type self.now name.now }
    {
        let built_in = is_built_in(name);
        let defined = self.defined_types.has(name);
        built_in || defined
    }

    /// Whether a class or a defined type has the name.
    pub(crate) fn is_taken(&self, name: &str) -> bool
        ensures { result ≡ is_taken self.now name.now }
    {
        let class = self.classes.has(name);
        let defined = self.defined_types.has(name);
        class || defined
    }

    /// The block of the node's name, or else that of `default`.
    pub fn node_block(&self) -> Option<&Node<'m>>
        ensures { option_map (λ n. n.now) result ≡ node_block self.now }
    {
        let nodes = self.nodes.as_slice();
        match node_of(Some(self.node_name.as_str()), nodes) {
            Some(node) => Some(node),
            None => node_of(None, nodes),
        }
    }
}
