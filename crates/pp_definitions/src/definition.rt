//! Classes and defined types.

ghost use Rattle.std.specs.Prelude.{◌≡◌, option_map};

use crate::parameter::Parameter;
use pp_syntax::Stmt;
use rh_base::{Seq, Text};
use std::marker::Model;

/// A class or a defined type, whose statements are those of the manifest.
#[derive(Drop)]
pub struct Definition<'m> {
    pub(crate) at: u32,
    pub(crate) name: Text,
    pub(crate) parameters: Seq<Parameter<'m>>,
    pub(crate) parent: Option<Text>,
    pub(crate) body: &'m [Stmt],
}

impl<'m> Model for Definition<'m> {
    ghost use Rattle.catalog_semantics.specs.Sites.{Definition as D};
    ghost use Rattle.std.specs.Coded.{codes};
    ghost use Rattle.pp_value.specs.contracts.value.Value as value;
    ghost use Rattle.pp_syntax.specs.contracts.tree.TypeName as kind;
    ghost use Rattle.pp_syntax.specs.contracts.tree.Expr as expr;
    ghost use Rattle.pp_syntax.specs.contracts.tree.Stmt as stmt;

    ghost Value = { D };

    ghost coded = { Prim.hlevel (codes, value.the_row.coded, kind.the_row.coded, expr.the_row.coded, stmt.the_row.coded) };

    ghost view = { λ d. record { at = d.at; name = d.name; parameters = d.parameters; parent = d.parent; body = d.body.now } };
}

impl<'m> Definition<'m> {
    /// Where it stands in the source.
    pub fn at(&self) -> u32
        ensures { result ≡ self.now.at }
    {
        self.at
    }

    pub fn name(&self) -> &Text
        ensures { result.now ≡ self.now.name }
    {
        &self.name
    }

    pub fn parameters(&self) -> &[Parameter<'m>]
        ensures { result.now ≡ self.now.parameters }
    {
        self.parameters.as_slice()
    }

    pub fn parent(&self) -> Option<&Text>
        ensures { option_map (λ x. x.now) result ≡ self.now.parent }
    {
        self.parent.as_ref()
    }

    pub fn body(&self) -> &'m [Stmt]
        ensures { result.now ≡ self.now.body }
    {
        self.body
    }
}
