//! Parameters of classes and defined types.

ghost use Rattle.std.specs.Prelude.{◌≡◌, option_map};

use pp_syntax::{Expr, Param, TypeName};
use pp_value::Value;
use std::marker::Model;

/// A parameter as the manifest has it, with its value from class data.
#[derive(Drop)]
pub struct Parameter<'m> {
    param: &'m Param,
    from_data: Option<Value>,
}

impl<'m> Model for Parameter<'m> {
    ghost use Rattle.catalog_semantics.specs.Sites.{Parameter as P};
    ghost use Rattle.std.specs.Coded.{codes};
    ghost use Rattle.pp_value.specs.contracts.value.Value as value;
    ghost use Rattle.pp_syntax.specs.contracts.tree.TypeName as kind;
    ghost use Rattle.pp_syntax.specs.contracts.tree.Expr as expr;

    ghost Value = { P };

    ghost coded = { Prim.hlevel (codes, value.the_row.coded, kind.the_row.coded, expr.the_row.coded) };

    ghost view = { λ p. record { name = p.param.now.name; kind = p.param.now.kind; default = p.param.now.default; from_data = p.from_data } };
}

impl<'m> Parameter<'m> {
    pub fn new(param: &'m Param, from_data: Option<Value>) -> Parameter<'m>
        ensures { result ≡ record { name = param.now.name; kind = param.now.kind; default = param.now.default; from_data = from_data } }
    {
        Parameter { param, from_data }
    }

    pub fn name(&self) -> &str
        ensures { result.now ≡ self.now.name }
    {
        self.param.name.as_str()
    }

    pub fn kind(&self) -> Option<&TypeName>
        ensures { option_map (λ x. x.now) result ≡ self.now.kind }
    {
        self.param.kind.as_ref()
    }

    pub fn default(&self) -> Option<&Expr>
        ensures { option_map (λ x. x.now) result ≡ self.now.default }
    {
        self.param.default.as_ref()
    }

    /// The value that class data give it.
    pub fn from_data(&self) -> Option<&Value>
        ensures { option_map (λ x. x.now) result ≡ self.now.from_data }
    {
        self.from_data.as_ref()
    }
}
