//! The syntax tree of a manifest. Places are offsets in bytes of the source.
ghost use Rattle.std.specs.Prelude.{◌≡◌};
ghost use Rattle.pp_syntax.specs.Derivation.{level_of, op_symbol, op_kind, op_among};
ghost use Rattle.pp_syntax.specs.Statements.{word_of, function_among, function_of, arrow_symbol, arrow_among, arrow_of};

use crate::token::Kind;
use rh_base::{Boxed, Seq, Text};

/// What stands at the top of a manifest, in order.
#[derive(Drop)]
pub struct Manifest {
    pub items: Seq<Item>,
}

/// One thing that stands at the top of a manifest. Names are as they are spelled.
#[derive(Drop)]
pub enum Item {
    Class {
        at: u32,
        name: Text,
        params: Seq<Param>,
        parent: Option<Text>,
        body: Seq<Stmt>,
    },
    Define {
        at: u32,
        name: Text,
        params: Seq<Param>,
        body: Seq<Stmt>,
    },
    /// The name `None` is `default`.
    Node {
        at: u32,
        names: Seq<Option<Text>>,
        body: Seq<Stmt>,
    },
    Defaults {
        at: u32,
        kind: Text,
        attrs: Seq<Attr>,
    },
    Plain(Stmt),
}

/// A parameter; its name stands without `$`.
#[derive(Drop)]
pub struct Param {
    pub kind: Option<TypeName>,
    pub name: Text,
    pub default: Option<Expr>,
}

/// The type of a parameter.
#[derive(Drop)]
pub enum TypeName {
    Any,
    Boolean,
    Hash,
    Str {
        least: i64,
        most: Option<i64>,
    },
    Int {
        least: Option<i64>,
        most: Option<i64>,
    },
    Array(Option<Boxed<TypeName>>),
    Optional(Boxed<TypeName>),
    Enum(Seq<Text>),
    Variant(Seq<TypeName>),
}

/// A statement, with the place of its first token.
#[cycle(statement)]
#[derive(Drop)]
pub enum Stmt {
    /// One operand, or several with arrows between them.
    Chain {
        at: u32,
        sides: Seq<Operand>,
        arrows: Seq<Arrow>,
    },
    Assign {
        at: u32,
        name: Text,
        value: Expr,
    },
    Call {
        at: u32,
        func: Func,
        args: Seq<Expr>,
    },
    If {
        at: u32,
        arms: Seq<Arm>,
        other: Seq<Stmt>,
    },
    Unless {
        at: u32,
        test: Expr,
        body: Seq<Stmt>,
        other: Seq<Stmt>,
    },
    Case {
        at: u32,
        value: Expr,
        arms: Seq<CaseArm>,
    },
}

/// One side of a chain, which may be its only one.
#[derive(Drop)]
pub enum Operand {
    /// A resource, or with the kind `class` a class; virtual with `@`.
    Declare {
        at: u32,
        is_virtual: bool,
        kind: Text,
        bodies: Seq<Body>,
    },
    Collect {
        at: u32,
        kind: Text,
        search: Option<Search>,
    },
    /// References.
    Named(Seq<Expr>),
}

/// Titles, and the attributes of their resources.
#[derive(Drop)]
pub struct Body {
    pub title: Expr,
    pub attrs: Seq<Attr>,
}

/// `NAME => VALUE`
#[derive(Drop)]
pub struct Attr {
    pub at: u32,
    pub name: Text,
    pub value: Expr,
}

/// The test of an `if` or an `elsif`, and its block.
#[cycle(statement)]
#[derive(Drop)]
pub struct Arm {
    pub test: Expr,
    pub body: Seq<Stmt>,
}

/// The option `None` is `default`.
#[cycle(statement)]
#[derive(Drop)]
pub struct CaseArm {
    pub options: Seq<Option<Expr>>,
    pub body: Seq<Stmt>,
}

/// What a collector looks for, by the names of attributes and their values. Parentheses leave nothing.
#[derive(Drop)]
pub enum Search {
    Or(Seq<Search>),
    And(Seq<Search>),
    Equal(Text, Expr),
    Differ(Text, Expr),
}

/// An expression, with the place of its first token; parentheses around it aside.
#[cycle(expression)]
#[derive(Drop)]
pub struct Expr {
    pub at: u32,
    pub form: Form,
}

/// A chain of operators of one level is one form with a list. Parentheses leave no form.
#[cycle(expression)]
#[derive(Drop)]
pub enum Form {
    Int(i64),
    Str(Text),
    Var(Text),
    Bool(bool),
    Undef,
    List(Seq<Expr>),
    Map(Seq<(Expr, Expr)>),
    Refer(Text, Seq<Expr>),
    /// A text in double quotes, with one member for each piece of text, variable and expression.
    Join(Seq<Expr>),
    Chain(Boxed<Expr>, Seq<(Op, Expr)>),
    Prefix(Seq<Op>, Boxed<Expr>),
    Index(Boxed<Expr>, Boxed<Expr>),
    /// The option `None` is `default`.
    Select(Boxed<Expr>, Seq<(Option<Expr>, Expr)>),
}

/// The operators; `Minus` stands between two operands or before one, and `Not` only before one.
#[derive(Clone, Copy, Debug, PartialEq, Eq)]
pub enum Op {
    Or,
    And,
    Less,
    Greater,
    AtMost,
    AtLeast,
    Same,
    NotSame,
    Plus,
    Minus,
    Times,
    In,
    Not,
}

impl Op {
    /// The level at which the operator binds; the greater, the tighter.
    pub fn level(self) -> u32
        ensures { result ≡ level_of self }
    {
        match self {
            Op::Or => 0,
            Op::And => 1,
            Op::Less | Op::Greater | Op::AtMost | Op::AtLeast => 2,
            Op::Same | Op::NotSame => 3,
            Op::Plus | Op::Minus => 4,
            Op::Times => 5,
            Op::In => 6,
            Op::Not => 7,
        }
    }

    /// How the operator is spelled.
    pub fn symbol(self) -> &'static str
        ensures { result.now ≡ op_symbol self }
    {
        match self {
            Op::Or => "or",
            Op::And => "and",
            Op::Less => "<",
            Op::Greater => ">",
            Op::AtMost => "<=",
            Op::AtLeast => ">=",
            Op::Same => "==",
            Op::NotSame => "!=",
            Op::Plus => "+",
            Op::Minus => "-",
            Op::Times => "*",
            Op::In => "in",
            Op::Not => "!",
        }
    }

    /// The kind of its token.
    pub fn kind(self) -> Kind
        ensures { result ≡ op_kind self }
    {
        match self {
            Op::Or | Op::And | Op::In => Kind::Keyword,
            Op::Less
            | Op::Greater
            | Op::AtMost
            | Op::AtLeast
            | Op::Same
            | Op::NotSame
            | Op::Plus
            | Op::Minus
            | Op::Times
            | Op::Not => Kind::Sign,
        }
    }
}

/// The first of these operators that is spelled so.
pub fn op_among(ops: &[Op], text: &str) -> Option<Op>
    ensures { result ≡ op_among ops.now text.now }
{
    for op in ops {
        if text == op.symbol() {
            return Some(*op);
        }
    }
    None
}

/// `->`, `~>`, `<-` and `<~`
#[derive(Clone, Copy, Debug, PartialEq, Eq)]
pub enum Arrow {
    Before,
    Notify,
    After,
    Follow,
}

impl Arrow {
    /// How the arrow is spelled.
    pub fn symbol(self) -> &'static str
        ensures { result.now ≡ arrow_symbol self }
    {
        match self {
            Arrow::Before => "->",
            Arrow::Notify => "~>",
            Arrow::After => "<-",
            Arrow::Follow => "<~",
        }
    }

    /// The arrow that is spelled so.
    pub fn of(symbol: &str) -> Option<Arrow>
        ensures { result ≡ arrow_of symbol.now }
    {
        let arrows = [Arrow::Before, Arrow::Notify, Arrow::After, Arrow::Follow];
        arrow_among(&arrows, symbol)
    }
}

/// The first of these arrows that is spelled so.
fn arrow_among(arrows: &[Arrow], symbol: &str) -> Option<Arrow>
    ensures { result ≡ arrow_among arrows.now symbol.now }
{
    for arrow in arrows {
        if symbol == arrow.symbol() {
            return Some(*arrow);
        }
    }
    None
}

/// The functions that a statement may call.
#[derive(Clone, Copy, Debug, PartialEq, Eq)]
pub enum Func {
    Include,
    Require,
    Contain,
    Realize,
    Fail,
    Notice,
    Warning,
}

impl Func {
    /// The word that is the function.
    pub fn word(self) -> &'static str
        ensures { result.now ≡ word_of self }
    {
        match self {
            Func::Include => "include",
            Func::Require => "require",
            Func::Contain => "contain",
            Func::Realize => "realize",
            Func::Fail => "fail",
            Func::Notice => "notice",
            Func::Warning => "warning",
        }
    }

    /// The function that a word is.
    pub fn of(word: &str) -> Option<Func>
        ensures { result ≡ function_of word.now }
    {
        let functions = [
            Func::Include,
            Func::Require,
            Func::Contain,
            Func::Realize,
            Func::Fail,
            Func::Notice,
            Func::Warning,
        ];
        function_among(&functions, word)
    }
}

/// The first of these functions whose word it is.
fn function_among(functions: &[Func], word: &str) -> Option<Func>
    ensures { result ≡ function_among functions.now word.now }
{
    for function in functions {
        if word == function.word() {
            return Some(*function);
        }
    }
    None
}
