//! Manifests as texts: tokens, and the trees that they spell.
#![tactic(auto)]

mod lexer;
mod token;
mod tree;

pub use lexer::{
    digit_of, int_value, is_among, is_hex, is_keyword, is_simple_escape, lex, one_spelling,
    set_apart_tokens_stand, tokens_are_utf8,
};
pub use token::{Kind, Token};
pub use tree::{
    Arm, Arrow, Attr, Body, CaseArm, Expr, Form, Func, Item, Manifest, Op, Operand, Param, Search,
    Stmt, TypeName, op_among,
};
