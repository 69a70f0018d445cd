//! Compute's expressions: a text is parsed to its tree.
#![tactic(auto)]

mod classes;
mod cursor;
mod lexer;
mod parser;

pub use dx_expr_grammar::{Binary, Boxed, ExprFail, Expression, Unary};
pub use parser::parse_expr;
