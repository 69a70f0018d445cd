//! Compute's expressions: their shapes and values. `dx_expr_parser` parses the text of one.
#![tactic(auto)]

mod eval;
mod fault;
mod inputs;
mod operators;
mod shape;
mod uses;
mod values;

pub use dx_expr_grammar::{Binary, Boxed, ExprFail, Expression, Unary};
pub use dx_expr_parser::parse_expr;
pub use eval::{single_value, values_of};
pub use fault::{EvalFail, ItemFault};
pub use inputs::Inputs;
pub use operators::{checked, truth, unary_value};
pub use shape::{Shape, is_single, shape_of};
pub use uses::uses_input;
pub use values::Values;
