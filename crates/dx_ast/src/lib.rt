//! The syntax tree of scripts, the grammar that says which text is which tree, and the table of functions.
#![tactic(auto)]

mod boxed;
mod constants;
mod expressions;
mod rows;
mod sequencing;
mod statements;
mod table;

pub use boxed::Boxed;
pub use constants::{Const, Ints, TextList};
pub use expressions::{Arg, Args, Call, Expr};
pub use rows::{Row, row_of};
pub use sequencing::{FrameVar, Frames, Word};
pub use statements::{Assign, MacroDef, Param, Params, Stmt, Stmts};
pub use table::{function, more, name, named, named_inputs, param, params, results};
