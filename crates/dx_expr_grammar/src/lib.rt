//! The language of Compute's expressions: its tokens and its tree, and in `specs` what a text says: the tokens that it
//! is made of, the rules of the grammar, and how they are read with one token in hand.
#![tactic(auto)]

mod boxed;
mod fail;
mod token;
mod tree;

pub use boxed::Boxed;
pub use fail::ExprFail;
pub use token::{Sign, Token, TokenKind};
pub use tree::{Binary, Expression, Level, Unary};
