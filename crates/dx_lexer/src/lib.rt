//! The tokens of scripts, each cut from the text when it is asked for.
#![tactic(auto)]

mod borrowed;
mod bytes;
mod fail;
mod gap;
mod number;
mod quoted;
mod token;
mod word;

pub use borrowed::{Token, TokenKind};
pub use dx_base::{LexKind, Lexeme, Place, SyntaxError, SyntaxKind};
pub use fail::LexFail;
pub use token::{next, next_token};
