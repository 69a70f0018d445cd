//! Tokens of a native file, from a place on.
#![tactic(auto)]

mod cursor;
mod fault;
mod next;
mod number;
mod scan;
mod token;

pub use cursor::{Cursor, misfit, number_misfit, unquoted};
pub use dx_base::NativeKind;
pub use fault::{NativeError, NativeFail};
pub use next::{Token, TokenKind, tokens};
pub use number::{is_float, number_of, plain_at};
pub use scan::{Kind, Lexeme, is_white};
pub use token::{Named, Number};
