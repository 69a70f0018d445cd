//! What every crate of the executive speaks of: texts as lists of bytes, numbers and their types, the names of
//! functions and refusals, and the tokens of scripts.
#![tactic(auto)]

mod bytes;
mod code;
mod elem;
mod fail;
mod few;
mod function;
mod items;
mod names;
mod number;
mod shared;
mod sparse;
mod token;
mod words;

pub use bytes::Bytes;
pub use code::{Code, NativeKind};
pub use elem::{ElemType, in_range};
pub use fail::Fail;
pub use few::Few;
pub use function::{Effect, Function, Module};
pub use items::Items;
pub use names::Names;
pub use number::{read_int, read_number};
pub use shared::Shared;
pub use sparse::Sparse;
pub use token::{LexKind, Lexeme, Place, SyntaxError, SyntaxKind};
pub use words::{
    push_count, push_counts_behind, push_number, push_numbers, push_numbers_behind, push_quoted,
};
