//! A text read from the left: the token in hand, its words, and the constants that begin there.
#![tactic(auto)]

mod constants;
mod cursor;
mod fail;
mod words;

pub use constants::constant;
pub use cursor::{Cursor, fault};
pub use fail::ParseFail;
pub use words::{is_word, switch_named, word_named};
