//! The command line: which session runs, under which budget, and what is listed.
#![tactic(auto)]

mod command;
mod line;
mod value;
mod words;

pub use dx_base::Bytes;
pub use words::{Job, Words, WordsFail, read_words};
