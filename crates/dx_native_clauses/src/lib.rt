//! The clauses of a native file, read by one pass over its bytes.
#![tactic(auto)]

mod file;
mod origin;
mod outline;
mod table;

pub use dx_native_grammar::{Attribute, Body, Clause, Content, Given, ListClass, Part};
pub use file::read_clauses;
pub use outline::{Lifted, OutlineTable};
pub use table::{ClauseTable, FileClauses};
