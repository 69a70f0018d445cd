//! Closed terms, each named by a number, and the files that a session has written.
#![tactic(auto)]

mod content;
mod formed;
mod ints;
mod made;
mod recent;
mod tags;
mod term;
mod written;

pub use content::Content;
pub use tags::{Tags, names_are_exact};
pub use term::{Named, Tag, Term, ValueTag, ValueTags};
pub use written::Written;
