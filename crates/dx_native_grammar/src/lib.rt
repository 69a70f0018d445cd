//! What a native file holds, clause by clause, and its grammar.
#![tactic(auto)]

mod clause;

pub use clause::{Attribute, Body, Clause, Content, Given, Head, Label, ListClass, Part, TypeWord};
