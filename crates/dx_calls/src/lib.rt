//! Expressions and calls, with their arguments and attributes.
#![tactic(auto)]

mod calls;

pub use calls::{call_after, expression};
