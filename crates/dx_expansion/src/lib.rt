//! The expansion of a statement to a graph of calls: each macro becomes its body, and each name what it means.
#![tactic(auto)]

mod driver;
mod silent;

pub use driver::{check_and_expand, expand, expand_silent};
