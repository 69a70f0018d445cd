//! The definitions of the top level in order, and the last one of a name before a position.
#![tactic(auto)]

mod definitions;

pub use definitions::Definitions;
