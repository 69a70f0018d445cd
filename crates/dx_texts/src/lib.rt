//! The expansion of a text: each call becomes a node, and each macro its body.
#![tactic(auto)]

mod expansion;
mod own;
mod text;

pub use expansion::{call_function, expand_call, expand_expr};
pub use own::Own;
pub use text::{Text, World, top_meaning};
