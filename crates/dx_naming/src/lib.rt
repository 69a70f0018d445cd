//! The call that an error names, where an argument of an effect or a selector is refused.
#![tactic(auto)]

mod call;
mod place;
mod refusal;

pub use refusal::{node_of_refusal, node_of_selector};
