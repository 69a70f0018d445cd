//! What an effect does with the values of its arguments.
#![tactic(auto)]

mod act;
mod export;
mod set;

pub use act::{Act, act_of};
