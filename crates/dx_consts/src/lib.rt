//! Constants as values: the object that a constant of a script stands for.
#![tactic(auto)]

mod numbers;
mod texts;
mod value;

pub use value::object_of;
