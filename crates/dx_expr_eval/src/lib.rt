//! The values of all items of an expression, or the first fault.
#![tactic(auto)]

mod columns;
mod components;
mod items;
mod numbers;
mod rows;
mod vectors;

pub use items::{evaluate, find_fault};
