//! Expressions over blocks of items: an operator at a time, into buffers that are made once and used again.
#![tactic(auto)]

mod binary;
mod block;
mod eval;
mod found;
mod inputs;
mod int_rows;
mod ints;
mod load;
mod operators;
mod parts;
mod side;
mod sides;
mod spare;
mod steps;
mod sure;
mod unary;

pub use eval::evaluate_range;
pub use found::Found;
pub use inputs::{Columns, Source, Table};
pub use spare::Spare;
