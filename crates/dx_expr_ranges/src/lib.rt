//! Where the values of an expression lie, as far as its parts tell: where that is known, no item has a fault.
#![tactic(auto)]

mod expression;
mod operators;
mod range;

pub use expression::is_faultless;
pub use range::Range;
