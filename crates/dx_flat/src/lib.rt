//! The expansion of a call over constants, without a walk.
#![tactic(auto)]

mod flat;

pub use flat::expand_flat;
