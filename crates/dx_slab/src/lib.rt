//! Slabs: the part of a field that is a regular grid between two indices along one of its dimensions.
#![tactic(auto)]

mod checks;
mod components;
mod cut;
mod inputs;
mod laws;
mod results;
mod role;
mod runs;
mod slab;

pub use dx_objects::{Code, Outs, RunFail};
pub use laws::{grid_law, steps_law};
pub use slab::run_slab;
