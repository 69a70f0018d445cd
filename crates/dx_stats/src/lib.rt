//! Statistics and Histogram: numbers about the items of an array.
#![tactic(auto)]

mod bins;
mod field;
mod histogram;
mod laws;
mod median;
mod numbers;
mod results;
mod statistics;
mod sums;

pub use dx_objects::{Code, Outs, RunFail};
pub use histogram::run_histogram;
pub use laws::{steps_law, sums_law};
pub use statistics::run_statistics;
