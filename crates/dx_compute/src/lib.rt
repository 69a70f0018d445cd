//! Compute: an expression over arrays item by item, over the data of fields, and over the members of groups and series.
#![tactic(auto)]

mod arrays;
mod compute;
mod expression;
mod given;
mod groups;
mod operands;
mod place;
mod ranges;
mod run;
mod runs;
mod source;

pub use dx_base::Code;
pub use dx_compute_meaning::expression_law;
pub use dx_objects::{Outs, RunFail};
pub use run::run_compute;
