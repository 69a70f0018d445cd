//! Fields: whether what their components refer to is there, and whether their positions and connections are a regular
//! grid.
#![tactic(auto)]

mod check;
mod component;
mod grid;
mod stray;

pub use check::{FieldFault, check_field};
pub use dx_objects::Object;
pub use grid::{Grid, grid_of};
