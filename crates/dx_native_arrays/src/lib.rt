//! Arrays of native files, class by class, each with its attributes.
#![tactic(auto)]

mod arrays;

pub use arrays::{
    constant_array_content, grid_cells_content, grid_points_content, plain_array_content,
    regular_array_content,
};
