//! Arrays of integers by class: values stored one by one, one item for all, lines of items, and the points and cells
//! of grids.
#![tactic(auto)]

mod array;
mod block;
mod extents;
mod grid;
mod laws;
mod number;
mod range;

pub use array::{Array, ArrayClass, ArrayError, Shape, Values};
pub use dx_base::{ElemType, in_range};
pub use extents::{
    MAX_DIMENSIONS, MAX_EXTENT, MAX_ITEMS, MAX_RANK, MAX_VALUES, cell_count, has_room, point_count,
};
pub use laws::{cell_law, point_law, reach_law};
