//! What is said of an array in a native file before and about its data: types, shapes, numbers of items, and values as
//! text and as raw bytes.
#![tactic(auto)]

mod array_head;
mod bounds;
mod data;
mod ints;
mod many;
mod plain;

pub use array_head::head;
pub use bounds::{int, natural, refused};
pub use data::{int_values, values};
pub use many::numbers;
