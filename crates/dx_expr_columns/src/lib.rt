//! The components of a vector expression, each as an expression that is a single value; and these in place of vectors where
//! an expression is a single value itself.
#![tactic(auto)]

mod component;
mod copying;
mod scalars;
mod width;

pub use component::column;
pub use copying::copy;
pub use scalars::by_components;
pub use width::width_of;
