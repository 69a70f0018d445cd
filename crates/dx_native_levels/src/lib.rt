//! How many levels the object of a clause has, found before any object is made.
#![tactic(auto)]

mod levels;

pub use levels::object_levels;
