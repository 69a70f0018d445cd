//! Writes an object as a native file.
#![tactic(auto)]

mod array_lines;
mod class_line;
mod inline;
mod listing;
mod object_lines;
mod write;

pub use write::write_object;
