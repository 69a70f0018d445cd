//! Tests of the data crates by public calls alone: arrays, constants, and what Print and Echo write.
#![tactic(auto)]

#[cfg(test)]
mod arrays;
#[cfg(test)]
mod arrays_made;
#[cfg(test)]
mod consts;
#[cfg(test)]
mod print;
