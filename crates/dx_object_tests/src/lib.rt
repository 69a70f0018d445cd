//! Tests of objects by public calls alone: rows of parts and what is made of them, names in large groups, the limits of
//! arrays and objects, lists of results, and what a recorder keeps.
#![tactic(auto)]

#[cfg(test)]
mod arrays;
#[cfg(test)]
mod changed;
#[cfg(test)]
mod makers;
#[cfg(test)]
mod names;
#[cfg(test)]
mod outs;
#[cfg(test)]
mod runs;
#[cfg(test)]
mod shown;
#[cfg(test)]
mod small;
#[cfg(test)]
mod stock;
#[cfg(test)]
mod wholes;
