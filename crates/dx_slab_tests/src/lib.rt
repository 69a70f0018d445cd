//! Tests of Slab by its public call alone: fields as native text, and what the slabs of them are as canonical text.
#![tactic(auto)]

#[cfg(test)]
mod asked;
#[cfg(test)]
mod cells;
#[cfg(test)]
mod fields;
#[cfg(test)]
mod refusals;
#[cfg(test)]
mod slabs;
