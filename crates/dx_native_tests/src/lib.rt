//! Tests of native files by public calls alone: what is written of objects of each class and kind.
#![tactic(auto)]

#[cfg(test)]
mod stock;
#[cfg(test)]
mod write;
