//! Tests of loading, of constants, of the table of functions and of the sequencer, by public calls alone.
#![tactic(auto)]

#[cfg(test)]
mod constant_tests;
#[cfg(test)]
mod load_tests;
#[cfg(test)]
mod sequencer_tests;
#[cfg(test)]
mod table_tests;
