//! Tests of whole sessions over files in memory, by public calls alone.
#![tactic(auto)]

#[cfg(test)]
mod cache_tests;
#[cfg(test)]
mod composite_tests;
#[cfg(test)]
mod constant_tests;
#[cfg(test)]
mod fault_tests;
#[cfg(test)]
mod file_tests;
#[cfg(test)]
mod link_tests;
#[cfg(test)]
mod macro_tests;
#[cfg(test)]
mod module_tests;
#[cfg(test)]
mod rows;
#[cfg(test)]
mod sequencer_tests;
