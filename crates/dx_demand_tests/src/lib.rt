//! Tests of what takes part in an execution, over graphs of whole scripts.
#![tactic(auto)]

#[cfg(test)]
mod call_tests;
#[cfg(test)]
mod chain_tests;
#[cfg(test)]
mod choice_tests;
#[cfg(test)]
mod import_tests;
#[cfg(test)]
mod link_tests;
#[cfg(test)]
mod linked;
#[cfg(test)]
mod looking;
#[cfg(test)]
mod rows;
#[cfg(test)]
mod script;
#[cfg(test)]
mod shown;
#[cfg(test)]
mod told;
