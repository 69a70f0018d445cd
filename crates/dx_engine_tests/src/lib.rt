//! Tests of executions by themselves, over what is kept from one to the next, by public calls alone.
#![tactic(auto)]

#[cfg(test)]
mod again_tests;
#[cfg(test)]
mod device_tests;
#[cfg(test)]
mod executed;
#[cfg(test)]
mod fault_tests;
#[cfg(test)]
mod file_tests;
#[cfg(test)]
mod link_tests;
#[cfg(test)]
mod long_tests;
#[cfg(test)]
mod rows;
#[cfg(test)]
mod script;
#[cfg(test)]
mod shown;
