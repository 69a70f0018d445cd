//! Tests of tokens and of parsing, by public calls alone.
#![tactic(auto)]

#[cfg(test)]
mod script_tests;
#[cfg(test)]
mod token_tests;
#[cfg(test)]
mod tokens;
#[cfg(test)]
mod trees;
#[cfg(test)]
mod writing;
