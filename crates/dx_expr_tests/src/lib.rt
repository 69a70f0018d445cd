//! Tests of expressions: texts that are refused, and values, by public calls alone.
#![tactic(auto)]

#[cfg(test)]
mod refusal_tests;
#[cfg(test)]
mod value_tests;
