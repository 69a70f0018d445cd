//! Tests of the links that an execution leaves to the next.
#![tactic(auto)]

#[cfg(test)]
mod commits;
#[cfg(test)]
mod files;
#[cfg(test)]
mod terms;
