//! Tests of the cache: thousands of random calls against a plain list.
#![tactic(auto)]

#[cfg(test)]
mod made;
#[cfg(test)]
mod plain;
#[cfg(test)]
mod random;
