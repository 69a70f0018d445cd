//! Tests of what an execution does behind its last effect.
#![tactic(auto)]

#[cfg(test)]
mod files;
#[cfg(test)]
mod linked;
#[cfg(test)]
mod terms;
