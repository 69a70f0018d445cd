//! Tests of the library of modules through its trait: each of the fourteen answers as no other would, and the runs are kept.
#![tactic(auto)]

#[cfg(test)]
mod asked;
#[cfg(test)]
mod each_module;
#[cfg(test)]
mod files;
