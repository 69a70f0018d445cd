//! Tests of the lowest crates: of dx_base, and of the devices: those in memory, and one for each real edge.
#![tactic(auto)]

#[cfg(test)]
mod base;
#[cfg(test)]
mod folder;
#[cfg(test)]
mod made;
#[cfg(test)]
mod memory;
#[cfg(test)]
mod writer;
