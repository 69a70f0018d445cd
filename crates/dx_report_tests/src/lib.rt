//! Tests of the modules that report on objects, and of what Print shows of an object with its parts.
#![tactic(auto)]

#[cfg(test)]
mod answers;
#[cfg(test)]
mod described;
#[cfg(test)]
mod histogram;
#[cfg(test)]
mod inquire;
#[cfg(test)]
mod made;
#[cfg(test)]
mod parts;
#[cfg(test)]
mod printed;
#[cfg(test)]
mod statistics;
#[cfg(test)]
mod together;
