//! Tests of fields and of the modules that hand on parts of objects, by public calls alone: rows of a call and what it
//! answers.
#![tactic(auto)]

#[cfg(test)]
mod calls;
#[cfg(test)]
mod classes;
#[cfg(test)]
mod fields;
#[cfg(test)]
mod limits;
#[cfg(test)]
mod rows;
#[cfg(test)]
mod shown;
#[cfg(test)]
mod stock;
