//! Tests of reading native files: what each form means, which texts are refused and where, files that are made to do
//! harm, and that what was written reads back.
#![tactic(auto)]

#[cfg(test)]
mod answer;
#[cfg(test)]
mod hostile;
#[cfg(test)]
mod meanings;
#[cfg(test)]
mod raw;
#[cfg(test)]
mod refusals;
#[cfg(test)]
mod written;
