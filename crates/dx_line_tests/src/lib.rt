//! Tests of the program's line: the words that it is started with, and the text of the workload.
#![tactic(auto)]

#[cfg(test)]
mod words;
#[cfg(test)]
mod workload;
