//! The references of a native file: the first that names no object, or one that can't stand there.
#![tactic(auto)]

mod references;

pub use references::references_fault;
