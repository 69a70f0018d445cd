//! What the canonical text of an object is, by which native files are written: lines of words, and the lines of each
//! class of objects. It has definitions alone; the writer and the law that what was written reads back stand on it.
#![tactic(auto)]

mod listing;

pub use listing::Listing;
