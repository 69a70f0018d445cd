//! The law of native files: a text means exactly one thing, and what is written of an object, read again, is that object.
#![tactic(auto)]

mod laws;

pub use laws::{native_law, written_law};
