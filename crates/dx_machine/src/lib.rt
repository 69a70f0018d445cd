//! The cache machine over closed terms, as definitions, and what is true of it.
#![tactic(auto)]

mod laws;

pub use laws::{entries_change_no_answer, getting_keeps_soundness, steps_keep_soundness};
