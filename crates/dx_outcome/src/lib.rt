//! What a line of words comes to, as definitions: what is printed, put, run and asked for, with which status; what the language's
//! meaning gives for it; and laws of both.
#![tactic(auto)]

mod laws;

pub use laws::{
    entries_stay_within, one_outcome, outcomes_are_meant, reads_are_of_names_not_put,
    runs_are_demanded,
};
