//! What is run, and the call that an error names: laws of executions, their courses and their meaning.
#![tactic(auto)]

mod laws;

pub use laws::{
    effects_end_as_meant, errors_are_found, halts_are_found, reads_are_of_names_not_put,
    refusals_run_last, runs_are_demanded, runs_come_in_order,
};
