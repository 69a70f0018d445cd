//! A whole line of words: which session or workload it names, its loading, and its statements over what is kept, up to the status with
//! which the program ends.
#![tactic(auto)]

mod lines;
mod loading;
mod run;
mod workload;

pub use dx_making::End;
pub use run::run_dxi;
