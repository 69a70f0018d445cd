//! What an execution does, as definitions: the acts of its effects, what it prints, puts, sets and ends with, and the course of
//! the cache machine over it.
#![tactic(auto)]

mod laws;

pub use laws::{
    entries_stay_sound, examples_compute, executions_leave_what_is_meant, formed_calls_stay,
    links_stay_right, looking_is_meant, looking_resumes, ready_stays, selectors_go_on,
};
