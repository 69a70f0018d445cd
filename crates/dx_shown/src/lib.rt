//! What a session shows, as definitions: its executions one by one, by how an execution is made; as the meaning makes them, afresh
//! each time, and as the cache machine does.
#![tactic(auto)]

mod laws;

pub use laws::sessions_show_what_is_meant;
