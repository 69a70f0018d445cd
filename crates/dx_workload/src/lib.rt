//! The text of the built-in workload: a session of so many executions, for measuring.
#![tactic(auto)]

mod text;

pub use dx_base::Bytes;
pub use text::workload_text;
