//! Inquire: questions about objects.
#![tactic(auto)]

mod answers;
mod inquire;
mod laws;
mod question;

pub use dx_objects::{Code, Outs, RunFail};
pub use inquire::run_inquire;
pub use laws::steps_law;
