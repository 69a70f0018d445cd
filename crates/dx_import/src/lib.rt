//! Import: an object from a native file.
#![tactic(auto)]

mod import;
mod laws;

pub use dx_base::Bytes;
pub use dx_objects::{Code, Outs, RunFail};
pub use import::run_import;
pub use laws::steps_law;
