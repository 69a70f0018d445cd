//! The modules of the executive as one library: each answers as its own crate defines it.
#![tactic(auto)]

mod laws;
mod library;

pub use dx_base::Module;
pub use dx_objects::{Code, Library, Outs, RunFail};
pub use laws::steps_law;
pub use library::Modules;
