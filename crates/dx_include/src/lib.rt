//! Loading: the statements of a session's file, with the statements of each included file in the place of its include.
#![tactic(auto)]

mod fail;
mod including;
mod loaded;

pub use fail::LoadFail;
pub use including::{load, one_loading};
