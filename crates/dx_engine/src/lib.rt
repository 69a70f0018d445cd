//! One execution over the cache: its effects in order, what they print, put and set, and the error that it ends with.
#![tactic(auto)]

mod attempting;
mod beginning;
mod done;
mod ending;
mod exec_error;
mod executing;
mod gathered;
mod performing;
mod prepared;
mod running;
mod short;
mod state;

pub use done::Done;
pub use exec_error::ExecError;
pub use gathered::Gathered;
pub use performing::perform;
pub use running::run_effects;
pub use short::Short;
pub use state::State;
