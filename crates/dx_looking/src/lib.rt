//! Looking at the arguments of calls, where each selector that it meets is got as it is met.
#![tactic(auto)]

mod calls;
mod cut;
mod looked;
mod looking;
mod progress;
mod resolving;
mod selector;
mod setup;
mod told;

pub use calls::Calls;
pub use cut::Cut;
pub use looked::{Looked, Refusal, failed};
pub use looking::look;
pub use progress::Progress;
pub use setup::Setup;
pub use told::ToldValues;
