//! What a call can name, and what can be wrong with one call by itself.
#![tactic(auto)]

mod callee;
mod fault;
mod signature;

pub use callee::Callee;
pub use fault::StaticFault;
pub use signature::fault_of_call;
