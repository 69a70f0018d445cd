//! The object of a clause: a walk by depth first, in which each clause is made into one object, shared by all that refer
//! to it.
#![tactic(auto)]

mod fail;
mod memo;
mod objects;
mod walk;

pub use fail::BuildFail;
pub use memo::Memo;
pub use walk::{build, clause_object, nothing_built};
