//! The dictionary, which knows of its first definitions that no call of theirs has a fault: an assignment over those needs no
//! walk over them.
#![tactic(auto)]

mod checked;
mod known;
mod own;

pub use checked::CheckedDictionary;
