//! Links: what scripts keep under names from one execution to the next.
#![tactic(auto)]

mod changes;
mod held;
mod key;
mod laws;
mod links;
mod places;
mod putting;
mod settling;
mod slots;

pub use changes::Changes;
pub use held::{Change, Held, HeldRef};
pub use key::Key;
pub use laws::links_are_a_map;
pub use links::Links;
