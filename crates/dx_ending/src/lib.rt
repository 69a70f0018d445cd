//! What an execution does behind its last effect: the links are changed with their values by their terms, and the files are put.
#![tactic(auto)]

mod filling;
mod in_place;
mod laws;
mod puts;

pub use filling::is_full;
pub use in_place::{InPlace, Ready, change_in_place, prepare_in_place};
pub use laws::{changes_set_terms, emptying_holds_links};
pub use puts::{Put, make_puts, ready};
