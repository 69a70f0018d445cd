//! What a session prints: behind the text of an execution's effects the line of its error, its events and the links behind it, and
//! the lines of plays and frame settings that are refused.
#![tactic(auto)]

mod behind;
mod errors;
mod events;
mod laws;
mod links;
mod listings;
mod refusals;

pub use behind::push_behind;
pub use laws::{only_traces_tell_events, texts_are_in_order};
pub use listings::Listings;
pub use refusals::{frame_range, play_too_long};
