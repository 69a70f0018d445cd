//! References, attributes and parts in a native file: what stands in lines of their own behind an object's class, and the
//! tables by which names that differ are told.
#![tactic(auto)]

mod listing;
mod names;
mod tables;

pub use listing::{attributes, listing_content, repeated, text};
pub use names::NameSet;
