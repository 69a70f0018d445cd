//! A bounded cache of results: a list of entries, the oldest first, the sum of whose stated sizes is at most a budget.
#![tactic(auto)]

mod cache;
mod chains;
mod entry;
mod names;
mod slots;

pub use cache::Cache;
pub use entry::Entry;
