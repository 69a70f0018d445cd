//! What changes while terms are got.

use crate::event::Event;
use crate::known::Known;
use dx_cache::Cache;

/// The cache, the known calls and the events.
#[derive(Drop)]
pub struct Work {
    pub cache: Cache,
    pub known: Known,
    pub events: Vec<Event>,
}
