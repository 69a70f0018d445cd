//! What changes through an execution.

use crate::told::ToldValues;
use dx_demand::Seen;
use dx_getting::Work;
use dx_tags::Tags;

/// The terms that were formed, what was seen of the graph, the values of selectors, and the cache, the known calls and the
/// events.
#[derive(Drop)]
pub struct Progress {
    pub tags: Tags,
    pub seen: Seen,
    pub told: ToldValues,
    pub work: Work,
}
