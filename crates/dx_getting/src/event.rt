//! What an execution does.

use dx_base::Bytes;

/// A run, a hit, an entry that is kept with its stated size, or one that is dropped, each with a site; and an emptying.
/// Runs, hits and entries that are kept have the site of the call that formed the term first in this execution, and an
/// entry that is dropped has the site that it was stored under.
#[derive(Debug, PartialEq, Eq, Drop)]
pub enum Event {
    Run(Bytes),
    Hit(Bytes),
    Keep(Bytes, u64),
    Drop(Bytes),
    Clear,
}
