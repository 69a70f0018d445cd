//! What looking at all arguments ends in.

use dx_base::Code;
use dx_looking::Refusal;
use dx_tags::ValueTags;

/// What looking at some arguments ends in: in the terms of their values, or at the first that has none.
#[derive(Debug, Drop)]
pub enum AllLooked {
    /// The terms of their values.
    Terms(ValueTags),
    /// One takes no part.
    Off,
    /// The value of the selector of a node doesn't fit.
    Halt(u32, Code),
    /// The selector of a node is refused.
    Refused(u32, Refusal),
}
