//! What is listed behind each execution.

/// What is listed behind each execution, where it is asked for.
#[derive(Clone, Copy, Debug, PartialEq, Eq)]
pub struct Listings {
    /// A line for each event.
    pub trace: bool,
    /// The links, with the native texts of their values.
    pub links: bool,
}
