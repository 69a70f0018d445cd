//! The kinds of lists that an object's parts stand in.

/// How the parts of an object are listed in a native file.
#[derive(Clone, Copy)]
pub enum Listing {
    /// The components of a field, each by its name.
    Components,
    /// The members of a group or a composite group, each by its name, or where it has none by the number of members
    /// before it.
    Members,
    /// The members of a series, each by the number of members before it and its position.
    PlacedMembers,
}
