//! What resolving ends in, and what is kept of it.
use dx_base::Code;
use dx_tags::ValueTag;

/// What resolving an input ends in.
#[derive(Clone, Copy, Debug)]
pub enum Resolved {
    /// The term of its value.
    Value(ValueTag),
    /// It takes no part.
    Off,
    /// The value of the selector of a node doesn't fit.
    Halt(u32, Code),
    /// The value of the selector of a node isn't told.
    Need(ValueTag, u32),
}

/// What a result of a node comes to, where that rests on no value that isn't told.
#[derive(Clone, Copy, Debug)]
pub(crate) enum Settled {
    Value(ValueTag),
    Off,
    Halt(u32, Code),
}

/// A result of a node.
#[derive(Clone, Copy, Debug, PartialEq, Eq, Hash)]
pub(crate) struct Port {
    pub node: u32,
    pub result: u32,
}

/// What a port comes to, and the number of the input that gave it, if one did.
#[derive(Clone, Copy, Debug)]
pub(crate) struct Answer {
    pub settled: Settled,
    pub input: Option<usize>,
}
