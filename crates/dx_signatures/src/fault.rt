//! What can be wrong with a call before its statement is executed.

/// What can be wrong with a call before its statement is executed. At one call the order is `Calls`, and then that of
/// this list.
#[derive(Clone, Copy, Debug, PartialEq, Eq)]
pub enum StaticFault {
    /// The name is neither that of a macro nor that of a function.
    UnknownFunction,
    /// There are more arguments than named parameters and further arguments.
    TooManyArguments,
    /// No parameter has the name by which an argument is given, or the one that has it was given already.
    NoSuchParameter,
    /// There are more targets than results.
    TooManyResults,
    /// A call of a macro is the 65th macro step of its site.
    Nesting,
    /// The call is the 65,537th of the walk.
    Calls,
}
