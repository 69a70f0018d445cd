//! The last step on the way to a text.
use dx_base::Bytes;

/// The last step that leads to a text.
#[derive(Drop)]
pub enum Trail {
    /// The text is that of an assignment at the top level, whose first target this is.
    Target(Bytes),
    /// The text is the body of a macro: the trail of the text in which the macro is called, the macro's name, and the k of
    /// this call.
    Macro(Option<usize>, Bytes, usize),
}
