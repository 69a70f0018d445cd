//! What the name of a call means.
use dx_ast::MacroDef;
use dx_base::Function;

/// What the name of a call means.
#[derive(Clone, Copy)]
pub enum Callee<'a> {
    Unknown,
    Macro(&'a MacroDef),
    Function(Function),
}
