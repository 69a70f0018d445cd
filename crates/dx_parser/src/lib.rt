//! The parser of scripts: the statements of a text, or its first error.
#![tactic(auto)]

mod macros;
mod script;
mod statements;

pub use dx_cursor::ParseFail;
pub use dx_script_laws::one_script;
pub use script::parse;
