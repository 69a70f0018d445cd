//! Reads a native file: the object that it means, or why it is refused and where.
#![tactic(auto)]

mod read;

pub use dx_base::{Bytes, NativeKind};
pub use dx_native_lex::{NativeError, NativeFail, Token, TokenKind, tokens};
pub use dx_objects::Object;
pub use read::{Checked, read_checked, read_object};
