//! The tokens of scripts, and why a text is no script.

use crate::Bytes;

/// A place in the text of a script: how many bytes are before it, its line, and its column in that line. Lines and
/// columns count from 1, and columns count bytes.
#[derive(Clone, Copy, Debug, PartialEq, Eq)]
pub struct Place {
    pub offset: u64,
    pub line: u64,
    pub column: u64,
}

/// A token of a script. A key word is a `Name`. A `Text` holds the bytes that its string stands for, a `Frame` the
/// word with its `@`.
#[derive(Debug, Drop)]
pub enum LexKind {
    End,
    Name(Bytes),
    Int(i32),
    Text(Bytes),
    Frame(Bytes),
    Sign(Bytes),
}

/// A token with the places of its first byte and behind its last one.
#[derive(Debug, Drop)]
pub struct Lexeme {
    pub kind: LexKind,
    pub from: Place,
    pub to: Place,
}

/// Why a text is no script.
#[derive(Clone, Copy, Debug, PartialEq, Eq)]
pub enum SyntaxKind {
    /// A token that doesn't fit, or bytes that are no token.
    Syntax,
    /// A number with a fraction that isn't zero, or with an exponent.
    FloatNumber,
    /// A number outside its range.
    NumberRange,
    /// An element of a list that differs in kind or in length from the first.
    MixedList,
    /// The element of a list that is one too many.
    ListTooLong,
}

/// The first error of a text, with its line and its column.
#[derive(Clone, Copy, Debug, PartialEq, Eq)]
pub struct SyntaxError {
    pub kind: SyntaxKind,
    pub line: u64,
    pub column: u64,
}
