//! Tokens for callers that read on from a place.

ghost use Rattle.std.specs.Prelude.{◌≡◌, ◌≤◌, length, drop};
ghost use Rattle.dx_native_lex.specs.Scan.{lexed};
ghost use Rattle.dx_native_lex.specs.Tokens.{IsToken};

use crate::cursor::{misfit, unquoted};
use crate::fault::NativeFail;
use crate::scan::{Kind, lexed};
use dx_base::Bytes;
use std::alloc::Global;

/// What a token is. A string holds the bytes that it stands for.
#[derive(Debug, Drop)]
pub enum TokenKind {
    End,
    Word(Bytes),
    Quoted(Bytes),
}

/// A token, its offset and that of the byte behind it.
#[derive(Debug, Drop)]
pub struct Token {
    pub kind: TokenKind,
    pub at: u64,
    pub end: u64,
}

/// The next token of a native file from an offset on, which is at most the length of the file: its kind, its offset and
/// that behind it. At the end of the file it is `End` there. `Syntax` at a quote that no quote in its line closes, and in a
/// string that is closed at the first backslash that isn't before a quote, a backslash or an `n`.
pub fn tokens(alloc: Global, bytes: &[u8], at: u64) -> Result<Token, NativeFail>
    requires { at ≤ length bytes.now }
    ensures { IsToken (lexed (record { offset = at; rest = drop at bytes.now })) result }
{
    let next = lexed(at, &bytes[at as usize..]);
    let kind = match next.kind {
        Kind::End => TokenKind::End,
        Kind::Word => TokenKind::Word(Bytes::copy_of(alloc, next.content)?),
        Kind::Quoted => TokenKind::Quoted(unquoted(alloc, next.content)?),
        Kind::Wrong => {
            return Err(NativeFail::Refused(misfit(&next)));
        }
    };
    Ok(Token {
        kind,
        at: next.at,
        end: next.end,
    })
}
