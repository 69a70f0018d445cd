//! Tokens whose words stand where they are in the text.

ghost use Rattle.std.specs.Prelude.{◌≡◌, IfOk};
ghost use Rattle.dx_lexer.specs.Lexemes.{kind_of, lexeme_of};

use dx_base::{Bytes, LexKind, Lexeme, Place};
use std::alloc::{AllocError, Global};

/// What a token says, as `LexKind`. A string has the bytes that it stands for, in memory of their own.
#[derive(Drop)]
pub enum TokenKind<'a> {
    End,
    Name(&'a [u8]),
    Int(i32),
    Text(Bytes),
    Frame(&'a [u8]),
    Sign(&'a [u8]),
}

/// A token with the places of its first byte and behind its last one.
#[derive(Drop)]
pub struct Token<'a> {
    pub kind: TokenKind<'a>,
    pub from: Place,
    pub to: Place,
}

fn kind(alloc: Global, kind: TokenKind<'_>) -> Result<LexKind, AllocError>
    ensures { IfOk result (λ owned. owned ≡ kind_of kind.entry) }
{
    Ok(match kind {
        TokenKind::End => LexKind::End,
        TokenKind::Name(name) => LexKind::Name(Bytes::copy_of(alloc, name)?),
        TokenKind::Int(n) => LexKind::Int(n),
        TokenKind::Text(text) => LexKind::Text(text),
        TokenKind::Frame(word) => LexKind::Frame(Bytes::copy_of(alloc, word)?),
        TokenKind::Sign(sign) => LexKind::Sign(Bytes::copy_of(alloc, sign)?),
    })
}

/// The same token with its words in memory of their own.
pub fn lexeme(alloc: Global, token: Token<'_>) -> Result<Lexeme, AllocError>
    ensures { IfOk result (λ owned. owned ≡ lexeme_of token.entry) }
{
    Ok(Lexeme {
        kind: kind(alloc, token.kind)?,
        from: token.from,
        to: token.to,
    })
}
