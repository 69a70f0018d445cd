//! The token at a place.

ghost use Rattle.std.specs.Prelude.{◌≡◌, ◌≤◌, length, IfOk};
ghost use Rattle.dx_base.specs.Tokens.Places as place;
ghost use Rattle.dx_base.specs.Tokens.Places.{IsWithin};
ghost use Rattle.dx_base.specs.Tokens.Reading as reading;
ghost use Rattle.dx_base.specs.Tokens.Reading.{IsReached, lexeme_at};
ghost use Rattle.dx_lexer.specs.Answers.{Answers, Finds, IsAmong, LiesIn, Stands};
ghost use Rattle.dx_lexer.specs.Lexemes.{as_lexeme};

use crate::borrowed::{Token, TokenKind, lexeme};
use crate::bytes::{begins_digit, is_name_start};
use crate::fail::{Fault, LexFail};
use crate::gap::after_gap;
use crate::number::number;
use crate::quoted::quoted;
use crate::word::{frame, name};
use dx_base::{Lexeme, Place, SyntaxError, SyntaxKind};
use std::alloc::Global;

/// The token at a place of a text, behind white space, comments and lines that begin with a dollar sign, with the places
/// of its first byte and behind its last one.
///
/// The place is the start of the text, or the `to` of a token that was read from such a place. The end of the text is a
/// token too. Where bytes are no token the refusal says why and where:
///
/// - `FloatNumber` at a number with a fraction that isn't zero, with an exponent, or that begins with its point;
/// - `NumberRange` at an integer that is no `i32`;
/// - `Syntax` at a name of more than 255 bytes, at an `@` without one of the five words of frames, at a quote that isn't
///   closed in its line, at a byte with which no token begins, and in a string that is closed at the first backslash that
///   isn't before a quote, a backslash or an `n`.
pub fn next(alloc: Global, text: &[u8], at: Place) -> Result<Lexeme, LexFail>
    requires { IsReached text.now at }
    ensures reads { Answers (lexeme_at text.now at) result }
    ensures stands { Stands text.now at result }
    ensures places { LiesIn text.now result }
    ensures reached { IfOk result (λ found. IsReached text.now found.to) }
{
    read(alloc, text, at)
}

fn read(alloc: Global, text: &[u8], at: Place) -> Result<Lexeme, LexFail>
    requires { IsReached text.now at }
    ensures { Answers (lexeme_at text.now at) result }
{
    let found = token_at(alloc, text, at)?;
    Ok(lexeme(alloc, found)?)
}

/// The same token, whose words stay where they stand in the text, so that it takes memory for a string alone.
pub fn next_token(alloc: Global, text: &[u8], at: Place) -> Result<Token<'_>, LexFail>
    requires { IsReached text.now at }
    ensures reads { Answers (lexeme_at text.now at) (as_lexeme result) }
    ensures stands { Stands text.now at (as_lexeme result) }
    ensures places { LiesIn text.now (as_lexeme result) }
    ensures reached { IfOk result (λ found. IsReached text.now found.to) }
{
    token_at(alloc, text, at)
}

#[tactic(auto, unfolding(dx_base::specs::Tokens::Reading::lexeme_at))]
fn token_at(alloc: Global, text: &[u8], at: Place) -> Result<Token<'_>, LexFail>
    requires { IsReached text.now at }
    ensures { Answers (lexeme_at text.now at) (as_lexeme result) }
{
    let (_, behind) = text.split_at(at.offset as usize);
    let (from, rest) = after_gap(at, behind);
    match front(alloc, rest) {
        Ok((kind, len)) => Ok(Token {
            kind,
            from,
            to: along(from, len),
        }),
        Err(Fault::Wrong(kind, before)) => {
            Err(LexFail::Refused(error_at(kind, along(from, before))))
        }
        Err(Fault::Memory) => Err(LexFail::Memory),
    }
}

/// The place behind so many bytes of one line.
fn along(at: Place, len: usize) -> Place
    requires { IsWithin at len }
    ensures { result ≡ place.along at len }
{
    Place {
        offset: at.offset + len as u64,
        line: at.line,
        column: at.column + len as u64,
    }
}

fn error_at(kind: SyntaxKind, at: Place) -> SyntaxError
    ensures { result ≡ place.error_at kind at }
{
    SyntaxError {
        kind,
        line: at.line,
        column: at.column,
    }
}

/// The token that a text begins with, and how many bytes it has.
#[tactic(auto, unfolding(dx_base::specs::Tokens::Reading::front))]
fn front(alloc: Global, text: &[u8]) -> Result<(TokenKind<'_>, usize), Fault>
    ensures found { Finds (reading.front text.now) result }
    ensures within { IsAmong (length text.now) result }
{
    let [b, rest @ ..] = text else {
        return Ok((TokenKind::End, 0));
    };
    match *b {
        b if is_name_start(b) => name(text),
        b'0'..=b'9' => number(false, 0, text),
        b'+' | b'-' if begins_digit(rest) => number(*b == b'-', 1, rest),
        b'.' if begins_digit(rest) => Err(Fault::Wrong(SyntaxKind::FloatNumber, 0)),
        b'"' => quoted(alloc, rest),
        b'@' => frame(rest),
        _ => sign(text),
    }
}

fn sign(text: &[u8]) -> Result<(TokenKind<'_>, usize), Fault>
    ensures found { Finds (reading.sign_front text.now) result }
    ensures within { IsAmong (length text.now) result }
{
    let len = sign_len(text);
    if len == 0 {
        return Err(Fault::Wrong(SyntaxKind::Syntax, 0));
    }
    Ok((TokenKind::Sign(&text[..len]), len))
}

/// How many bytes the sign has that a text begins with.
fn sign_len(text: &[u8]) -> usize
    ensures len { result ≡ reading.sign_len text.now }
    ensures within { result ≤ length text.now }
{
    match text {
        [b';' | b'=' | b',' | b':', ..] => 1,
        [b'(' | b')' | b'[' | b']' | b'{' | b'}', ..] => 1,
        [b'-', b'>', ..] | [b'.', b'.', ..] => 2,
        _ => 0,
    }
}
