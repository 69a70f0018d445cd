//! Strings.

ghost use Rattle.std.specs.Prelude.{◌≡◌, ◌≤◌, ◌+◌, ◌<◌, length, IfSome, [], false};
ghost use Rattle.dx_base.specs.Tokens.Classes as class;
ghost use Rattle.dx_base.specs.Tokens.Spelling.{unescaped};
ghost use Rattle.dx_base.specs.Tokens.Reading as reading;
ghost use Rattle.dx_lexer.specs.Answers.{Finds, IsAmong};

use crate::borrowed::TokenKind;
use crate::fail::Fault;
use dx_base::{Bytes, SyntaxKind};
use std::alloc::Global;

/// The string behind its opening quote, and how many bytes it has with both quotes.
#[tactic(auto, unfolding(dx_base::specs::Tokens::Reading::string_front))]
pub fn quoted(alloc: Global, text: &[u8]) -> Result<(TokenKind<'_>, usize), Fault>
    ensures found { Finds (reading.string_front text.now) result }
    ensures within { IsAmong (1 + length text.now) result }
{
    let Some(len) = closed_at(text) else {
        return Err(Fault::Wrong(SyntaxKind::Syntax, 0));
    };
    inside(alloc, &text[..len])
}

/// How many bytes are before the closing quote, if it comes in this line.
#[tactic(auto, unfolding(dx_base::specs::Tokens::Reading::closed_at))]
fn closed_at(text: &[u8]) -> Option<usize>
    ensures len { result ≡ reading.closed_at 0 false text.now }
    ensures within { IfSome result (λ n. n < length text.now) }
{
    let mut n = 0;
    let mut escape = false;
    let mut rest = text;
    while let [b, after @ ..] = rest {
        let b = *b;
        if b == b'\n' {
            return None;
        }
        if b == b'"' && !escape {
            return Some(n);
        }
        escape = b == b'\\' && !escape;
        n += 1;
        rest = after;
    }
    None
}

/// The string with this inside.
#[tactic(auto, unfolding(dx_base::specs::Tokens::Reading::text_from))]
fn inside(alloc: Global, text: &[u8]) -> Result<(TokenKind<'_>, usize), Fault>
    ensures found { Finds (reading.string_of (length text.now) (reading.text_from [] 0 false text.now)) result }
    ensures within { IsAmong (length text.now + 2) result }
{
    let mut found = Vec::with_capacity(alloc, text.len())?;
    let mut before = 0;
    let mut escape = false;
    let mut rest = text;
    while let [b, after @ ..] = rest {
        let b = *b;
        if escape {
            if !is_escape(b) {
                break;
            }
            found.push(unescaped(b))?;
            before += 2;
            escape = false;
        } else if b == b'\\' {
            escape = true;
        } else {
            found.push(b)?;
            before += 1;
        }
        rest = after;
    }
    if escape {
        return Err(Fault::Wrong(SyntaxKind::Syntax, 1 + before));
    }
    Ok((TokenKind::Text(Bytes::from_vec(found)), text.len() + 2))
}

fn is_escape(b: u8) -> bool
    ensures { result ≡ class.is_escape b }
{
    b == b'"' || b == b'\\' || b == b'n'
}

fn unescaped(b: u8) -> u8
    ensures { result ≡ unescaped b }
{
    if b == b'n' { b'\n' } else { b }
}
