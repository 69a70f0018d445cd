//! Names, and the words of frames.

ghost use Rattle.std.specs.Prelude.{◌≡◌, ◌≤◌, ◌+◌, ◌<◌, ◌∷◌, length, IfSome, is_some};
ghost use Rattle.dx_base.specs.Tokens.Ascii as ascii;
ghost use Rattle.dx_base.specs.Tokens.Reading as reading;
ghost use Rattle.dx_lexer.specs.Answers.{Finds, IsAmong};

use crate::borrowed::TokenKind;
use crate::bytes::word_len;
use crate::fail::Fault;
use dx_base::SyntaxKind;

/// Names have at most so many bytes.
const MAX_NAME: usize = 255;

/// The name that a text begins with.
#[tactic(auto, unfolding(dx_base::specs::Tokens::Reading::name_front))]
pub fn name(text: &[u8]) -> Result<(TokenKind<'_>, usize), Fault>
    ensures found { Finds (reading.name_front text.now) result }
    ensures within { IsAmong (length text.now) result }
{
    let len = word_len(text);
    if len > MAX_NAME {
        return Err(Fault::Wrong(SyntaxKind::Syntax, 0));
    }
    Ok((TokenKind::Name(&text[..len]), len))
}

/// The frame whose word a text begins with, behind its '@'.
#[tactic(auto, unfolding(dx_base::specs::Tokens::Reading::frame_front))]
pub fn frame(text: &[u8]) -> Result<(TokenKind<'_>, usize), Fault>
    ensures found { Finds (reading.frame_front text.now) result }
    ensures within { IsAmong (1 + length text.now) result }
{
    frame_of(&text[..word_len(text)])
}

fn frame_of(word: &[u8]) -> Result<(TokenKind<'_>, usize), Fault>
    ensures found { Finds (reading.frame_of word.now) result }
    ensures within { IsAmong (1 + length word.now) result }
{
    match frame_word(word) {
        Some(frame) => Ok((TokenKind::Frame(frame), 1 + word.len())),
        None => Err(Fault::Wrong(SyntaxKind::Syntax, 0)),
    }
}

/// The word with its '@', if it is one of the five words of frames.
fn frame_word(word: &[u8]) -> Option<&'static [u8]>
    ensures some { IfSome result (λ frame. frame.now ≡ ascii.at_sign ∷ word.now) }
    ensures is { is_some result ≡ reading.is_frame word.now }
{
    if word == b"startframe".as_slice() {
        Some(b"@startframe")
    } else if word == b"endframe".as_slice() {
        Some(b"@endframe")
    } else if word == b"deltaframe".as_slice() {
        Some(b"@deltaframe")
    } else if word == b"nextframe".as_slice() {
        Some(b"@nextframe")
    } else if word == b"frame".as_slice() {
        Some(b"@frame")
    } else {
        None
    }
}
