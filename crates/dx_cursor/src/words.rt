//! Words by what they say.

ghost use Rattle.std.specs.Prelude.{◌≡◌};
ghost use Rattle.std.specs.Str.{bytes_eq};
ghost use Rattle.dx_ast.specs.Classes as class;

use dx_ast::{FrameVar, Word};

/// Whether both are written alike.
pub fn is_word(a: &[u8], b: &[u8]) -> bool
    ensures { result ≡ bytes_eq a.now b.now }
{
    a == b
}

/// A word that is no name.
pub fn is_reserved(word: &[u8]) -> bool
    ensures { result ≡ class.is_reserved word.now }
{
    is_word(word, b"macro") || is_word(word, b"include") || is_word(word, b"NULL")
}

/// The variable that a word with `@` names.
pub fn frame_named(word: &[u8]) -> Option<FrameVar>
    ensures { result ≡ class.frame_named word.now }
{
    if is_word(word, b"@startframe") {
        Some(FrameVar::Start)
    } else if is_word(word, b"@endframe") {
        Some(FrameVar::End)
    } else if is_word(word, b"@deltaframe") {
        Some(FrameVar::Delta)
    } else if is_word(word, b"@nextframe") {
        Some(FrameVar::Next)
    } else if is_word(word, b"@frame") {
        Some(FrameVar::Frame)
    } else {
        None
    }
}

/// The word of the sequencer that stands alone.
pub fn word_named(word: &[u8]) -> Option<Word>
    ensures { result ≡ class.word_named word.now }
{
    if is_word(word, b"play") {
        Some(Word::Play)
    } else if is_word(word, b"step") {
        Some(Word::Step)
    } else if is_word(word, b"stop") {
        Some(Word::Stop)
    } else if is_word(word, b"forward") {
        Some(Word::Forward)
    } else if is_word(word, b"backward") {
        Some(Word::Backward)
    } else {
        None
    }
}

/// A switch of the sequencer: what it says with `on`, and with `off`.
pub fn switch_named(word: &[u8]) -> Option<(Word, Word)>
    ensures { result ≡ class.switch_named word.now }
{
    if is_word(word, b"loop") {
        Some((Word::LoopOn, Word::LoopOff))
    } else if is_word(word, b"palindrome") {
        Some((Word::PalindromeOn, Word::PalindromeOff))
    } else {
        None
    }
}

/// What a switch says with `on` or `off`.
pub fn state_named(switch: (Word, Word), word: &[u8]) -> Option<Word>
    ensures { result ≡ class.state_named switch word.now }
{
    if is_word(word, b"on") {
        Some(switch.0)
    } else if is_word(word, b"off") {
        Some(switch.1)
    } else {
        None
    }
}
