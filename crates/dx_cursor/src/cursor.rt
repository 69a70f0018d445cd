//! The tokens that are left of a text, with one of them in hand.

ghost use Rattle.std.specs.Prelude.{◌≡◌, IfOk, IfErr, OnErr};
ghost use Rattle.dx_base.specs.Tokens.Reading.{IsReached};
ghost use Rattle.dx_ast.specs.Classes as class;
ghost use Rattle.dx_ast.specs.Script.{tokens_of};
ghost use Rattle.dx_grammar.specs.Stream as stream;
ghost use Rattle.dx_script_grammar.specs.Reading as reading;
ghost use Rattle.dx_cursor.specs.Answers.{Reads};
ghost use Rattle.dx_cursor.specs.Cursor.{Given, GivenIn, refusal_of};

use crate::fail::ParseFail;
use crate::words::{frame_named, is_reserved, is_word, state_named};
use dx_ast::{FrameVar, Word};
use dx_base::{Bytes, Place, SyntaxError, SyntaxKind};
use dx_lexer::{LexFail, Token, TokenKind, next_token};
use std::alloc::Global;
use std::marker::Model;
use std::mem;

/// A text that is read from the left. Contracts see it as the tokens from the one in hand on.
#[derive(Drop)]
pub struct Cursor<'a> {
    text: &'a [u8],
    /// The token in hand, or the error that stands in its place.
    current: Result<Token<'a>, SyntaxError>,
}

impl<'a> Model for Cursor<'a> {
    ghost use Rattle.dx_ast.specs.Script.{Tokens};

    ghost Value = { Tokens };

    ghost use Rattle.dx_cursor.specs.Cursor.{tokens_in, IsReading};

    ghost view = { tokens_in };

    ghost invariant = { IsReading };
}

pub fn fault(kind: SyntaxKind, place: Place) -> SyntaxError
    ensures { result ≡ class.fault kind place }
{
    SyntaxError {
        kind,
        line: place.line,
        column: place.column,
    }
}

/// The token at a place, or its error.
fn read<'a>(
    alloc: Global,
    text: &'a [u8],
    at: Place,
) -> Result<Result<Token<'a>, SyntaxError>, ParseFail>
    requires { IsReached text.now at }
    ensures { Given text.now at result }
{
    match next_token(alloc, text, at) {
        Ok(found) => Ok(Ok(found)),
        Err(LexFail::Refused(e)) => Ok(Err(e)),
        Err(LexFail::Memory) => Err(ParseFail::Memory),
    }
}

/// Puts the token at a place, or its error, where another stands. Nothing else reads a token, so that LLVM makes it where it
/// stays.
fn read_into<'a>(
    alloc: Global,
    text: &'a [u8],
    at: Place,
    current: &mut Result<Token<'a>, SyntaxError>,
) -> Result<(), ParseFail>
    requires { IsReached text.now at }
    ensures given { GivenIn text.now at current.new result }
    ensures left { OnErr result (current.new ≡ current.old) }
{
    *current = read(alloc, text, at)?;
    Ok(())
}

/// What is wrong with a token that doesn't fit.
fn refusal(current: &Result<Token<'_>, SyntaxError>) -> ParseFail
    ensures { result ≡ ParseFail.Refused (refusal_of current.now) }
{
    match current {
        Ok(token) => ParseFail::Refused(fault(SyntaxKind::Syntax, token.from)),
        Err(error) => ParseFail::Refused(*error),
    }
}

impl<'a> Cursor<'a> {
    /// At the first token of a text.
    pub fn new(alloc: Global, text: &'a [u8]) -> Result<Cursor<'a>, ParseFail>
        ensures tokens { IfOk result (λ cursor. cursor ≡ tokens_of text.now) }
        ensures memory { IfErr result (λ f. f ≡ ParseFail.Memory) }
    {
        let start = Place {
            offset: 0,
            line: 1,
            column: 1,
        };
        let mut current = Err(NOWHERE);
        read_into(alloc, text, start, &mut current)?;
        Ok(Cursor { text, current })
    }

    /// The sign stands there.
    #[tactic(auto, unfolding(dx_script_grammar::specs::Reading::sees))]
    pub fn sees(&self, sign: &[u8]) -> bool
        ensures { result ≡ reading.sees sign.now self.now }
    {
        match &self.current {
            Ok(
                Token {
                    kind: TokenKind::Sign(found),
                    ..
                },
            ) => is_word(found, sign),
            _ => false,
        }
    }

    /// The word stands there.
    #[tactic(auto, unfolding(dx_script_grammar::specs::Reading::sees_key))]
    pub fn sees_key(&self, word: &[u8]) -> bool
        ensures { result ≡ reading.sees_key word.now self.now }
    {
        match &self.current {
            Ok(
                Token {
                    kind: TokenKind::Name(found),
                    ..
                },
            ) => is_word(found, word),
            _ => false,
        }
    }

    /// A name stands there.
    #[tactic(auto, unfolding(dx_script_grammar::specs::Reading::sees_name))]
    pub fn sees_name(&self) -> bool
        ensures { result ≡ reading.sees_name self.now }
    {
        match &self.current {
            Ok(
                Token {
                    kind: TokenKind::Name(found),
                    ..
                },
            ) => !is_reserved(found),
            _ => false,
        }
    }

    /// An integer stands there.
    #[tactic(auto, unfolding(dx_script_grammar::specs::Reading::sees_int))]
    pub fn sees_int(&self) -> bool
        ensures { result ≡ reading.sees_int self.now }
    {
        match &self.current {
            Ok(
                Token {
                    kind: TokenKind::Int(_),
                    ..
                },
            ) => true,
            _ => false,
        }
    }

    /// A string stands there.
    #[tactic(auto, unfolding(dx_script_grammar::specs::Reading::sees_text))]
    pub fn sees_text(&self) -> bool
        ensures { result ≡ reading.sees_text self.now }
    {
        match &self.current {
            Ok(
                Token {
                    kind: TokenKind::Text(_),
                    ..
                },
            ) => true,
            _ => false,
        }
    }

    /// A variable of the sequencer stands there.
    #[tactic(auto, unfolding(dx_script_grammar::specs::Reading::sees_frame))]
    pub fn sees_frame(&self) -> bool
        ensures { result ≡ reading.sees_frame self.now }
    {
        match &self.current {
            Ok(
                Token {
                    kind: TokenKind::Frame(found),
                    ..
                },
            ) => frame_named(found).is_some(),
            _ => false,
        }
    }

    /// No token is left, whatever stands in place of one.
    #[tactic(auto, unfolding(dx_script_grammar::specs::Reading::ended))]
    pub fn has_ended(&self) -> bool
        ensures { result ≡ reading.ended self.now }
    {
        match &self.current {
            Ok(
                Token {
                    kind: TokenKind::End,
                    ..
                },
            ) => true,
            Ok(_) => false,
            Err(_) => true,
        }
    }

    /// A name, and its place.
    #[tactic(auto, unfolding(dx_script_grammar::specs::Reading::name))]
    pub fn name(&mut self, alloc: Global) -> Result<(Place, Bytes), ParseFail>
        ensures { Reads (reading.name self.old) result self.new }
    {
        match &self.current {
            Ok(
                Token {
                    kind: TokenKind::Name(name),
                    from,
                    to,
                },
            ) if !is_reserved(name) => {
                let found = (*from, Bytes::copy_of(alloc, name)?);
                read_into(alloc, self.text, *to, &mut self.current)?;
                Ok(found)
            }
            _ => Err(refusal(&self.current)),
        }
    }

    /// A string, and its place.
    #[tactic(auto, unfolding(dx_script_grammar::specs::Reading::text))]
    pub fn text(&mut self, alloc: Global) -> Result<(Place, Bytes), ParseFail>
        ensures { Reads (reading.text self.old) result self.new }
    {
        match mem::replace(&mut self.current, Err(NOWHERE)) {
            Ok(Token { kind, from, to }) => match kind {
                TokenKind::Text(text) => {
                    read_into(alloc, self.text, to, &mut self.current)?;
                    Ok((from, text))
                }
                kind => {
                    self.current = Ok(Token { kind, from, to });
                    Err(refusal(&self.current))
                }
            },
            Err(error) => {
                self.current = Err(error);
                Err(ParseFail::Refused(error))
            }
        }
    }

    /// An integer, and its place.
    #[tactic(auto, unfolding(dx_script_grammar::specs::Reading::int))]
    pub fn int(&mut self, alloc: Global) -> Result<(Place, i32), ParseFail>
        ensures { Reads (reading.int self.old) result self.new }
    {
        match &self.current {
            Ok(
                Token {
                    kind: TokenKind::Int(n),
                    from,
                    to,
                },
            ) => {
                let found = (*from, *n);
                read_into(alloc, self.text, *to, &mut self.current)?;
                Ok(found)
            }
            _ => Err(refusal(&self.current)),
        }
    }

    /// A variable of the sequencer, and its place.
    #[tactic(auto, unfolding(dx_script_grammar::specs::Reading::frame))]
    pub fn frame(&mut self, alloc: Global) -> Result<(Place, FrameVar), ParseFail>
        ensures { Reads (reading.frame self.old) result self.new }
    {
        match &self.current {
            Ok(
                Token {
                    kind: TokenKind::Frame(word),
                    from,
                    to,
                },
            ) => match frame_named(word) {
                Some(frame) => {
                    let found = (*from, frame);
                    read_into(alloc, self.text, *to, &mut self.current)?;
                    Ok(found)
                }
                None => Err(refusal(&self.current)),
            },
            _ => Err(refusal(&self.current)),
        }
    }

    /// The sign, and its place.
    #[tactic(auto, unfolding(dx_script_grammar::specs::Reading::sign))]
    pub fn sign(&mut self, alloc: Global, sign: &[u8]) -> Result<Place, ParseFail>
        ensures { Reads (reading.sign sign.now self.old) result self.new }
    {
        match &self.current {
            Ok(
                Token {
                    kind: TokenKind::Sign(found),
                    from,
                    to,
                },
            ) if is_word(found, sign) => {
                let place = *from;
                read_into(alloc, self.text, *to, &mut self.current)?;
                Ok(place)
            }
            _ => Err(refusal(&self.current)),
        }
    }

    /// The word, and its place.
    #[tactic(auto, unfolding(dx_script_grammar::specs::Reading::key))]
    pub fn key(&mut self, alloc: Global, word: &[u8]) -> Result<Place, ParseFail>
        ensures { Reads (reading.key word.now self.old) result self.new }
    {
        match &self.current {
            Ok(
                Token {
                    kind: TokenKind::Name(found),
                    from,
                    to,
                },
            ) if is_word(found, word) => {
                let place = *from;
                read_into(alloc, self.text, *to, &mut self.current)?;
                Ok(place)
            }
            _ => Err(refusal(&self.current)),
        }
    }

    /// `on` or `off`: what the switch says with it, and its place.
    #[tactic(auto, unfolding(dx_script_grammar::specs::Reading::state))]
    pub fn state(&mut self, alloc: Global, switch: (Word, Word)) -> Result<(Place, Word), ParseFail>
        ensures { Reads (reading.state switch self.old) result self.new }
    {
        match &self.current {
            Ok(
                Token {
                    kind: TokenKind::Name(word),
                    from,
                    to,
                },
            ) => match state_named(switch, word) {
                Some(state) => {
                    let found = (*from, state);
                    read_into(alloc, self.text, *to, &mut self.current)?;
                    Ok(found)
                }
                None => Err(refusal(&self.current)),
            },
            _ => Err(refusal(&self.current)),
        }
    }

    /// A comma, if one stands there.
    #[tactic(auto, unfolding(dx_script_grammar::specs::Reading::comma))]
    pub fn comma(&mut self, alloc: Global) -> Result<(), ParseFail>
        ensures { Reads (reading.comma self.old) result self.new }
    {
        if self.sees(b",") {
            self.sign(alloc, b",")?;
        }
        Ok(())
    }

    /// The end of the text.
    pub fn end(&mut self) -> Result<(), ParseFail>
        ensures { Reads (stream.end class.misfit self.old) result self.new }
    {
        match &self.current {
            Ok(
                Token {
                    kind: TokenKind::End,
                    ..
                },
            ) => Ok(()),
            _ => Err(refusal(&self.current)),
        }
    }
}

/// Stands in a cursor while its token is moved out.
const NOWHERE: SyntaxError = SyntaxError {
    kind: SyntaxKind::Syntax,
    line: 0,
    column: 0,
};
