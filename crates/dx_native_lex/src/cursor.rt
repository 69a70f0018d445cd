//! A place in a text.

ghost use Rattle.std.specs.Prelude.{◌≡◌, ◌+◌, ◌<◌, ◌≤◌, ◌^◌, length, IfOk, IfSome, Ok, false};
ghost use Rattle.dx_base.specs.Tokens.Spelling.{unescaped};
ghost use Rattle.dx_native_lex.specs.Answer.{IsLine};
ghost use Rattle.dx_native_lex.specs.Scan as spec;
ghost use Rattle.dx_native_lex.specs.Shown.{shown};
ghost use Rattle.dx_native_lex.specs.Token as token_spec;
ghost use Rattle.dx_native_lex.specs.Token.{Reads, Shows};
ghost use Rattle.dx_native_lex.specs.Raw as raw_spec;

use crate::fault::{NativeError, NativeFail};
use crate::number::{is_float, number_of, plain_at};
use crate::scan::{Kind, Lexeme, lexed, unblanked};
use crate::token::{Named, Number};
use dx_base::{Bytes, NativeKind};
use std::alloc::{AllocError, Global};
use std::marker::Model;

#[derive(Drop)]
pub struct Cursor<'a> {
    offset: u64,
    rest: &'a [u8],
}

impl<'a> Model for Cursor<'a> {
    ghost use Rattle.std.specs.Prelude.{◌+◌, ◌<◌, ◌^◌, length};
    ghost use Rattle.dx_places.specs.Grammar.{At};

    ghost Value = { At };

    ghost view = { λ c. record { offset = c.offset; rest = c.rest.now } };

    ghost invariant = { λ c. c.offset + length c.rest.now < 2 ^ 63 };
}

pub fn misfit(token: &Lexeme<'_>) -> NativeError
    ensures { result ≡ token_spec.misfit (shown token.now) }
{
    match token.kind {
        Kind::End => NativeError {
            kind: NativeKind::Truncated,
            at: token.at,
        },
        _ => NativeError {
            kind: NativeKind::Syntax,
            at: token.at,
        },
    }
}

fn is_no_number(token: &Lexeme<'_>) -> bool
    ensures { result ≡ token_spec.is_no_number token.now.kind token.now.content.now }
{
    match token.kind {
        Kind::Word => number_of(token.content).is_none() && is_float(token.content),
        _ => false,
    }
}

/// The fault of a token where a number may stand.
pub fn number_misfit(token: &Lexeme<'_>) -> NativeError
    ensures { result ≡ token_spec.number_misfit (shown token.now) }
{
    if is_no_number(token) {
        return NativeError {
            kind: NativeKind::FloatType,
            at: token.at,
        };
    }
    misfit(token)
}

/// The bytes that the inside of a string stands for.
#[tactic(auto, unfolding(crate::specs::Scan::meaning_of))]
pub fn unquoted(alloc: Global, text: &[u8]) -> Result<Bytes, AllocError>
    ensures { IfOk result (λ b. b ≡ spec.meaning_of false text.now) }
{
    let mut found = Vec::with_capacity(alloc, text.len())?;
    let mut escape = false;
    let mut rest = text;
    while let [b, after @ ..] = rest {
        let b = *b;
        if escape {
            found.push(unescaped(b))?;
            escape = false;
        } else if b == b'\\' {
            escape = true;
        } else {
            found.push(b)?;
        }
        rest = after;
    }
    Ok(Bytes::from_vec(found))
}

fn unescaped(b: u8) -> u8
    ensures { result ≡ unescaped b }
{
    if b == b'n' { b'\n' } else { b }
}

/// The number that comes next, with the place behind it, where it is spelled by few digits alone, behind a minus or not.
/// None says nothing.
fn plain_number(offset: u64, text: &[u8]) -> Option<(Number, u64, &[u8])>
    requires { offset + length text.now < 2 ^ 63 }
    ensures read { IfSome result (λ x. token_spec.number.read (record { offset = offset; rest = text.now }) ≡ Ok (x.0, record { offset = x.1; rest = x.2.now })) }
    ensures within { IfSome result (λ x. x.1 + length x.2.now < 2 ^ 63) }
{
    let (at, rest) = unblanked(offset, text);
    plain_at(at, rest)
}

impl<'a> Cursor<'a> {
    pub fn new(text: &'a [u8]) -> Cursor<'a>
        requires { length text.now < 2 ^ 63 }
        ensures { result ≡ record { offset = 0; rest = text.now } }
    {
        Cursor {
            offset: 0,
            rest: text,
        }
    }

    /// How many bytes are left.
    pub fn left(&self) -> usize
        ensures { result ≡ length self.now.rest }
    {
        self.rest.len()
    }

    /// The next token. The cursor stays.
    pub fn peek(&self) -> Lexeme<'a>
        ensures value { shown result ≡ spec.lexed self.now }
        ensures within { result.end + length result.after.now < 2 ^ 63 }
    {
        lexed(self.offset, self.rest)
    }

    /// Goes on after the token.
    pub fn pass(&mut self, token: &Lexeme<'a>)
        requires { token.now.end + length token.now.after.now < 2 ^ 63 }
        ensures { self.new ≡ record { offset = token.now.end; rest = token.now.after.now } }
    {
        self.offset = token.end;
        self.rest = token.after;
    }

    /// Whether the next token is this word.
    pub fn sees(&self, word: &[u8]) -> bool
        ensures { result ≡ token_spec.sees word.now self.now }
    {
        let next = self.peek();
        match next.kind {
            Kind::Word => next.content == word,
            _ => false,
        }
    }

    /// Takes this word.
    #[tactic(auto, unfolding(crate::specs::Token::key))]
    pub fn key(&mut self, word: &[u8]) -> Result<(), NativeFail>
        ensures { Reads ((token_spec.key word.now).read self.old) result self.new }
    {
        let next = self.peek();
        match next.kind {
            Kind::Word if next.content == word => {
                self.pass(&next);
                Ok(())
            }
            _ => Err(NativeFail::Refused(misfit(&next))),
        }
    }

    /// Takes a quoted string or a word.
    #[tactic(auto, unfolding(crate::specs::Token::named))]
    pub fn named(&mut self, alloc: Global) -> Result<Named, NativeFail>
        ensures { Reads (token_spec.named.read self.old) result self.new }
    {
        let next = self.peek();
        match next.kind {
            Kind::Word => {
                let text = Bytes::copy_of(alloc, next.content)?;
                self.pass(&next);
                Ok(Named { text, at: next.at })
            }
            Kind::Quoted => {
                let text = unquoted(alloc, next.content)?;
                self.pass(&next);
                Ok(Named { text, at: next.at })
            }
            _ => Err(NativeFail::Refused(misfit(&next))),
        }
    }

    /// Takes a quoted string.
    #[tactic(auto, unfolding(crate::specs::Token::quoted))]
    pub fn quoted(&mut self, alloc: Global) -> Result<Named, NativeFail>
        ensures { Reads (token_spec.quoted.read self.old) result self.new }
    {
        let next = self.peek();
        match next.kind {
            Kind::Quoted => {
                let text = unquoted(alloc, next.content)?;
                self.pass(&next);
                Ok(Named { text, at: next.at })
            }
            _ => Err(NativeFail::Refused(misfit(&next))),
        }
    }

    /// Takes a number.
    pub fn number(&mut self) -> Result<Number, NativeFail>
        ensures { Reads (token_spec.number.read self.old) result self.new }
    {
        if let Some((number, offset, rest)) = plain_number(self.offset, self.rest) {
            self.offset = offset;
            self.rest = rest;
            return Ok(number);
        }
        self.any_number()
    }

    /// Takes a number, however it is spelled.
    #[tactic(auto, unfolding(crate::specs::Token::number))]
    fn any_number(&mut self) -> Result<Number, NativeFail>
        ensures { Reads (token_spec.number.read self.old) result self.new }
    {
        let next = self.peek();
        match next.kind {
            Kind::Word => match number_of(next.content) {
                Some(value) => {
                    self.pass(&next);
                    Ok(Number { value, at: next.at })
                }
                None => Err(NativeFail::Refused(number_misfit(&next))),
            },
            _ => Err(NativeFail::Refused(number_misfit(&next))),
        }
    }

    /// Takes the rest of the line.
    fn line_end(&mut self) -> Result<(), NativeFail>
        ensures { Reads (raw_spec.line_end.read self.old) result self.new }
    {
        let (offset, rest) = line_end(self.offset, self.rest)?;
        self.offset = offset;
        self.rest = rest;
        Ok(())
    }

    /// Takes so many bytes.
    #[tactic(auto, unfolding(crate::specs::Raw::exactly_by))]
    fn exactly(&mut self, n: usize) -> Result<&'a [u8], NativeFail>
        ensures value { Shows (λ x. x.now) ((raw_spec.exactly n).read self.old) result self.new }
        ensures many { IfOk result (λ x. length x.now ≡ n) }
    {
        if self.rest.len() < n {
            return Err(NativeFail::Refused(NativeError {
                kind: NativeKind::Truncated,
                at: self.offset + self.rest.len() as u64,
            }));
        }
        let (bytes, rest) = self.rest.split_at(n);
        self.offset += n as u64;
        self.rest = rest;
        Ok(bytes)
    }

    /// Takes the rest of the line, and so many bytes behind it.
    #[tactic(auto, unfolding(crate::specs::Raw::raw))]
    pub fn raw(&mut self, n: usize) -> Result<&'a [u8], NativeFail>
        ensures value { Shows (λ x. x.now) ((raw_spec.raw n).read self.old) result self.new }
        ensures many { IfOk result (λ x. length x.now ≡ n) }
    {
        self.line_end()?;
        self.exactly(n)
    }
}

#[tactic(auto, unfolding(crate::specs::Raw::line_end_by))]
fn line_end(offset: u64, text: &[u8]) -> Result<(u64, &[u8]), NativeFail>
    requires { offset + length text.now < 2 ^ 63 }
    ensures value { IsLine (raw_spec.line_end_by offset text.now) result }
    ensures within { IfOk result (λ x. x.0 + length x.1.now < 2 ^ 63) }
{
    let mut at = offset;
    let mut rest = text;
    while let [b, after @ ..] = rest {
        if *b == b'\n' {
            return Ok((at + 1, after));
        }
        if !is_gap(*b) {
            return Err(NativeFail::Refused(NativeError {
                kind: NativeKind::Syntax,
                at,
            }));
        }
        at += 1;
        rest = after;
    }
    Err(NativeFail::Refused(NativeError {
        kind: NativeKind::Truncated,
        at,
    }))
}

fn is_gap(b: u8) -> bool
    ensures { result ≡ raw_spec.is_gap b }
{
    matches!(b, b' ' | b'\t' | b'\r')
}
