//! The next token of a text.

ghost use Rattle.std.specs.Prelude.{◌≡◌, ◌+◌, ◌<◌, ◌≤◌, ◌^◌, ◌∷◌, length, min, false, true, IfSome};
ghost use Rattle.std.specs.List.{prefix_len};
ghost use Rattle.dx_expr_grammar.specs.Tokens as spec;
ghost use Rattle.dx_expr_grammar.specs.Tokens.{Tokens};
ghost use Rattle.dx_expr_parser.specs.Lexer.{shown, piece_of, NoBlank};

use dx_expr_grammar::{Sign, Token, TokenKind};

/// What stands next in a text: a token, or the offset where no token goes on and whether the text ends there.
#[derive(Clone, Copy, Debug)]
pub enum Next {
    Token(Token),
    End { at: u64, whole: bool },
}

/// A text's bytes from this offset on aren't looked at.
const MAX_TEXT: u64 = 4096;

/// What a number above the int range counts as.
const BEYOND: u32 = 2_147_483_648;

/// All signs, the longer ones before the shorter ones.
const SIGNS: [Sign; 28] = [
    Sign::SignOf,
    Sign::Abs,
    Sign::Min,
    Sign::Max,
    Sign::DotProduct,
    Sign::Or,
    Sign::And,
    Sign::Equal,
    Sign::NotEqual,
    Sign::LessEqual,
    Sign::GreaterEqual,
    Sign::Question,
    Sign::Colon,
    Sign::Less,
    Sign::Greater,
    Sign::Plus,
    Sign::Minus,
    Sign::Times,
    Sign::Over,
    Sign::Percent,
    Sign::Not,
    Sign::Dot,
    Sign::Dollar,
    Sign::Open,
    Sign::Close,
    Sign::OpenVector,
    Sign::CloseVector,
    Sign::Comma,
];

fn sign_at(text: &[u8]) -> Option<Sign>
    ensures sign { result ≡ spec.first_of_signs spec.signs text.now }
    ensures within { IfSome result (λ s. length (spec.spelling s) ≤ length text.now) }
{
    first_of(&SIGNS, text)
}

/// Where no token goes on.
fn stop(at: u64) -> Next
    ensures { (s : Tokens) → shown result s ≡ spec.stopped at }
{
    Next::End {
        at: at.min(MAX_TEXT),
        whole: false,
    }
}

/// The text's end.
fn end(at: u64) -> Next
    ensures { (s : Tokens) → shown result s ≡ spec.ended at }
{
    Next::End {
        at: at.min(MAX_TEXT),
        whole: at <= MAX_TEXT,
    }
}

fn spelling(sign: Sign) -> &'static [u8]
    ensures { result.now ≡ spec.spelling sign }
{
    match sign {
        Sign::Question => b"?",
        Sign::Colon => b":",
        Sign::Or => b"||",
        Sign::And => b"&&",
        Sign::Equal => b"==",
        Sign::NotEqual => b"!=",
        Sign::Less => b"<",
        Sign::LessEqual => b"<=",
        Sign::Greater => b">",
        Sign::GreaterEqual => b">=",
        Sign::Plus => b"+",
        Sign::Minus => b"-",
        Sign::Times => b"*",
        Sign::Over => b"/",
        Sign::Percent => b"%",
        Sign::Not => b"!",
        Sign::Dot => b".",
        Sign::Dollar => b"$",
        Sign::Open => b"(",
        Sign::Close => b")",
        Sign::OpenVector => b"[",
        Sign::CloseVector => b"]",
        Sign::Comma => b",",
        Sign::Abs => b"abs",
        Sign::SignOf => b"sign",
        Sign::Min => b"min",
        Sign::Max => b"max",
        Sign::DotProduct => b"dot",
    }
}

/// The first of the signs with which a text begins.
fn first_of(signs: &[Sign], text: &[u8]) -> Option<Sign>
    ensures sign { result ≡ spec.first_of_signs signs.now text.now }
    ensures within { IfSome result (λ s. length (spec.spelling s) ≤ length text.now) }
{
    let mut rest = signs;
    'each: while let [sign, more @ ..] = rest {
        if text.starts_with(spelling(*sign)) {
            return Some(*sign);
        }
        rest = more;
    }
    None
}

fn is_blank(b: u8) -> bool
    ensures { result ≡ spec.is_blank b }
{
    b == b' ' || b == b'\t'
}

fn is_digit(b: u8) -> bool
    ensures { result ≡ spec.is_digit b }
{
    b'0' <= b && b <= b'9'
}

/// How many digits a text begins with.
fn digit_count(text: &[u8]) -> usize
    ensures count { result ≡ prefix_len spec.is_digit text.now }
    ensures within { result ≤ length text.now }
{
    text.iter().take_while(|b| is_digit(**b)).count()
}

/// The value of the digits, or what a number above the int range counts as.
fn value(digits: &[u8]) -> u32
    ensures { result ≡ min (spec.value_of digits.now) spec.beyond }
{
    let mut n: u32 = 0;
    for b in digits {
        let more = 10 * u64::from(n) + u64::from(b.saturating_sub(b'0'));
        n = more.min(u64::from(BEYOND)) as u32;
    }
    n
}

/// The offset and the text behind spaces and tabs.
#[tactic(auto, unfolding(dx_expr_grammar::specs::Tokens::tokens_from))]
fn unblanked(at: u64, text: &[u8]) -> (u64, &[u8])
    requires { at + length text.now < 2 ^ 63 }
    ensures same { spec.tokens_from 0 result.0 result.1.now ≡ spec.tokens_from 0 at text.now }
    ensures room { result.0 + length result.1.now < 2 ^ 63 }
    ensures stops { NoBlank result.1.now }
{
    let mut offset = at;
    let mut rest = text;
    'blanks: while let [b, after @ ..] = rest {
        if !is_blank(*b) {
            break;
        }
        offset += 1;
        rest = after;
    }
    (offset, rest)
}

/// The run of digits with which a text begins, whose first is `b`, and how many bytes it has behind its first.
fn digits_at(text: &[u8], b: u8, after: &[u8]) -> (TokenKind, usize)
    requires { text.now ≡ b ∷ after.now }
    ensures piece { spec.digits_piece b after.now ≡ piece_of (Some result) }
    ensures within { result.1 ≤ length after.now }
{
    let count = digit_count(after);
    let n = value(&text[..count + 1]);
    (TokenKind::Digits(n), count)
}

/// The token with which a text begins, if it is one, and how many bytes it has behind its first.
fn kind_at(text: &[u8], b: u8, after: &[u8]) -> Option<(TokenKind, usize)>
    requires text { text.now ≡ b ∷ after.now }
    requires solid { spec.is_blank b ≡ false }
    ensures piece { spec.piece b after.now ≡ piece_of result }
    ensures within { IfSome result (λ w. w.1 ≤ length after.now) }
{
    if is_digit(b) {
        return Some(digits_at(text, b, after));
    }
    match sign_at(text) {
        None => None,
        Some(sign) => Some((TokenKind::Sign(sign), spelling(sign).len() - 1)),
    }
}

/// What stands at an offset where no white space is, and the offset and what is left behind it.
fn word_at<'a>(at: u64, text: &'a [u8], b: u8, after: &'a [u8]) -> (Next, u64, &'a [u8])
    requires text { text.now ≡ b ∷ after.now }
    requires solid { spec.is_blank b ≡ false }
    requires room { at + length text.now < 2 ^ 63 }
    ensures same { spec.tokens_from 0 at text.now ≡ shown result.0 (spec.tokens_from 0 result.1 result.2.now) }
    ensures room { result.1 + length result.2.now < 2 ^ 63 }
{
    if at >= MAX_TEXT {
        return (stop(at), at, text);
    }
    match kind_at(text, b, after) {
        None => (stop(at), at, text),
        Some((kind, more)) => {
            let token = Token { kind, at };
            (Next::Token(token), at + 1 + more as u64, &after[more..])
        }
    }
}

/// What stands next in what is left of a text at an offset, and the offset and what is left behind it.
pub fn scan(at: u64, text: &[u8]) -> (Next, u64, &[u8])
    requires { at + length text.now < 2 ^ 63 }
    ensures same { spec.tokens_from 0 at text.now ≡ shown result.0 (spec.tokens_from 0 result.1 result.2.now) }
    ensures room { result.1 + length result.2.now < 2 ^ 63 }
{
    let (at, text) = unblanked(at, text);
    match text {
        [] => (end(at), at, text),
        [b, after @ ..] => word_at(at, text, *b, after),
    }
}
