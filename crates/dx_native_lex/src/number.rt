//! Numbers: those of words, and runs of digits that are read without looking for their word first.

ghost use Rattle.std.specs.Prelude.{◌≡◌, ◌≤◌, ◌<◌, ◌+◌, ◌^◌, true, false, Ok, Some, IfSome, length, min};
ghost use Rattle.std.specs.List.{list_all, prefix_len};
ghost use Rattle.dx_base.specs.Number as base;
ghost use Rattle.dx_base.specs.Tokens.Classes as class;
ghost use Rattle.dx_base.specs.Tokens.Classes.{is_digit, is_zero};
ghost use Rattle.dx_base.specs.Tokens.Spelling.{value_of as digits_value};
ghost use Rattle.dx_native_lex.specs.Plain as plain;
ghost use Rattle.dx_native_lex.specs.Scan as spec;
ghost use Rattle.dx_native_lex.specs.Token as token_spec;
ghost use Rattle.dx_places.specs.Grammar.{At};

use crate::scan::is_word_byte;
use crate::token::Number;
use dx_base::read_number;

/// The number that a word spells: a sign or none, digits, and behind them a point with any number of zeros or nothing.
/// A number beyond `i64` counts as its end on that side.
#[tactic(auto, unfolding(crate::specs::Scan::number_of))]
pub fn number_of(word: &[u8]) -> Option<i64>
    ensures { result ≡ spec.number_of word.now }
{
    read_number(word)
}

/// The number of digits, negated or not.
fn valued(negative: bool, n: u64) -> i64
    requires { n ≤ 999999999999999999 }
    ensures { result ≡ base.nearest_i64 (base.signed negative n) }
{
    let z = n as i64;
    if negative { -z } else { z }
}

/// The number of the digits in front, how many they are, and what is behind them. None where there are none or may be more
/// than 18, and where more of the word is behind them.
#[tactic(auto, unfolding(crate::specs::Plain::run))]
fn digit_run(text: &[u8]) -> Option<(u64, usize, &[u8])>
    ensures run { IfSome result (λ x. plain.run 0 text.now ≡ (x.0, x.2.now)) }
    ensures len { IfSome result (λ x. x.1 + length x.2.now ≡ length text.now) }
    ensures some { IfSome result (λ x. 0 < x.1) }
    ensures ends { IfSome result (λ x. plain.ends_word x.2.now ≡ true) }
    ensures small { IfSome result (λ x. x.0 ≤ 999999999999999999) }
{
    let mut n: u64 = 0;
    let mut len: usize = 0;
    let mut rest = text;
    while let [b, after @ ..] = rest {
        let b = *b;
        if !b.is_ascii_digit() {
            break;
        }
        if n >= 100_000_000_000_000_000 {
            return None;
        }
        n = 10 * n + u64::from(b - b'0');
        len += 1;
        rest = after;
    }
    if len == 0 || !ends_word(rest) {
        return None;
    }
    Some((n, len, rest))
}

/// Whether a minus comes first, and what is behind it.
fn unsigned(text: &[u8]) -> (bool, &[u8])
    ensures minus { result.0 ≡ plain.is_negative text.now }
    ensures behind { result.1.now ≡ plain.unsigned text.now }
    ensures within { length result.1.now ≤ length text.now }
{
    match text {
        [] => (false, text),
        [b, rest @ ..] => {
            if *b == b'-' {
                (true, rest)
            } else {
                (false, text)
            }
        }
    }
}

fn ends_word(text: &[u8]) -> bool
    ensures { result ≡ plain.ends_word text.now }
{
    match text {
        [] => true,
        [b, ..] => !is_word_byte(*b),
    }
}

/// The number in front of a text, with the place behind it, where few digits spell it, behind a minus or not: it is what is
/// read from each place from which white space leads to this one. None says nothing.
#[inline]
pub fn plain_at(at: u64, text: &[u8]) -> Option<(Number, u64, &[u8])>
    requires { at + length text.now < 2 ^ 63 }
    ensures read { IfSome result (λ x. (s : At) → spec.unblanked false s.offset s.rest ≡ record { offset = at; rest = text.now } → token_spec.number.read s ≡ Ok (x.0, record { offset = x.1; rest = x.2.now })) }
    ensures sum { IfSome result (λ x. x.1 + length x.2.now ≡ at + length text.now) }
    ensures within { IfSome result (λ x. length x.2.now ≤ length text.now) }
{
    let (negative, digits) = unsigned(text);
    let (n, len, after) = digit_run(digits)?;
    let _some = len;
    let value = valued(negative, n);
    let end = at + (text.len() - after.len()) as u64;
    Some((Number { value, at }, end, after))
}

fn begins_digit(text: &[u8]) -> bool
    ensures { result ≡ class.begins_digit text.now }
{
    match text {
        [] => false,
        [b, ..] => b.is_ascii_digit(),
    }
}

/// A word that is to be a number, if it is none.
pub fn is_float(text: &[u8]) -> bool
    ensures { result ≡ spec.is_float text.now }
{
    match text {
        [] => false,
        [b, rest @ ..] => {
            b.is_ascii_digit() || (*b == b'+' || *b == b'-' || *b == b'.') && begins_digit(rest)
        }
    }
}
