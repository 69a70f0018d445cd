//! Integers.

ghost use Rattle.std.specs.Prelude.{◌≡◌, ◌≤◌, ◌+◌, ◌<◌, ◌^◌, length, min};
ghost use Rattle.dx_base.specs.Tokens.Spelling.{value_of};
ghost use Rattle.dx_base.specs.Tokens.Reading as reading;
ghost use Rattle.dx_lexer.specs.Answers.{Finds, IsAmong};

use crate::borrowed::TokenKind;
use crate::bytes::{begins, begins_float, begins_two, digit_len, zero_len};
use crate::fail::Fault;
use dx_base::SyntaxKind;

/// The integer whose digits a text begins with, and how many bytes it has with the sign that stood before them.
#[tactic(auto, unfolding(dx_base::specs::Tokens::Reading::number_front))]
pub fn number(negative: bool, before: usize, text: &[u8]) -> Result<(TokenKind<'_>, usize), Fault>
    requires { before + length text.now < 2 ^ 63 }
    ensures found { Finds (reading.number_front negative before text.now) result }
    ensures within { IsAmong (before + length text.now) result }
{
    let (digits, rest) = text.split_at(digit_len(text));
    let fraction = fraction_len(rest);
    if begins_float(&rest[fraction..]) {
        return Err(Fault::Wrong(SyntaxKind::FloatNumber, 0));
    }
    match int_value(negative, digits) {
        Some(value) => Ok((TokenKind::Int(value), before + digits.len() + fraction)),
        None => Err(Fault::Wrong(SyntaxKind::NumberRange, 0)),
    }
}

/// How many bytes of a point and zeros a text begins with.
#[tactic(auto, unfolding(dx_base::specs::Tokens::Reading::fraction_len))]
fn fraction_len(text: &[u8]) -> usize
    ensures len { result ≡ reading.fraction_len text.now }
    ensures within { result ≤ length text.now }
{
    if begins_two(b'.', text) || !begins(b'.', text) {
        return 0;
    }
    1 + zero_len(&text[1..])
}

/// More than the distance of any int from zero.
const BEYOND: u64 = 10_000_000_000;

/// The number of the digits, or a bound that no int passes.
fn value_of(digits: &[u8]) -> u64
    ensures { result ≡ min (value_of digits.now) 10000000000 }
{
    let mut n = 0;
    for b in digits {
        n = (10 * n + u64::from(b.saturating_sub(b'0'))).min(BEYOND);
    }
    n
}

/// The int of a sign and digits, if it is one.
fn int_value(negative: bool, digits: &[u8]) -> Option<i32>
    ensures { result ≡ reading.int_value negative digits.now }
{
    let value = value_of(digits);
    if negative {
        if value > 2_147_483_648 {
            return None;
        }
        Some((-(value as i64)) as i32)
    } else {
        if value >= 2_147_483_648 {
            return None;
        }
        Some(value as i32)
    }
}
