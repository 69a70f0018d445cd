//! Runs of numbers that few digits spell, behind a minus or not: read in one pass over their bytes.

ghost use Rattle.std.specs.Prelude.{◌≡◌, ◌+◌, ◌<◌, ◌≤◌, ◌^◌, Ok, false, take, length, IfOk, IfSome};
ghost use Rattle.dx_base.specs.Elem.{lowest, highest};
ghost use Rattle.dx_native_lex.specs.Scan as scan;
ghost use Rattle.dx_native_lex.specs.Token as token_spec;
ghost use Rattle.dx_native_grammar.specs.Grammar as spec;
ghost use Rattle.dx_native_head.specs.Many.{AreNext};

use crate::bounds::bounds_fault;
use dx_base::ElemType;
use dx_native_lex::{Number, is_white, plain_at};
use std::alloc::AllocError;

/// How many numbers are read before they join those found.
const BLOCK: usize = 64;

/// Where white space ends, and what is left there. None where a comment begins.
#[tactic(auto, unfolding(dx_native_lex::specs::Scan::unblanked))]
fn unblanked(offset: u64, text: &[u8]) -> Option<(u64, &[u8])>
    requires { offset + length text.now < 2 ^ 63 }
    ensures place { IfSome result (λ x. scan.unblanked false offset text.now ≡ record { offset = x.0; rest = x.1.now }) }
    ensures sum { IfSome result (λ x. x.0 + length x.1.now ≡ offset + length text.now) }
    ensures within { IfSome result (λ x. length x.1.now ≤ length text.now) }
{
    let mut at = offset;
    let mut rest = text;
    while let [b, after @ ..] = rest {
        let b = *b;
        if b == b'#' {
            return None;
        }
        if !is_white(b) {
            break;
        }
        at += 1;
        rest = after;
    }
    Some((at, rest))
}

/// The number that comes next, with the place behind it, where few digits spell it, behind a minus or not. None says
/// nothing.
fn plain_number(offset: u64, text: &[u8]) -> Option<(Number, u64, &[u8])>
    requires { offset + length text.now < 2 ^ 63 }
    ensures read { IfSome result (λ x. token_spec.number.read (record { offset = offset; rest = text.now }) ≡ Ok (x.0, record { offset = x.1; rest = x.2.now })) }
    ensures sum { IfSome result (λ x. x.1 + length x.2.now ≡ offset + length text.now) }
    ensures within { IfSome result (λ x. length x.2.now ≤ length text.now) }
{
    let (at, rest) = unblanked(offset, text)?;
    plain_at(at, rest)
}

/// The same, where it is of the type.
#[tactic(auto, using(crate::proofs::ManyLaws::within_bounds))]
fn plain_of_type(offset: u64, text: &[u8], t: ElemType) -> Option<(i64, u64, &[u8])>
    requires { offset + length text.now < 2 ^ 63 }
    ensures read { IfSome result (λ x. (spec.bounded (lowest t) (highest t)).read (record { offset = offset; rest = text.now }) ≡ Ok (x.0, record { offset = x.1; rest = x.2.now })) }
    ensures sum { IfSome result (λ x. x.1 + length x.2.now ≡ offset + length text.now) }
    ensures within { IfSome result (λ x. length x.2.now ≤ length text.now) }
{
    let (number, end, after) = plain_number(offset, text)?;
    if bounds_fault(t.lowest(), t.highest(), number).is_some() {
        return None;
    }
    Some((number.value, end, after))
}

/// Puts the numbers that come next into a block, as long as they are plain and of the type, and at most so many: how many
/// they are, and the place behind them.
#[tactic(auto, using(crate::proofs::ManyLaws::next_one))]
fn plain_block<'a>(
    offset: u64,
    text: &'a [u8],
    t: ElemType,
    n: usize,
    block: &mut [i64],
) -> (usize, u64, &'a [u8])
    requires within { offset + length text.now < 2 ^ 63 }
    requires room { n ≤ length block.old }
    ensures next { AreNext (spec.bounded (lowest t) (highest t)) (take result.0 block.new) (record { offset = offset; rest = text.now }) (record { offset = result.1; rest = result.2.now }) }
    ensures many { result.0 ≤ n }
    ensures len { length block.new ≡ length block.old }
    ensures within { result.1 + length result.2.now < 2 ^ 63 }
{
    let mut count = 0;
    let mut rest = text;
    while count < n {
        // What is left tells the offset, so that the loop has none to keep.
        let at = offset + (text.len() - rest.len()) as u64;
        let Some((value, _end, after)) = plain_of_type(at, rest, t) else {
            break;
        };
        block[count] = value;
        count += 1;
        rest = after;
    }
    let end = offset + (text.len() - rest.len()) as u64;
    (count, end, rest)
}

/// Puts the numbers that come next behind those found, as long as they are plain and of the type, and at most so many: how
/// many are left then, and the place behind them.
#[tactic(auto, using(crate::proofs::ManyLaws::some_more))]
pub(crate) fn plain_numbers<'a>(
    offset: u64,
    text: &'a [u8],
    t: ElemType,
    n: usize,
    found: &mut Vec<i64>,
) -> Result<(usize, u64, &'a [u8]), AllocError>
    requires { offset + length text.now < 2 ^ 63 }
    ensures read { IfOk result (λ x. (spec.counted (spec.bounded (lowest t) (highest t)) n found.old.items).read (record { offset = offset; rest = text.now }) ≡ (spec.counted (spec.bounded (lowest t) (highest t)) x.0 found.new.items).read (record { offset = x.1; rest = x.2.now })) }
    ensures fewer { IfOk result (λ x. x.0 ≤ n) }
    ensures within { IfOk result (λ x. x.1 + length x.2.now < 2 ^ 63) }
{
    let mut block = [0; BLOCK];
    let mut left = n;
    let mut at = offset;
    let mut rest = text;
    while left > 0 {
        let (count, end, after) = plain_block(at, rest, t, left.min(BLOCK), &mut block);
        if count == 0 {
            break;
        }
        found.extend_from_slice(&block[..count])?;
        left -= count;
        at = end;
        rest = after;
    }
    Ok((left, at, rest))
}
