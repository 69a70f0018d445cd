//! Many numbers of a type, one behind the other.

ghost use Rattle.std.specs.Prelude.{◌≡◌, ◌+◌, ◌<◌, ◌≤◌, ◌^◌, suc, length, IfOk};
ghost use Rattle.dx_base.specs.Elem.{lowest, highest};
ghost use Rattle.dx_native_lex.specs.Token as token_spec;
ghost use Rattle.dx_native_lex.specs.Token.{Reads, Shows};
ghost use Rattle.dx_native_grammar.specs.Grammar as spec;
ghost use Rattle.dx_native_head.specs.Many.{Goes};

use crate::bounds::bounds_fault;
use crate::plain::plain_numbers;
use dx_base::{ElemType, Items};
use dx_native_lex::{Cursor, Kind, Lexeme, NativeFail, Number, number_misfit, number_of};

/// A number, however it is spelled, and its token.
#[tactic(auto, unfolding(dx_native_lex::specs::Token::number))]
fn any_number<'a>(cursor: &mut Cursor<'a>) -> Result<(Number, Lexeme<'a>), NativeFail>
    ensures read { Shows (λ x. x.0) (token_spec.number.read cursor.old) result cursor.new }
    ensures place { IfOk result (λ x. cursor.new ≡ record { offset = x.1.end; rest = x.1.after.now }) }
    ensures within { IfOk result (λ x. x.1.end + length x.1.after.now < 2 ^ 63) }
{
    let next = cursor.peek();
    let value = match next.kind {
        Kind::Word => number_of(next.content),
        _ => None,
    };
    let Some(value) = value else {
        return Err(NativeFail::Refused(number_misfit(&next)));
    };
    cursor.pass(&next);
    let number = Number { value, at: next.at };
    Ok((number, next))
}

/// A number of a type, however it is spelled, and its token.
#[tactic(auto, unfolding(dx_native_grammar::specs::Grammar::bounded))]
fn any_of_type<'a>(cursor: &mut Cursor<'a>, t: ElemType) -> Result<(i64, Lexeme<'a>), NativeFail>
    ensures read { Shows (λ x. x.0) ((spec.bounded (lowest t) (highest t)).read cursor.old) result cursor.new }
    ensures place { IfOk result (λ x. cursor.new ≡ record { offset = x.1.end; rest = x.1.after.now }) }
    ensures within { IfOk result (λ x. x.1.end + length x.1.after.now < 2 ^ 63) }
{
    let (n, token) = any_number(cursor)?;
    if let Some(fault) = bounds_fault(t.lowest(), t.highest(), n) {
        return Err(NativeFail::Refused(fault));
    }
    Ok((n.value, token))
}

/// An empty token at a place, for a cursor to go on behind it.
fn place(offset: u64, rest: &[u8]) -> Lexeme<'_>
    ensures offset { result.end ≡ offset }
    ensures rest { result.after.now ≡ rest.now }
{
    Lexeme {
        kind: Kind::End,
        at: offset,
        content: &[],
        end: offset,
        after: rest,
    }
}

/// Puts the number that comes next, and at most so many plain ones behind it, behind those found: how many are left then.
#[tactic(auto, using(crate::proofs::ManyLaws::found_one))]
fn some_numbers(
    cursor: &mut Cursor<'_>,
    t: ElemType,
    others: usize,
    found: &mut Vec<i64>,
) -> Result<usize, NativeFail>
    ensures read { Goes (spec.bounded (lowest t) (highest t)) (suc others) found.old.items cursor.old result found.new.items cursor.new }
    ensures fewer { IfOk result (λ left. left ≤ others) }
{
    let (value, token) = any_of_type(cursor, t)?;
    found.push(value)?;
    let (left, offset, rest) = plain_numbers(token.end, token.after, t, others, found)?;
    cursor.pass(&place(offset, rest));
    Ok(left)
}

/// So many more numbers of a type, behind those found.
#[tactic(auto, unfolding(dx_native_grammar::specs::Grammar::counted))]
pub fn numbers(
    cursor: &mut Cursor<'_>,
    t: ElemType,
    n: usize,
    found: Items<i64>,
) -> Result<Items<i64>, NativeFail>
    ensures { Reads ((spec.counted (spec.bounded (lowest t) (highest t)) n found).read cursor.old) result cursor.new }
{
    let mut values = found.into_vec();
    let mut left = n;
    while left > 0 {
        left = some_numbers(cursor, t, left - 1, &mut values)?;
    }
    Ok(Items::from_vec(values))
}
