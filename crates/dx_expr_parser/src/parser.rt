//! The parser: each function reads one production of the grammar.

ghost use Rattle.std.specs.Prelude.{◌≡◌, ◌<◌, ◌≤◌, ◌∷◌, [], length, OnOk, MatchResult, IfOk, IfErr};
ghost use Rattle.dx_grammar.specs.Stream.{while};
ghost use Rattle.dx_grammar.specs.Rule.{snoc};
ghost use Rattle.dx_grammar.specs.FirstError.{IsText, FirstError};
ghost use Rattle.dx_expr_grammar.specs.Tokens.{tokens_of};
ghost use Rattle.dx_expr_grammar.specs.Words as words;
ghost use Rattle.dx_expr_grammar.specs.Grammar as grammar;
ghost use Rattle.dx_expr_parser.specs.Answer.{IsOnly, OnRefused};
ghost use Rattle.dx_expr_grammar.specs.Grammar.{Whole};
ghost use Rattle.dx_expr_grammar.specs.declared.token.Sign.TheVariants as s;
ghost use Rattle.dx_expr_grammar.specs.Reading as spec;
ghost use Rattle.dx_expr_grammar.specs.Reading.{Reads, reading};

use crate::cursor::Cursor;
use dx_base::Items;
use dx_expr_grammar::{Binary, Boxed, ExprFail, Expression, Level, Sign};
use std::alloc::Global;

/// The most parts that a vector has.
const MAX_PARTS: usize = 256;

/// The greatest number of the int range.
const MAX_INT: u32 = 2_147_483_647;

/// The greatest number of an input.
const MAX_INPUT: u32 = 20;

/// The greatest number of a part.
const MAX_PART: u32 = 255;

/// How many brackets may be open in an expression.
const MAX_BRACKETS: u8 = 64;

#[tactic(auto, unfolding(dx_expr_grammar::specs::Reading::opening))]
fn opening(cursor: &mut Cursor<'_>, sign: Sign, brackets: u8) -> Result<u8, ExprFail>
    ensures reads { Reads (spec.opening sign brackets cursor.old) result cursor.new }
    ensures onward { OnOk result (length cursor.new.tokens < length cursor.old.tokens) }
{
    let at = cursor.sign(sign)?;
    if brackets == 0 {
        return Err(ExprFail::Refused(at));
    }
    Ok(brackets - 1)
}

#[tactic(auto, unfolding(dx_expr_grammar::specs::Reading::number))]
fn number(cursor: &mut Cursor<'_>) -> Result<Expression, ExprFail>
    ensures reads { Reads (spec.number cursor.old) result cursor.new }
    ensures onward { OnOk result (length cursor.new.tokens < length cursor.old.tokens) }
{
    let n = cursor.digits(MAX_INT)?;
    Ok(Expression::Number(n))
}

#[tactic(auto, unfolding(dx_expr_grammar::specs::Reading::input))]
fn input(cursor: &mut Cursor<'_>) -> Result<Expression, ExprFail>
    ensures reads { Reads (spec.input cursor.old) result cursor.new }
    ensures onward { OnOk result (length cursor.new.tokens < length cursor.old.tokens) }
{
    cursor.sign(Sign::Dollar)?;
    let k = cursor.digits(MAX_INPUT)?;
    Ok(Expression::Input(k as u8))
}

#[tactic(auto, unfolding(dx_expr_grammar::specs::Reading::part))]
fn part(cursor: &mut Cursor<'_>) -> Result<u8, ExprFail>
    ensures reads { Reads (spec.part cursor.old) result cursor.new }
    ensures onward { OnOk result (length cursor.new.tokens < length cursor.old.tokens) }
{
    cursor.sign(Sign::Dot)?;
    let k = cursor.digits(MAX_PART)?;
    Ok(k as u8)
}

fn parts(alloc: Global, cursor: &mut Cursor<'_>, first: Expression) -> Result<Expression, ExprFail>
    ensures reads { Reads (spec.parts first cursor.old) result cursor.new }
    ensures onward { OnOk result (length cursor.new.tokens ≤ length cursor.old.tokens) }
{
    let mut found = first;
    'each: while cursor.sees(Sign::Dot) {
        let k = part(cursor)?;
        found = Expression::Part(Boxed::new(alloc, found)?, k);
    }
    Ok(found)
}

fn binary(
    alloc: Global,
    operator: Binary,
    a: Expression,
    b: Expression,
) -> Result<Expression, ExprFail>
    ensures { MatchResult result (λ e. e ≡ Expression.Binary operator a b) (λ f. f ≡ ExprFail.Memory) }
{
    Ok(Expression::Binary(operator, Boxed::new(alloc, a)?, Boxed::new(alloc, b)?))
}

#[cycle(parser)]
#[tactic(auto, unfolding(dx_expr_grammar::specs::Reading::group))]
fn group(alloc: Global, cursor: &mut Cursor<'_>, brackets: u8) -> Result<Expression, ExprFail>
    ensures reads { Reads (spec.group reading brackets cursor.old) result cursor.new }
    ensures onward { OnOk result (length cursor.new.tokens < length cursor.old.tokens) }
{
    let inner = opening(cursor, Sign::Open, brackets)?;
    let a = whole(alloc, cursor, inner)?;
    cursor.sign(Sign::Close)?;
    Ok(a)
}

#[cycle(parser)]
#[tactic(auto, unfolding(dx_expr_grammar::specs::Reading::next_part))]
fn next_part(
    alloc: Global,
    cursor: &mut Cursor<'_>,
    brackets: u8,
    found: &Items<Expression>,
) -> Result<Expression, ExprFail>
    ensures reads { Reads (spec.next_part reading brackets found.now cursor.old) result cursor.new }
    ensures onward { OnOk result (length cursor.new.tokens < length cursor.old.tokens) }
{
    let at = cursor.sign(Sign::Comma)?;
    if found.len() == MAX_PARTS {
        return Err(ExprFail::Refused(at));
    }
    whole(alloc, cursor, brackets)
}

#[cycle(parser)]
fn next_parts(
    alloc: Global,
    cursor: &mut Cursor<'_>,
    brackets: u8,
    first: Expression,
) -> Result<Items<Expression>, ExprFail>
    ensures reads { Reads (while (spec.sees s.Comma) (spec.next_part reading brackets) snoc (first ∷ []) cursor.old) result cursor.new }
    ensures onward { OnOk result (length cursor.new.tokens ≤ length cursor.old.tokens) }
{
    let mut found = Items::new(alloc);
    found.push(first)?;
    'each: while cursor.sees(Sign::Comma) {
        let next = next_part(alloc, cursor, brackets, &found)?;
        found.push(next)?;
    }
    Ok(found)
}

#[cycle(parser)]
#[tactic(auto, unfolding(dx_expr_grammar::specs::Reading::vector))]
fn vector(alloc: Global, cursor: &mut Cursor<'_>, brackets: u8) -> Result<Expression, ExprFail>
    ensures reads { Reads (spec.vector reading brackets cursor.old) result cursor.new }
    ensures onward { OnOk result (length cursor.new.tokens < length cursor.old.tokens) }
{
    let inner = opening(cursor, Sign::OpenVector, brackets)?;
    let first = whole(alloc, cursor, inner)?;
    let parts = next_parts(alloc, cursor, inner, first)?;
    cursor.sign(Sign::CloseVector)?;
    Ok(Expression::Vector(parts))
}

#[cycle(parser)]
#[tactic(auto, unfolding(dx_expr_grammar::specs::Reading::function_of_one))]
fn function_of_one(
    alloc: Global,
    cursor: &mut Cursor<'_>,
    brackets: u8,
) -> Result<Expression, ExprFail>
    ensures reads { Reads (spec.function_of_one reading brackets cursor.old) result cursor.new }
    ensures onward { OnOk result (length cursor.new.tokens < length cursor.old.tokens) }
{
    let function = cursor.one_operand()?;
    let inner = opening(cursor, Sign::Open, brackets)?;
    let a = whole(alloc, cursor, inner)?;
    cursor.sign(Sign::Close)?;
    Ok(Expression::Unary(function, Boxed::new(alloc, a)?))
}

#[cycle(parser)]
#[tactic(auto, unfolding(dx_expr_grammar::specs::Reading::function_of_two))]
fn function_of_two(
    alloc: Global,
    cursor: &mut Cursor<'_>,
    brackets: u8,
) -> Result<Expression, ExprFail>
    ensures reads { Reads (spec.function_of_two reading brackets cursor.old) result cursor.new }
    ensures onward { OnOk result (length cursor.new.tokens < length cursor.old.tokens) }
{
    let function = cursor.two_operands()?;
    let inner = opening(cursor, Sign::Open, brackets)?;
    let a = whole(alloc, cursor, inner)?;
    cursor.sign(Sign::Comma)?;
    let b = whole(alloc, cursor, inner)?;
    cursor.sign(Sign::Close)?;
    binary(alloc, function, a, b)
}

#[cycle(parser)]
#[tactic(auto, unfolding(dx_expr_grammar::specs::Reading::primary))]
fn primary(alloc: Global, cursor: &mut Cursor<'_>, brackets: u8) -> Result<Expression, ExprFail>
    ensures reads { Reads (spec.primary reading brackets cursor.old) result cursor.new }
    ensures onward { OnOk result (length cursor.new.tokens < length cursor.old.tokens) }
{
    if cursor.sees_digits() {
        number(cursor)
    } else if cursor.sees(Sign::Dollar) {
        input(cursor)
    } else if cursor.sees(Sign::Open) {
        group(alloc, cursor, brackets)
    } else if cursor.sees(Sign::OpenVector) {
        vector(alloc, cursor, brackets)
    } else if cursor.sees_one_operand() {
        function_of_one(alloc, cursor, brackets)
    } else {
        function_of_two(alloc, cursor, brackets)
    }
}

#[cycle(parser)]
#[tactic(auto, unfolding(dx_expr_grammar::specs::Reading::signed, dx_expr_grammar::specs::Reading::postfix), using(dx_expr_laws::proofs::Nesting::signed_next))]
fn signed(alloc: Global, cursor: &mut Cursor<'_>, brackets: u8) -> Result<Expression, ExprFail>
    ensures reads { Reads (spec.signed reading brackets cursor.old) result cursor.new }
    ensures onward { OnOk result (length cursor.new.tokens < length cursor.old.tokens) }
{
    if cursor.sees_prefix() {
        let operator = cursor.prefix()?;
        let a = signed(alloc, cursor, brackets)?;
        return Ok(Expression::Unary(operator, Boxed::new(alloc, a)?));
    }
    let a = primary(alloc, cursor, brackets)?;
    parts(alloc, cursor, a)
}

#[cycle(parser)]
#[tactic(auto, unfolding(dx_expr_grammar::specs::Reading::right_side))]
fn right_side(
    alloc: Global,
    cursor: &mut Cursor<'_>,
    brackets: u8,
    level: Level,
) -> Result<(Binary, Expression), ExprFail>
    ensures reads { Reads (spec.right_side level (spec.operand (spec.signed reading brackets) level) cursor.old) result cursor.new }
    ensures onward { OnOk result (length cursor.new.tokens < length cursor.old.tokens) }
{
    let operator = cursor.operator(level)?;
    let b = operand(alloc, cursor, brackets, level)?;
    Ok((operator, b))
}

/// Operands of a level, taken together from the left.
#[cycle(parser)]
fn chain(
    alloc: Global,
    cursor: &mut Cursor<'_>,
    brackets: u8,
    level: Level,
) -> Result<Expression, ExprFail>
    ensures reads { Reads (spec.chain level (spec.operand (spec.signed reading brackets) level) cursor.old) result cursor.new }
    ensures onward { OnOk result (length cursor.new.tokens < length cursor.old.tokens) }
{
    let mut found = operand(alloc, cursor, brackets, level)?;
    'each: while cursor.sees_operator(level) {
        let (operator, b) = right_side(alloc, cursor, brackets, level)?;
        found = binary(alloc, operator, found, b)?;
    }
    Ok(found)
}

/// One or two operands of a level.
#[cycle(parser)]
#[tactic(auto, unfolding(dx_expr_grammar::specs::Reading::once))]
fn once(
    alloc: Global,
    cursor: &mut Cursor<'_>,
    brackets: u8,
    level: Level,
) -> Result<Expression, ExprFail>
    ensures reads { Reads (spec.once level (spec.operand (spec.signed reading brackets) level) cursor.old) result cursor.new }
    ensures onward { OnOk result (length cursor.new.tokens < length cursor.old.tokens) }
{
    let a = operand(alloc, cursor, brackets, level)?;
    if !cursor.sees_operator(level) {
        return Ok(a);
    }
    let (operator, b) = right_side(alloc, cursor, brackets, level)?;
    binary(alloc, operator, a, b)
}

/// An operand of the operators of a level.
#[cycle(parser)]
fn operand(
    alloc: Global,
    cursor: &mut Cursor<'_>,
    brackets: u8,
    level: Level,
) -> Result<Expression, ExprFail>
    ensures reads { Reads (spec.operand (spec.signed reading brackets) level cursor.old) result cursor.new }
    ensures onward { OnOk result (length cursor.new.tokens < length cursor.old.tokens) }
{
    match level {
        Level::Or => chain(alloc, cursor, brackets, Level::And),
        Level::And => once(alloc, cursor, brackets, Level::Equality),
        Level::Equality => once(alloc, cursor, brackets, Level::Relation),
        Level::Relation => chain(alloc, cursor, brackets, Level::Sum),
        Level::Sum => chain(alloc, cursor, brackets, Level::Product),
        Level::Product => signed(alloc, cursor, brackets),
    }
}

#[cycle(parser)]
#[tactic(auto, unfolding(dx_expr_grammar::specs::Reading::branches))]
fn branches(
    alloc: Global,
    cursor: &mut Cursor<'_>,
    brackets: u8,
    condition: Expression,
) -> Result<Expression, ExprFail>
    ensures reads { Reads (spec.branches reading brackets condition cursor.old) result cursor.new }
    ensures onward { OnOk result (length cursor.new.tokens < length cursor.old.tokens) }
{
    cursor.sign(Sign::Question)?;
    let a = whole(alloc, cursor, brackets)?;
    cursor.sign(Sign::Colon)?;
    let b = whole(alloc, cursor, brackets)?;
    Ok(Expression::Choice(
        Boxed::new(alloc, condition)?,
        Boxed::new(alloc, a)?,
        Boxed::new(alloc, b)?,
    ))
}

#[cycle(parser)]
#[tactic(auto, unfolding(dx_expr_grammar::specs::Reading::whole), using(dx_expr_laws::proofs::Nesting::whole_next))]
fn whole(alloc: Global, cursor: &mut Cursor<'_>, brackets: u8) -> Result<Expression, ExprFail>
    ensures reads { Reads (reading (Whole brackets) cursor.old) result cursor.new }
    ensures onward { OnOk result (length cursor.new.tokens < length cursor.old.tokens) }
{
    let condition = chain(alloc, cursor, brackets, Level::Or)?;
    if cursor.sees(Sign::Question) {
        branches(alloc, cursor, brackets, condition)
    } else {
        Ok(condition)
    }
}

/// A whole text.
fn text(alloc: Global, cursor: &mut Cursor<'_>) -> Result<Expression, ExprFail>
    ensures { Reads (spec.expression cursor.old) result cursor.new }
{
    let e = whole(alloc, cursor, MAX_BRACKETS)?;
    cursor.end()?;
    Ok(e)
}

/// The expression that a text is.
pub fn parse_expr(alloc: Global, t: &[u8]) -> Result<Expression, ExprFail>
    // What is read is an expression of the grammar.
    ensures found { IfOk result (λ e. IsText grammar.expression (tokens_of t.now) e) }
    // What is an expression of the grammar is read, as that, unless memory runs out.
    ensures only { (e : Expression) → IsText grammar.expression (tokens_of t.now) e → IsOnly e result }
    // What is refused is refused at its first error.
    ensures refused { IfErr result (OnRefused (FirstError words.misfit grammar.expression (tokens_of t.now))) }
{
    let mut cursor = Cursor::new(t);
    text(alloc, &mut cursor)
}
