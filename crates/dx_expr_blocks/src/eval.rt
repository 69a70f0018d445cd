//! The evaluation of an expression over a block of items.

ghost use Rattle.std.specs.Prelude.{◌≡◌, ◌-◌, ◌≤◌, IfOk, Some, [], length};
ghost use Rattle.std.specs.List.{range_with_len};
ghost use Rattle.dx_expr_grammar.specs.declared.tree.Expression.TheVariants as expression;
ghost use Rattle.dx_expr.specs.declared.operators.Sides.TheVariants as sides;
ghost use Rattle.dx_expr.specs.Shape as shapes;
ghost use Rattle.dx_expr.specs.Value.{sides_of};
ghost use Rattle.dx_expr_blocks.specs.Block.{block_of, looking_where};
ghost use Rattle.dx_expr_blocks.specs.Found.{IsFound};
ghost use Rattle.dx_expr_blocks.specs.Items.{items_of, all_below};

use crate::binary::{on_both, on_one_value};
use crate::block::{Block, count, first, item_at};
use crate::load::{constant, input_run, same_value};
use crate::parts::part_run;
use crate::sides::{chosen, picks};
use crate::unary::{decisions, on_each};
use crate::{Columns, Found, Spare};
use dx_expr::{Binary, EvalFail, Expression, Inputs, single_value};
use std::alloc::{AllocError, Global};

/// What a block gives, item by item.
pub(crate) fn one_by_one<I: Inputs>(
    alloc: Global,
    spare: &mut Spare,
    e: &Expression,
    inputs: &I,
    block: Block<'_>,
) -> Result<Found, AllocError>
    requires single { shapes.shape_of (I.given inputs.now).shape e.now ≡ Some [] }
    requires within { all_below (I.items inputs.now) (items_of block) }
    ensures { IfOk result (λ found. IsFound (block_of (I.given inputs.now) e.now (items_of block.entry)) found) }
{
    let mut values = spare.values(alloc, 0, 0)?;
    for place in 0..count(block) {
        match single_value(alloc, e, inputs, item_at(block, place) as u64) {
            Ok(v) => values.push(v)?,
            Err(EvalFail::Fault(fault)) => {
                return Ok(Found {
                    values,
                    fault: Some(fault),
                });
            }
            Err(EvalFail::Memory) => return Err(AllocError),
        }
    }
    Ok(Found {
        values,
        fault: None,
    })
}

fn is_signed(e: &Expression) -> bool {
    match e {
        Expression::Unary(_, _) => true,
        _ => false,
    }
}

// A text has room for thousands of signs in a row, and a step of `evaluate` takes some 1 kB of the stack: so two signs in
// a row are evaluated item by item.
fn has_two_signs(e: &Expression) -> bool {
    match e {
        Expression::Unary(_, a) => is_signed(a.get()),
        _ => false,
    }
}

/// What a block gives of an expression that is a single value: the values of its items up to the first one that has a
/// fault, and that fault.
#[cycle(evaluation)]
fn evaluate<I: Columns>(
    alloc: Global,
    spare: &mut Spare,
    e: &Expression,
    inputs: &I,
    block: Block<'_>,
) -> Result<Found, AllocError>
    requires single { shapes.shape_of (I.given inputs.now).shape e.now ≡ Some [] }
    requires within { all_below (I.items inputs.now) (items_of block) }
    ensures { IfOk result (λ found. IsFound (block_of (I.given inputs.now) e.now (items_of block.entry)) found) }
{
    if has_two_signs(e) {
        return one_by_one(alloc, spare, e, inputs, block);
    }
    match e {
        Expression::Number(n) => constant(alloc, spare, i64::from(*n), count(block)),
        Expression::Input(k) => input_run(alloc, spare, inputs, *k, block),
        Expression::Unary(operator, a) => {
            let found = evaluate(alloc, spare, a.get(), inputs, block)?;
            Ok(on_each(*operator, found))
        }
        Expression::Binary(operator, a, b) => match *operator {
            Binary::Or => decision_run(alloc, spare, false, a.get(), b.get(), inputs, block),
            Binary::And => decision_run(alloc, spare, true, a.get(), b.get(), inputs, block),
            Binary::Dot => one_by_one(alloc, spare, e, inputs, block),
            other => operator_run(alloc, spare, other, a.get(), b.get(), inputs, block),
        },
        Expression::Choice(condition, a, b) => {
            choice_run(
                alloc,
                spare,
                condition.get(),
                a.get(),
                b.get(),
                inputs,
                block,
            )
        }
        Expression::Part(a, place) => part_run(alloc, spare, e, a.get(), *place, inputs, block),
        Expression::Vector(_) => unreachable!(),
    }
}

/// What a block gives of an operator of two values.
#[cycle(evaluation)]
fn operator_run<I: Columns>(
    alloc: Global,
    spare: &mut Spare,
    operator: Binary,
    a: &Expression,
    b: &Expression,
    inputs: &I,
    block: Block<'_>,
) -> Result<Found, AllocError>
    requires both { sides_of operator ≡ sides.Both }
    requires single { shapes.shape_of (I.given inputs.now).shape (expression.Binary operator a.now b.now) ≡ Some [] }
    requires within { all_below (I.items inputs.now) (items_of block) }
    ensures { IfOk result (λ found. IsFound (block_of (I.given inputs.now) (expression.Binary operator a.now b.now) (items_of block.entry)) found) }
{
    let left = evaluate(alloc, spare, a, inputs, block)?;
    if let Some(value) = same_value(b, inputs) {
        return Ok(on_one_value(operator, left, value));
    }
    let reached = first(block, left.values.len());
    let right = evaluate(alloc, spare, b, inputs, reached)?;
    on_both(spare, operator, left, right)
}

/// What a block gives of `&&` or `||`: the right side is looked at where the left one is as wanted, which is true for `&&`
/// and false for `||`.
#[cycle(evaluation)]
fn decision_run<I: Columns>(
    alloc: Global,
    spare: &mut Spare,
    wanted: bool,
    a: &Expression,
    b: &Expression,
    inputs: &I,
    block: Block<'_>,
) -> Result<Found, AllocError>
    requires single { shapes.shape_of (I.given inputs.now).shape (expression.Binary (looking_where wanted) a.now b.now) ≡ Some [] }
    requires within { all_below (I.items inputs.now) (items_of block) }
    ensures { IfOk result (λ found. IsFound (block_of (I.given inputs.now) (expression.Binary (looking_where wanted) a.now b.now) (items_of block.entry)) found) }
{
    let left = evaluate(alloc, spare, a, inputs, block)?;
    let items = picks(alloc, spare, left.values.as_slice(), block, wanted)?;
    let right = evaluate(alloc, spare, b, inputs, Block::Listed(items.as_slice()))?;
    let rest = left.values.len().saturating_sub(items.len());
    spare.keep_items(items)?;
    let looked = decisions(right);
    if wanted {
        let fixed = constant(alloc, spare, 0, rest)?;
        chosen(spare, left, looked, fixed)
    } else {
        let fixed = constant(alloc, spare, 1, rest)?;
        chosen(spare, left, fixed, looked)
    }
}

/// What a block gives of a choice: each side is evaluated at the items whose condition picks it.
#[cycle(evaluation)]
fn choice_run<I: Columns>(
    alloc: Global,
    spare: &mut Spare,
    condition: &Expression,
    a: &Expression,
    b: &Expression,
    inputs: &I,
    block: Block<'_>,
) -> Result<Found, AllocError>
    requires single { shapes.shape_of (I.given inputs.now).shape (expression.Choice condition.now a.now b.now) ≡ Some [] }
    requires within { all_below (I.items inputs.now) (items_of block) }
    ensures { IfOk result (λ found. IsFound (block_of (I.given inputs.now) (expression.Choice condition.now a.now b.now) (items_of block.entry)) found) }
{
    let conditions = evaluate(alloc, spare, condition, inputs, block)?;
    let one_items = picks(alloc, spare, conditions.values.as_slice(), block, true)?;
    let ones = evaluate(alloc, spare, a, inputs, Block::Listed(one_items.as_slice()))?;
    spare.keep_items(one_items)?;
    let other_items = picks(alloc, spare, conditions.values.as_slice(), block, false)?;
    let others = evaluate(
        alloc,
        spare,
        b,
        inputs,
        Block::Listed(other_items.as_slice()),
    )?;
    spare.keep_items(other_items)?;
    chosen(spare, conditions, ones, others)
}

/// What the items from one to before another give.
pub fn evaluate_range<I: Columns>(
    alloc: Global,
    spare: &mut Spare,
    e: &Expression,
    inputs: &I,
    from: usize,
    to: usize,
) -> Result<Found, AllocError>
    requires single { shapes.shape_of (I.given inputs.now).shape e.now ≡ Some [] }
    requires within { to ≤ I.items inputs.now }
    ensures { IfOk result (λ found. IsFound (block_of (I.given inputs.now) e.now (range_with_len from (to - from))) found) }
{
    evaluate(alloc, spare, e, inputs, Block::Range(from, to))
}
