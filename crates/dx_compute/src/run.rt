//! The run of Compute: its checks, and groups and series level by level.
ghost use Rattle.std.specs.Prelude.{◌≡◌, ◌≤◌, ◌∷◌, [], true, drop, map, length, Some, Ok, Err, IfOk};
ghost use Rattle.std.specs.List.{range_with_len};
ghost use Rattle.dx_base.specs.Answers.{Answers, IsEither};
ghost use Rattle.dx_base.specs.Modules.{Takes};
ghost use Rattle.dx_base.specs.declared.function.Module.TheVariants.{Compute};
ghost use Rattle.dx_objects.specs.Runs.{Gives};
ghost use Rattle.dx_objects.specs.Values.{values_of};
ghost use Rattle.dx_steps.specs.Steps.{all_step};
ghost use Rattle.dx_expr_bounds.specs.Bounds.{is_bounded};
ghost use Rattle.dx_compute_meaning.specs.Answered.{collected};
ghost use Rattle.dx_compute_meaning.specs.Compute as spec;
ghost use Rattle.dx_compute_meaning.specs.Operands.{used as spec_used, all_at_place as spec_all_at_place};
ghost use Rattle.dx_compute_meaning.specs.Shown.{shown, code_in, objects_of};

use crate::expression::expression_in;
use crate::groups::{all_at_place, are_alike, first_group, remade};
use crate::operands::{all_given, occurring, used};
use crate::place::{over_arrays, shared};
use dx_base::{Code, Items};
use dx_expr::Expression;
use dx_objects::{Object, Outs, RunFail, Value};
use std::alloc::{AllocError, Global};
use std::rc::Rc;

/// How deep groups and series are at most, since an object has no more levels.
const MOST_LEVELS: u32 = 64;

// The answer for inputs of which groups and series are at most so many levels deep.
#[cycle(levels)]
fn answer_within(
    alloc: Global,
    e: &Expression,
    used: &[u8],
    levels: u32,
    operands: &[Option<&Object>],
) -> Result<Object, RunFail>
    requires bounded { is_bounded e.now ≡ true }
    requires used { used.now ≡ spec_used e.now }
    ensures { Answers code_in (spec.answer_within levels e.now (shown operands.now)) result }
{
    if !all_given(used, operands) {
        return Err(RunFail::Code(Code::BadArgument));
    }
    if levels == 0 {
        return over_arrays(alloc, e, operands);
    }
    let Some(group) = first_group(operands) else {
        return over_arrays(alloc, e, operands);
    };
    let count = group.parts().len();
    if !are_alike(operands, count) {
        return Err(RunFail::Code(Code::ItemMismatch));
    }
    let members = member_answers(alloc, e, used, levels - 1, operands, count)?;
    remade(alloc, group, members.as_slice())
}

// The answers for the members at each of so many places.
#[cycle(levels)]
fn member_answers(
    alloc: Global,
    e: &Expression,
    used: &[u8],
    levels: u32,
    operands: &[Option<&Object>],
    count: usize,
) -> Result<Items<Rc<Object>>, RunFail>
    requires bounded { is_bounded e.now ≡ true }
    requires used { used.now ≡ spec_used e.now }
    ensures answers { IsEither code_in (λ os. collected (map (λ i. spec.answer_within levels e.now (spec_all_at_place i (shown operands.now))) (range_with_len 0 count)) ≡ Ok (objects_of os)) (λ code. collected (map (λ i. spec.answer_within levels e.now (spec_all_at_place i (shown operands.now))) (range_with_len 0 count)) ≡ Err code) result }
    ensures count { IfOk result (λ os. length os ≡ count) }
{
    let mut found = Items::new(alloc);
    for i in 0..count {
        let members = all_at_place(alloc, operands, i)?;
        let object = answer_within(alloc, e, used, levels, members.as_slice())?;
        found.push(shared(alloc, object)?)?;
    }
    Ok(found)
}

// The inputs behind the expression.
fn further(inputs: &Outs) -> &[Value]
    requires { Takes Compute (length inputs.now) }
    ensures values { values_of result.now ≡ drop 1 inputs.now }
    ensures few { length result.now ≤ 20 }
{
    match inputs.as_slice() {
        [] => &[],
        [_, rest @ ..] => rest,
    }
}

// The results, of which there is one.
fn results_of(alloc: Global, object: Object) -> Result<Outs, AllocError>
    ensures { IfOk result (λ outs. outs ≡ Some object ∷ []) }
{
    let mut results = Outs::new(alloc);
    results.push(Some(shared(alloc, object)?))?;
    Ok(results)
}

/// What Compute answers for an expression, which is the first input, and for the inputs `$0`, `$1` and so on behind it
/// (User's Reference, Compute): one result.
///
/// The expression needs to be a text (BadArgument) that is one (BadExpression). For each `$k` in it there needs to be an
/// input that is neither NULL nor a text (BadArgument). Where some of these are groups or series, those need equal numbers
/// of members (ItemMismatch); the result is the first of them, but at each place stands what is answered for their members
/// at that place, and the first of these that is refused decides. Otherwise a field stands for its component `data`
/// (NoComponent). The numbers of items that are other than one need to be equal, and then the shapes to fit (ItemMismatch);
/// an array of one item stands for every item. The first fault of the first item that has one is Overflow or
/// DivisionByZero. The result is a plain array of ints, or the first field with its data replaced, of which the items need
/// to be as many as before (ItemMismatch). TooLarge, where the result is beyond the limits of objects, comes last.
pub fn run_compute(alloc: Global, inputs: &Outs) -> Result<Outs, RunFail>
    requires { Takes Compute (length inputs.now) }
    ensures answer { Gives (spec.answer inputs.now) result }
    // From inputs of which all origins and deltas are ints it makes such an object.
    ensures steps { all_step inputs.now ≡ true → IfOk result (λ results. all_step results ≡ true) }
{
    let e = expression_in(alloc, inputs)?;
    let used = used(alloc, &e)?;
    let operands = occurring(alloc, &e, further(inputs))?;
    let object = answer_within(alloc, &e, &used, MOST_LEVELS, &operands)?;
    let results = results_of(alloc, object)?;
    Ok(results)
}
