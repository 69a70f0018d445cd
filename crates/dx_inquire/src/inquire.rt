//! Inquire.
ghost use Rattle.std.specs.Prelude.{◌≡◌, length, Some, None, MatchOption, IfOk};
ghost use Rattle.dx_base.specs.Array.{counts_of};
ghost use Rattle.dx_base.specs.Modules.{Takes};
ghost use Rattle.dx_base.specs.declared.function.Module.TheVariants.{Inquire};
ghost use Rattle.dx_objects.specs.Runs.{Gives};
ghost use Rattle.dx_objects.specs.Values.{value_at};
ghost use Rattle.dx_inquire.specs.Inquire as spec;
ghost use Rattle.dx_inquire.specs.Inquire.{inquire_answer};

use crate::answers::{ints, number_of, one_text, truth};
use crate::question::{ArrayQuestion, Question, question_of};
use dx_fields::{Grid, grid_of};
use dx_objects::{Array, Code, Kind, Object, Outs, RunFail};
use std::alloc::{AllocError, Global};

/// Answers a question about an object (User's Reference, Inquire). The inputs are the object; `inquiry`, a text, or NULL
/// for `is null`; and `value`, which has to be NULL. `is null`, `is array`, `is string`, `is field`, `is group` and
/// `is series` give 1 or 0, where a composite group is a group. `items`, `rank`, `type` and `shape` are asked of an array or of
/// a field's `data`: how many items, how many dimensions an item has, the type's words as a text, the extents as a list of
/// ints. `member count` is asked of a field, a group or a series, and `grid counts` of an array or a field that is a regular
/// grid: the counts, as a list of ints.
///
/// BadArgument where `inquiry` is neither NULL nor a text; then Unsupported where `value` isn't NULL, or `inquiry` is another
/// text; then BadArgument where the question isn't asked of such an object; then Overflow where a count is no int; then
/// TooLarge.
pub fn run_inquire(alloc: Global, inputs: &Outs) -> Result<Outs, RunFail>
    requires { Takes Inquire (length inputs.now) }
    ensures { Gives (inquire_answer inputs.now) result }
{
    let Some(question) = asked(inputs) else {
        return Err(RunFail::Code(Code::BadArgument));
    };
    if inputs.value(2).is_some() {
        return Err(RunFail::Code(Code::Unsupported));
    }
    answer(alloc, question, inputs)
}

// The question that input number 1 is, if it is NULL or a text.
fn asked(inputs: &Outs) -> Option<Question>
    ensures { result ≡ spec.asked (value_at inputs.now 1) }
{
    match inputs.value(1) {
        None => Some(Question::IsNull),
        Some(object) => match object.as_text() {
            None => None,
            Some(text) => Some(question_of(text)),
        },
    }
}

// The answer to a question about input number 0.
fn answer(alloc: Global, question: Question, inputs: &Outs) -> Result<Outs, RunFail>
    ensures { Gives (spec.answer question (value_at inputs.now 0)) result }
{
    match question {
        Question::IsNull => truth(alloc, inputs.value(0).is_none()),
        Question::Is(kind) => truth(alloc, has_kind(inputs, kind)),
        Question::Of(question) => match array_in(inputs) {
            None => Err(RunFail::Code(Code::BadArgument)),
            Some(array) => about_array(alloc, question, array),
        },
        Question::MemberCount => members_in(alloc, inputs),
        Question::GridCounts => match inputs.value(0) {
            None => Err(RunFail::Code(Code::BadArgument)),
            Some(object) => about_grid(alloc, object),
        },
        Question::Other => Err(RunFail::Code(Code::Unsupported)),
    }
}

fn has_kind(inputs: &Outs, kind: Kind) -> bool
    ensures { result ≡ spec.has_kind kind (value_at inputs.now 0) }
{
    match inputs.value(0) {
        None => false,
        Some(object) => object.kind() == kind,
    }
}

// The array that is asked about: an array, or the data of a field.
fn array_in(inputs: &Outs) -> Option<&Array>
    ensures { MatchOption result (spec.array_in (value_at inputs.now 0) ≡ None) (λ a. spec.array_in (value_at inputs.now 0) ≡ Some a.now) }
{
    match inputs.value(0) {
        None => None,
        Some(object) => array_or_data(object),
    }
}

fn array_or_data(object: &Object) -> Option<&Array>
    ensures { MatchOption result (spec.array_or_data object.now ≡ None) (λ a. spec.array_or_data object.now ≡ Some a.now) }
{
    if let Some(array) = object.as_array() {
        return Some(array);
    }
    match object.component(b"data") {
        None => None,
        Some(data) => data.as_array(),
    }
}

// The answer to a question about an array.
fn about_array(alloc: Global, question: ArrayQuestion, array: &Array) -> Result<Outs, RunFail>
    ensures { Gives (spec.array_answer question array.now) result }
{
    match question {
        ArrayQuestion::Items => number_of(alloc, array.items()),
        ArrayQuestion::Rank => number_of(alloc, array.extents().len() as u64),
        ArrayQuestion::Elem => one_text(alloc, array.elem().word()),
        ArrayQuestion::Shape => ints(alloc, array.extents()),
    }
}

#[tactic(auto, using(dx_objects::proofs::PartsLaws::part_count_is))]
fn members_in(alloc: Global, inputs: &Outs) -> Result<Outs, RunFail>
    ensures { Gives (spec.members_in (value_at inputs.now 0)) result }
{
    let Some(object) = inputs.value(0) else {
        return Err(RunFail::Code(Code::BadArgument));
    };
    match object.kind() {
        Kind::Field | Kind::Group | Kind::Series => {
            number_of(alloc, object.parts().len() as u64)
        }
        Kind::Array | Kind::Text => Err(RunFail::Code(Code::BadArgument)),
    }
}

// The counts of a grid.
fn about_grid(alloc: Global, object: &Object) -> Result<Outs, RunFail>
    ensures { Gives (spec.about_grid (spec.grid_in (Some object.now))) result }
{
    match object.as_array() {
        Some(array) => counts_in(alloc, array),
        None => match grid_of(object) {
            None => Err(RunFail::Code(Code::BadArgument)),
            Some(grid) => ints(alloc, counts_of_grid(alloc, &grid)?.as_slice()),
        },
    }
}

fn counts_in(alloc: Global, array: &Array) -> Result<Outs, RunFail>
    ensures { Gives (spec.about_grid (spec.grid_of_array (counts_of array.now.class))) result }
{
    let counts = array.counts();
    if counts.is_empty() {
        return Err(RunFail::Code(Code::BadArgument));
    }
    ints(alloc, counts)
}

fn counts_of_grid(alloc: Global, grid: &Grid<'_>) -> Result<Vec<u32>, AllocError>
    ensures { IfOk result (λ counts. counts.items ≡ grid.now) }
{
    let mut counts = Vec::with_capacity(alloc, grid.dimensions() as usize)?;
    for d in 0..grid.dimensions() {
        counts.push(grid.count(d))?;
    }
    Ok(counts)
}
