//! Results of one value.
ghost use Rattle.std.specs.Prelude.{◌≡◌, ◌∷◌, [], pos, map, Ok, IfOk};
ghost use Rattle.dx_base.specs.Object.{text as text_tree, no_parts};
ghost use Rattle.dx_objects.specs.Runs.{Gives};
ghost use Rattle.dx_objects.specs.Values.{value_of};
ghost use Rattle.dx_inquire.specs.Inquire as spec;

use dx_base::Bytes;
use dx_objects::{
    Array, ArrayError, Code, ElemType, Object, Outs, Parts, RunFail, Shape, Value, number,
};
use std::alloc::{AllocError, Global};
use std::rc::Rc;

/// 1 or 0.
pub(crate) fn truth(alloc: Global, holds: bool) -> Result<Outs, RunFail>
    ensures { Gives (spec.truth holds) result }
{
    number_of(alloc, if holds { 1 } else { 0 })
}

/// A number, or NULL where it is no int.
pub(crate) fn number_of(alloc: Global, n: u64) -> Result<Outs, RunFail>
    ensures { Gives (spec.number_answer n) result }
{
    let n = i64::try_from(n).unwrap_or(i64::MAX);
    one(alloc, number(alloc, n)?)
}

/// A text.
pub(crate) fn one_text(alloc: Global, text: &[u8]) -> Result<Outs, RunFail>
    ensures { Gives (spec.one_object (text_tree text.now no_parts)) result }
{
    match Object::text(Bytes::copy_of(alloc, text)?, Parts::new(alloc)) {
        Ok(object) => one(alloc, Some(shared(alloc, object)?)),
        Err(_) => Err(RunFail::Code(Code::TooLarge)),
    }
}

/// A list of ints. Overflow where one of these is none.
pub(crate) fn ints(alloc: Global, numbers: &[u32]) -> Result<Outs, RunFail>
    ensures { Gives (spec.ints_answer numbers.now) result }
{
    match Array::plain(ElemType::Int, Shape::new(alloc), values_of(alloc, numbers)?) {
        Err(e) => Err(RunFail::Code(code_of(e))),
        Ok(array) => match Object::array(array, Parts::new(alloc)) {
            Ok(object) => one(alloc, Some(shared(alloc, object)?)),
            Err(_) => Err(RunFail::Code(Code::TooLarge)),
        },
    }
}

fn one(alloc: Global, value: Value) -> Result<Outs, RunFail>
    ensures { Gives (Ok (value_of value ∷ [])) result }
{
    let mut results = Outs::new(alloc);
    results.push(value)?;
    Ok(results)
}

fn code_of(e: ArrayError) -> Code
    ensures { result ≡ spec.code_of e }
{
    match e {
        ArrayError::RangeOfType => Code::Overflow,
        ArrayError::BadShape | ArrayError::TooManyItems | ArrayError::ItemCount => Code::TooLarge,
    }
}

fn values_of(alloc: Global, numbers: &[u32]) -> Result<Vec<i64>, AllocError>
    ensures { IfOk result (λ values. values.items ≡ map (λ n. pos n) numbers.now) }
{
    let mut values = Vec::with_capacity(alloc, numbers.len())?;
    for n in numbers {
        values.push(i64::from(*n))?;
    }
    Ok(values)
}

fn shared(alloc: Global, object: Object) -> Result<Rc<Object>, AllocError>
    ensures { IfOk result (λ shared. shared.value ≡ object) }
{
    Ok(Rc::new(alloc, object)?)
}
