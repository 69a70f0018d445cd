//! Import.
ghost use Rattle.std.specs.Prelude.{◌≡◌, Some, None, Result, MatchOption, IfOk, option_map};
ghost use Rattle.std.specs.Option.{option_copied};
ghost use Rattle.dx_import.specs.Import as spec;
ghost use Rattle.dx_import.specs.Import.{import_answer};
ghost use Rattle.dx_base.specs.Object.{Tree};
ghost use Rattle.dx_native_fields.specs.Good.{good_fields};
ghost use Rattle.dx_native_lex.specs.declared.fault.NativeError.{NativeError as Fault};
ghost use Rattle.dx_native_read.specs.Answer.{Means};
ghost use Rattle.dx_native_read.specs.Found.{checked_object};
ghost use Rattle.dx_objects.specs.Runs.{Gives};
ghost use Rattle.dx_objects.specs.Values.{value_at, value_of};

use dx_base::Bytes;
use dx_native_read::{Checked, NativeFail, read_checked};
use dx_objects::{Code, Object, Outs, RunFail};
use std::alloc::{AllocError, Global};
use std::rc::Rc;

/// Reads an object from a native file (User's Reference, Import). The inputs are the file's name, a text, by which the
/// caller has got `file`, its bytes or none; `variable`, the text of the object's name in the file, or NULL for the one
/// that the file's default names, else the last; `format`, NULL or the text `dx`; and `start`, `end` and `delta`, which
/// have to be NULL.
///
/// BadArgument where name is no text, or variable or format is neither NULL nor a text; then Unsupported where format is
/// another text, or one of the last three isn't NULL; then NoFile where there are no bytes; then BadFile with the kind and
/// the offset of the file's fault; then BadField where the object is a field with a fault, or reaches one through its
/// parts.
pub fn run_import(alloc: Global, inputs: &Outs, file: Option<&Bytes>) -> Result<Outs, RunFail>
    ensures { Gives (import_answer inputs.now (option_copied file.entry)) result }
{
    if let Some(code) = refusal(inputs) {
        return Err(RunFail::Code(code));
    }
    match file {
        None => Err(RunFail::Code(Code::NoFile)),
        Some(bytes) => import(alloc, text_in(inputs, 1), bytes.bytes()),
    }
}

// The text of input number i, if it is one.
fn text_in(inputs: &Outs, i: usize) -> Option<&[u8]>
    ensures { MatchOption result (spec.text_in (value_at inputs.now i) ≡ None) (λ text. spec.text_in (value_at inputs.now i) ≡ Some text.now) }
{
    match inputs.value(i) {
        None => None,
        Some(object) => object.as_text(),
    }
}

fn is_null_or_text(inputs: &Outs, i: usize) -> bool
    ensures { result ≡ spec.is_null_or_text (value_at inputs.now i) }
{
    match inputs.value(i) {
        None => true,
        Some(object) => object.as_text().is_some(),
    }
}

// Why the inputs are refused, if they are.
fn refusal(inputs: &Outs) -> Option<Code>
    ensures { result ≡ spec.refusal inputs.now }
{
    if text_in(inputs, 0).is_none() || !is_null_or_text(inputs, 1) || !is_null_or_text(inputs, 2) {
        return Some(Code::BadArgument);
    }
    if is_native(text_in(inputs, 2)) && are_unused(inputs) {
        None
    } else {
        Some(Code::Unsupported)
    }
}

fn is_native(format: Option<&[u8]>) -> bool
    ensures { result ≡ spec.is_native (option_map (λ word. word.now) format.entry) }
{
    match format {
        None => true,
        Some(word) => word == b"dx".as_slice(),
    }
}

fn are_unused(inputs: &Outs) -> bool
    ensures { result ≡ spec.are_unused inputs.now }
{
    inputs.value(3).is_none() && inputs.value(4).is_none() && inputs.value(5).is_none()
}

// The object of these bytes that is asked for.
fn import(alloc: Global, variable: Option<&[u8]>, bytes: &[u8]) -> Result<Outs, RunFail>
    ensures { Gives (spec.imported (spec.meaning bytes.now (option_map (λ name. name.now) variable.entry))) result }
{
    let which = name_of(alloc, variable)?;
    answer(alloc, read_named(alloc, bytes, &which))
}

// What a text means where this object of it is asked for, and whether the fields within have no faults.
fn read_named(alloc: Global, bytes: &[u8], which: &Option<Bytes>) -> Result<Checked, NativeFail>
    ensures means { Means (spec.meaning bytes.now which.now) (checked_object result) }
    ensures good { IfOk result (λ checked. checked.good_fields ≡ good_fields checked.object) }
{
    match which {
        None => read_checked(alloc, bytes, None),
        Some(name) => read_checked(alloc, bytes, Some(name)),
    }
}

// What Import answers, where this was read.
fn answer(alloc: Global, read: Result<Checked, NativeFail>) -> Result<Outs, RunFail>
    requires { IfOk read (λ checked. checked.good_fields ≡ good_fields checked.object) }
    ensures { (meant : Result Tree Fault) → Means meant (checked_object read) → Gives (spec.imported meant) result }
{
    match read {
        Ok(checked) => object_answer(alloc, checked),
        Err(NativeFail::Refused(fault)) => {
            Err(RunFail::Code(Code::BadFile(fault.kind, fault.at)))
        }
        Err(NativeFail::Memory) => Err(RunFail::Memory),
    }
}

fn name_of(alloc: Global, text: Option<&[u8]>) -> Result<Option<Bytes>, AllocError>
    ensures { IfOk result (λ name. name ≡ option_map (λ name. name.now) text.entry) }
{
    match text {
        None => Ok(None),
        Some(text) => Ok(Some(Bytes::copy_of(alloc, text)?)),
    }
}

fn object_answer(alloc: Global, checked: Checked) -> Result<Outs, RunFail>
    ensures { Gives (spec.by_fields checked.good_fields checked.object) result }
{
    if !checked.good_fields {
        return Err(RunFail::Code(Code::BadField));
    }
    let mut results = Outs::new(alloc);
    results.push(Some(shared(alloc, checked.object)?))?;
    Ok(results)
}

fn shared(alloc: Global, object: Object) -> Result<Rc<Object>, AllocError>
    ensures { IfOk result (λ shared. shared.value ≡ object) }
{
    Ok(Rc::new(alloc, object)?)
}
