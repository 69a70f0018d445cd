//! The line that Echo prints.
ghost use Rattle.std.specs.Prelude.{◌≡◌, ◌++◌, OnOk, map};
ghost use Rattle.dx_objects.specs.Values.{value_of, values_of};
ghost use Rattle.dx_base.specs.Words.{behind, spaced};
ghost use Rattle.dx_print.specs.Echoed.{echo_of, object_word, value_word};
ghost use Rattle.dx_print.specs.Results.{Echoes};

use crate::header::{push_header, push_object_header};
use dx_base::{Bytes, push_number};
use dx_objects::{Object, Outs, RunFail, Value};
use std::alloc::{AllocError, Global};

/// How many bytes of a line get room at first.
const ROOM: usize = 64;

/// The line that Echo prints of its inputs, with its newline. Between two inputs stands one space. A text is printed as
/// its bytes, a number in decimal, and anything else as its header, which is `NULL` for NULL. An array is a number where
/// its rank is 0 and it has one item. Echo has no refusal (User's Reference, Echo).
pub fn echo_text(alloc: Global, inputs: &Outs) -> Result<Bytes, RunFail>
    ensures { Echoes (echo_of inputs.now) result }
{
    let mut line = Vec::with_capacity(alloc, ROOM)?;
    push_words(&mut line, inputs.as_slice())?;
    line.extend_from_slice(b"\n")?;
    Ok(Bytes::from_vec(line))
}

fn push_words(out: &mut Vec<u8>, values: &[Value]) -> Result<(), AllocError>
    ensures { OnOk result (out.new.items ≡ out.old.items ++ spaced (map value_word (values_of values.now))) }
{
    match values {
        [] => Ok(()),
        [first, others @ ..] => {
            push_word(out, first)?;
            push_others(out, others)
        }
    }
}

// Each word behind a space.
fn push_others(out: &mut Vec<u8>, values: &[Value]) -> Result<(), AllocError>
    ensures { OnOk result (out.new.items ≡ out.old.items ++ behind (map value_word (values_of values.now))) }
{
    for value in values {
        out.push(b' ')?;
        push_word(out, value)?;
    }
    Ok(())
}

fn push_word(out: &mut Vec<u8>, value: &Value) -> Result<(), AllocError>
    ensures { OnOk result (out.new.items ≡ out.old.items ++ value_word (value_of value.now)) }
{
    match value {
        None => push_header(out, value),
        Some(object) => push_object_word(out, object),
    }
}

#[tactic(auto, using(crate::proofs::Words::number_word, crate::proofs::Words::other_word))]
fn push_object_word(out: &mut Vec<u8>, object: &Object) -> Result<(), AllocError>
    ensures { OnOk result (out.new.items ≡ out.old.items ++ object_word object.now) }
{
    if let Some(text) = object.as_text() {
        return out.extend_from_slice(text);
    }
    match object.as_number() {
        None => push_object_header(out, object),
        Some(n) => push_number(out, n),
    }
}
