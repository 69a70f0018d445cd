//! The lines of an array behind its first.
ghost use Rattle.std.specs.Prelude.{◌≡◌, ◌≤◌, ◌*◌, ◌++◌, OnOk, map, length};
ghost use Rattle.dx_base.specs.Array.{counts_of, origin_of, deltas_of};
ghost use Rattle.dx_base.specs.Words.{numbers_behind};
ghost use Rattle.dx_arrays.specs.Kept.{values_in};
ghost use Rattle.dx_native_text.specs.Lines.{spelled};
ghost use Rattle.dx_native_text.specs.Arrays.{class_lines, rows, item_line, delta_line};
ghost use Rattle.dx_native_write.specs.Spelled.{item_text, origin_text, delta_text};

use dx_arrays::{Array, ArrayClass, Values};
use dx_base::{push_number, push_numbers, push_numbers_behind};
use std::alloc::AllocError;

/// One line an item of a plain array, the one item of a constant array, the origin and the delta of a regular array, the
/// origin and a delta for each dimension of a grid's points, and no line for a grid's cells.
#[tactic(auto, using(crate::proofs::ClassLines::class_texts))]
pub(crate) fn push_class_lines(out: &mut Vec<u8>, array: &Array) -> Result<(), AllocError>
    ensures { OnOk result (out.new.items ≡ out.old.items ++ spelled (class_lines array.now array.now.class)) }
{
    if let Some(values) = array.plain_values() {
        return push_item_lines(out, array.width() as usize, array.items() as usize, values);
    }
    // Asked so that the proof knows the lengths of the lists.
    let _items = array.items();
    match array.class() {
        ArrayClass::Plain => unreachable!(),
        ArrayClass::Constant => push_item_line(out, array.origin()),
        ArrayClass::Regular => push_regular_lines(out, array),
        ArrayClass::GridPositions => push_position_lines(out, array),
        ArrayClass::GridConnections => Ok(()),
    }
}

// The origin and the delta.
fn push_regular_lines(out: &mut Vec<u8>, array: &Array) -> Result<(), AllocError>
    ensures { OnOk result (out.new.items ≡ out.old.items ++ (origin_text (origin_of array.now.class) ++ delta_text (deltas_of array.now.class))) }
{
    push_origin_line(out, array.origin())?;
    push_delta_line(out, array.deltas())
}

// The origin and a delta for each dimension.
fn push_position_lines(out: &mut Vec<u8>, array: &Array) -> Result<(), AllocError>
    requires { length (counts_of array.now.class) * length (counts_of array.now.class) ≤ length (deltas_of array.now.class) }
    ensures { OnOk result (out.new.items ≡ out.old.items ++ (origin_text (origin_of array.now.class) ++ spelled (map delta_line (rows (length (counts_of array.now.class)) (length (counts_of array.now.class)) (deltas_of array.now.class))))) }
{
    push_origin_line(out, array.origin())?;
    push_delta_lines(out, array.counts().len(), array.deltas())
}

fn push_item_lines(
    out: &mut Vec<u8>,
    width: usize,
    items: usize,
    values: Values<'_>,
) -> Result<(), AllocError>
    requires { items * width ≤ length (values_in values) }
    ensures { OnOk result (out.new.items ≡ out.old.items ++ spelled (map item_line (rows width items (values_in values.entry)))) }
{
    match values {
        Values::Ints(values) => push_int_lines(out, width, items, values),
        Values::Wide(values) => push_wide_lines(out, width, items, values),
    }
}

fn push_wide_lines(
    out: &mut Vec<u8>,
    width: usize,
    items: usize,
    values: &[i64],
) -> Result<(), AllocError>
    requires { items * width ≤ length values.now }
    ensures { OnOk result (out.new.items ≡ out.old.items ++ spelled (map item_line (rows width items values.now))) }
{
    let mut rest = values;
    for item in 0..items {
        let (row, others) = rest.split_at(width);
        push_item_line(out, row)?;
        rest = others;
    }
    Ok(())
}

fn push_int_lines(
    out: &mut Vec<u8>,
    width: usize,
    items: usize,
    values: &[i32],
) -> Result<(), AllocError>
    requires { items * width ≤ length values.now }
    ensures { OnOk result (out.new.items ≡ out.old.items ++ spelled (map item_line (rows width items values.now))) }
{
    let mut rest = values;
    for item in 0..items {
        let (row, others) = rest.split_at(width);
        push_int_line(out, row)?;
        rest = others;
    }
    Ok(())
}

fn push_delta_lines(out: &mut Vec<u8>, dimensions: usize, deltas: &[i64]) -> Result<(), AllocError>
    requires { dimensions * dimensions ≤ length deltas.now }
    ensures { OnOk result (out.new.items ≡ out.old.items ++ spelled (map delta_line (rows dimensions dimensions deltas.now))) }
{
    let mut rest = deltas;
    for dimension in 0..dimensions {
        let (row, others) = rest.split_at(dimensions);
        push_delta_line(out, row)?;
        rest = others;
    }
    Ok(())
}

fn push_item_line(out: &mut Vec<u8>, values: &[i64]) -> Result<(), AllocError>
    ensures { OnOk result (out.new.items ≡ out.old.items ++ item_text values.now) }
{
    push_numbers(out, values)?;
    Ok(out.push(b'\n')?)
}

fn push_int_line(out: &mut Vec<u8>, values: &[i32]) -> Result<(), AllocError>
    ensures { OnOk result (out.new.items ≡ out.old.items ++ item_text values.now) }
{
    if let [first, others @ ..] = values {
        push_number(out, i64::from(*first))?;
        push_ints_behind(out, others)?;
    }
    Ok(out.push(b'\n')?)
}

// Ints in decimal, each behind a space.
fn push_ints_behind(out: &mut Vec<u8>, values: &[i32]) -> Result<(), AllocError>
    ensures { OnOk result (out.new.items ≡ out.old.items ++ numbers_behind values.now) }
{
    for value in values {
        out.push(b' ')?;
        push_number(out, i64::from(*value))?;
    }
    Ok(())
}

fn push_origin_line(out: &mut Vec<u8>, origin: &[i64]) -> Result<(), AllocError>
    ensures { OnOk result (out.new.items ≡ out.old.items ++ origin_text origin.now) }
{
    out.extend_from_slice(b"origin")?;
    push_numbers_behind(out, origin)?;
    Ok(out.push(b'\n')?)
}

fn push_delta_line(out: &mut Vec<u8>, delta: &[i64]) -> Result<(), AllocError>
    ensures { OnOk result (out.new.items ≡ out.old.items ++ delta_text delta.now) }
{
    out.extend_from_slice(b"delta")?;
    push_numbers_behind(out, delta)?;
    Ok(out.push(b'\n')?)
}
