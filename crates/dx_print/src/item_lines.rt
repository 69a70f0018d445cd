//! Items of arrays, each on a line at an indent.
ghost use Rattle.std.specs.Prelude.{◌≡◌, ◌++◌, ◌-◌, ◌<◌, ◌≤◌, OnOk, replicate};
ghost use Rattle.std.specs.Fmt.{signed_decimal};
ghost use Rattle.dx_base.specs.Array.{items, value, width};
ghost use Rattle.dx_print.specs.ItemLines as spec;

use dx_arrays::Array;
use dx_base::push_number;
use std::alloc::AllocError;

/// The most items that are all shown, unless all are asked for.
const MOST_ITEMS: u64 = 50;

/// How many items of a longer array are shown at each end.
const END_ITEMS: u64 = 25;

/// The items of an array, a line for each; of more than 50 the first 25, a line `...`, and the last 25.
#[tactic(auto, unfolding(crate::specs::ItemLines::few_items))]
pub(crate) fn push_few_items(
    out: &mut Vec<u8>,
    array: &Array,
    indent: u64,
) -> Result<(), AllocError>
    ensures { OnOk result (out.new.items ≡ out.old.items ++ spec.few_items indent array.now) }
{
    if array.items() <= MOST_ITEMS {
        push_all_items(out, array, indent)
    } else {
        push_items_at_ends(out, array, indent)
    }
}

/// The items of an array, a line for each.
pub(crate) fn push_all_items(
    out: &mut Vec<u8>,
    array: &Array,
    indent: u64,
) -> Result<(), AllocError>
    ensures { OnOk result (out.new.items ≡ out.old.items ++ spec.all_items indent array.now) }
{
    push_lines(out, array, indent, 0, array.items())
}

// The first and the last items, and a line between them.
#[tactic(auto, unfolding(crate::specs::ItemLines::items_at_ends))]
fn push_items_at_ends(out: &mut Vec<u8>, array: &Array, indent: u64) -> Result<(), AllocError>
    requires { spec.most_items < items array.now }
    ensures { OnOk result (out.new.items ≡ out.old.items ++ spec.items_at_ends indent array.now) }
{
    let items = array.items();
    push_lines(out, array, indent, 0, END_ITEMS)?;
    push_line(out, indent, b"...")?;
    push_lines(out, array, indent, items - END_ITEMS, items)
}

// The lines of the items from one number on, up to another that is left out.
fn push_lines(
    out: &mut Vec<u8>,
    array: &Array,
    indent: u64,
    from: u64,
    to: u64,
) -> Result<(), AllocError>
    requires order { from ≤ to }
    requires within { to ≤ items array.now }
    ensures { OnOk result (out.new.items ≡ out.old.items ++ spec.lines_of indent array.now from (to - from)) }
{
    for item in from..to {
        push_item_line(out, array, indent, item)?;
    }
    Ok(())
}

// The line of an item.
fn push_item_line(
    out: &mut Vec<u8>,
    array: &Array,
    indent: u64,
    item: u64,
) -> Result<(), AllocError>
    requires { item < items array.now }
    ensures { OnOk result (out.new.items ≡ out.old.items ++ spec.item_line indent array.now item) }
{
    push_indent(out, indent)?;
    push_item(out, array, item)?;
    Ok(out.push(b'\n')?)
}

// The values of an item, separated by a space.
fn push_item(out: &mut Vec<u8>, array: &Array, item: u64) -> Result<(), AllocError>
    requires { item < items array.now }
    ensures { OnOk result (out.new.items ≡ out.old.items ++ spec.item_text array.now item) }
{
    let width = array.width();
    push_value(out, array, item, 0)?;
    for place in 1..width {
        out.push(b' ')?;
        push_value(out, array, item, place)?;
    }
    Ok(())
}

// The value of an item in a place.
fn push_value(out: &mut Vec<u8>, array: &Array, item: u64, place: u64) -> Result<(), AllocError>
    requires item { item < items array.now }
    requires place { place < width array.now }
    ensures { OnOk result (out.new.items ≡ out.old.items ++ signed_decimal (value array.now item place)) }
{
    push_number(out, array.value(item, place))
}

/// A line at an indent.
pub(crate) fn push_line(out: &mut Vec<u8>, indent: u64, line: &[u8]) -> Result<(), AllocError>
    ensures { OnOk result (out.new.items ≡ out.old.items ++ spec.at_indent indent line.now) }
{
    push_indent(out, indent)?;
    out.extend_from_slice(line)?;
    Ok(out.push(b'\n')?)
}

/// So many spaces.
pub(crate) fn push_indent(out: &mut Vec<u8>, indent: u64) -> Result<(), AllocError>
    ensures { OnOk result (out.new.items ≡ out.old.items ++ replicate indent 32) }
{
    for space in 0..indent {
        out.push(b' ')?;
    }
    Ok(())
}
