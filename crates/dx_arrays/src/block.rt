//! Reads the values of many items in one call, line by line, so that no value costs the arithmetic of its index.
ghost use Rattle.std.specs.Prelude.{◌≡◌, ◌<◌, ◌≤◌, ◌+◌, ◌-◌, ◌*◌, ◌++◌, OnOk, OnErr, List, ℤ, pos, ◌+ℤ◌, length, slice_index_or};
ghost use Rattle.std.specs.Vec.{vec_len, vec_capacity};
ghost use Rattle.dx_base.specs.Array.{items, item as spec_item, width as spec_width};
ghost use Rattle.dx_arrays.specs.Block.{values_from, AreOnLine, IsSmall};

use crate::array::{Array, Values};
use std::alloc::AllocError;

impl Array {
    /// Puts the values of the items from number `from` on, up to number `to`, which is left out, at the end of a list,
    /// item by item and each item with all its values.
    ///
    /// Memory is taken only where the list has no room for them. Where memory runs out the list stays as it was.
    pub fn push_items(&self, from: u64, to: u64, out: &mut Vec<i64>) -> Result<(), AllocError>
        requires order { from ≤ to }
        requires within { to ≤ items self.now }
        ensures ok { OnOk result (out.new.items ≡ out.old.items ++ values_from self.now from (to - from)) }
        ensures err { OnErr result (out.new.items ≡ out.old.items) }
        ensures full { OnErr result (vec_capacity out.old < vec_len out.old + (to - from) * spec_width self.now) }
    {
        let width = self.width();
        let (first, end) = ((from * width) as usize, (to * width) as usize);
        match self.plain_values() {
            Some(Values::Wide(values)) => out.extend_from_slice(&values[first..end]),
            Some(Values::Ints(values)) => push_ints(&values[first..end], out),
            None => {
                out.reserve(end - first)?;
                self.push_lines(from, to, out);
                Ok(())
            }
        }
    }

    // The values of these items, line by line.
    fn push_lines(&self, from: u64, to: u64, out: &mut Vec<i64>)
        requires order { from ≤ to }
        requires within { to ≤ items self.now }
        requires room { vec_len out.old + (to - from) * spec_width self.now ≤ vec_capacity out.old }
        ensures { out.new.items ≡ out.old.items ++ values_from self.now from (to - from) }
    {
        let mut item = from;
        while item < to {
            let end = self.line_end(item).min(to);
            self.push_line(item, end, out);
            item = end;
        }
    }

    // The number of the first item behind the line of this one.
    fn line_end(&self, item: u64) -> u64
        requires { item < items self.now }
        ensures behind { item < result }
        ensures line { AreOnLine self.now item result }
    {
        let len = self.line_len();
        (item / len + 1) * len
    }

    // The values of items on one line: those of the first two by their indices, and the others from the two before.
    fn push_line(&self, item: u64, end: u64, out: &mut Vec<i64>)
        requires some { item < end }
        requires within { end ≤ items self.now }
        requires line { AreOnLine self.now item end }
        requires room { vec_len out.old + (end - item) * spec_width self.now ≤ vec_capacity out.old }
        ensures values { out.new.items ≡ out.old.items ++ values_from self.now item (end - item) }
        ensures len { vec_len out.new ≡ vec_len out.old + (end - item) * spec_width self.now }
        ensures capacity { vec_capacity out.new ≡ vec_capacity out.old }
    {
        self.push_item(item, out);
        if item + 1 < end {
            self.push_item(item + 1, out);
            self.push_rest(item, end, out);
        }
    }

    // The values of one item.
    fn push_item(&self, item: u64, out: &mut Vec<i64>)
        requires within { item < items self.now }
        requires room { vec_len out.old + spec_width self.now ≤ vec_capacity out.old }
        ensures values { out.new.items ≡ out.old.items ++ spec_item self.now item }
        ensures len { vec_len out.new ≡ vec_len out.old + spec_width self.now }
        ensures capacity { vec_capacity out.new ≡ vec_capacity out.old }
    {
        for place in 0..self.width() {
            out.push_reserved(self.value(item, place));
        }
    }

    // The values of the items on one line behind the first two, which stand at the end of the list.
    fn push_rest(&self, item: u64, end: u64, out: &mut Vec<i64>)
        requires two { item + 2 ≤ end }
        requires within { end ≤ items self.now }
        requires line { AreOnLine self.now item end }
        requires begun { (before : List ℤ) × (out.old.items ≡ before ++ values_from self.now item 2) }
        requires room { vec_len out.old + (end - (item + 2)) * spec_width self.now ≤ vec_capacity out.old }
        ensures values { out.new.items ≡ out.old.items ++ values_from self.now (item + 2) (end - (item + 2)) }
        ensures len { vec_len out.new ≡ vec_len out.old + (end - (item + 2)) * spec_width self.now }
        ensures capacity { vec_capacity out.new ≡ vec_capacity out.old }
    {
        let width = self.width() as usize;
        for k in 2 * width..(end - item) as usize * width {
            let next = next_value(out, width);
            out.push_reserved(next);
        }
    }
}

// Puts these ints at the end of a list.
fn push_ints(values: &[i32], out: &mut Vec<i64>) -> Result<(), AllocError>
    ensures ok { OnOk result (out.new.items ≡ out.old.items ++ values.now) }
    ensures err { OnErr result (out.new.items ≡ out.old.items) }
    ensures full { OnErr result (vec_capacity out.old < vec_len out.old + length values.now) }
{
    out.reserve(values.len())?;
    for value in values {
        out.push_reserved(i64::from(*value));
    }
    Ok(())
}

// The value that goes on evenly from those which stand two items and one item before it.
fn next_value(values: &[i64], width: usize) -> i64
    requires some { 0 < width }
    requires two { 2 * width ≤ length values.now }
    requires last { IsSmall (slice_index_or values.now (length values.now - width) (pos 0)) }
    requires before { IsSmall (slice_index_or values.now (length values.now - 2 * width) (pos 0)) }
    ensures { result +ℤ slice_index_or values.now (length values.now - 2 * width) (pos 0) ≡ slice_index_or values.now (length values.now - width) (pos 0) +ℤ slice_index_or values.now (length values.now - width) (pos 0) }
{
    let last = values[values.len() - width];
    let before = values[values.len() - 2 * width];
    last + (last - before)
}
