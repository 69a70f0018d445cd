//! Conditions: which items they pick, and the values of both sides in their order.

ghost use Rattle.std.specs.Prelude.{◌≡◌, ◌≤◌, IfOk, length, take};
ghost use Rattle.dx_expr_blocks.specs.Block.{picked, passes, merged};
ghost use Rattle.dx_expr_blocks.specs.Found.{IsFound, StopsAt};
ghost use Rattle.dx_expr_blocks.specs.Items.{items_of};

use crate::block::{Block, count, item_at};
use crate::found::Stop;
use crate::{Found, Spare};
use dx_expr::ItemFault;
use std::alloc::{AllocError, Global};

/// Puts the items whose condition is as wanted in front, and says how many they are.
fn pick(conditions: &[i32], block: Block<'_>, wanted: bool, picks: &mut [usize]) -> usize
    requires each { length conditions.now ≤ length (items_of block) }
    requires room { length conditions.now ≤ length picks.old }
    ensures { take result picks.new ≡ picked (passes wanted) conditions.now (items_of block.entry) }
{
    let mut picked = 0;
    for place in 0..conditions.len() {
        picks[picked] = item_at(block, place);
        if (conditions[place] != 0) == wanted {
            picked += 1;
        }
    }
    picked
}

/// The values of both sides in the order of the conditions, which give way to them: with no branch on a condition.
fn merge_evenly(
    conditions: &mut [i32],
    end: Option<ItemFault>,
    ones: &Found,
    others: &Found,
) -> Stop
    ensures { StopsAt (merged conditions.old end ones.now.values.items ones.now.fault others.now.values.items others.now.fault) conditions.new result }
{
    let one = ones.values.as_slice();
    let other = others.values.as_slice();
    let mut i = 0;
    let mut j = 0;
    for place in 0..conditions.len() {
        let is_other = conditions[place] == 0;
        let side = if is_other { other } else { one };
        let k = if is_other { j } else { i };
        if k == side.len() {
            return Stop {
                count: place,
                fault: if is_other { others.fault } else { ones.fault },
            };
        }
        conditions[place] = side[k];
        j += usize::from(is_other);
        i += usize::from(!is_other);
    }
    Stop {
        count: conditions.len(),
        fault: end,
    }
}

/// The items whose condition is as wanted.
pub(crate) fn picks(
    alloc: Global,
    spare: &mut Spare,
    conditions: &[i32],
    block: Block<'_>,
    wanted: bool,
) -> Result<Vec<usize>, AllocError>
    requires { length conditions.now ≤ length (items_of block) }
    ensures { IfOk result (λ found. found.items ≡ picked (passes wanted) conditions.now (items_of block.entry)) }
{
    let mut found = spare.items(alloc, conditions.len())?;
    let picked = pick(conditions, block, wanted, found.as_mut_slice());
    found.truncate(picked);
    Ok(found)
}

/// The values of both sides in the order of the conditions.
pub(crate) fn chosen(
    spare: &mut Spare,
    mut conditions: Found,
    ones: Found,
    others: Found,
) -> Result<Found, AllocError>
    ensures { IfOk result (λ found. IsFound (merged conditions.values.items conditions.fault ones.values.items ones.fault others.values.items others.fault) found) }
{
    let stop = merge_evenly(
        conditions.values.as_mut_slice(),
        conditions.fault,
        &ones,
        &others,
    );
    conditions.values.truncate(stop.count);
    conditions.fault = stop.fault;
    spare.keep_values(ones.values)?;
    spare.keep_values(others.values)?;
    Ok(conditions)
}
