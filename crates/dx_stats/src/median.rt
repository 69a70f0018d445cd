//! The median of the numbers that count, which is selected from a copy of them: in linear time on average, without a sort of all.
ghost use Rattle.std.specs.Prelude.{◌≡◌, IfOk};
ghost use Rattle.dx_stats.specs.Bins as spec;

use crate::bins::Bins;
use std::alloc::{AllocError, Global};

/// The number of the middle rank among those that count, the lower of two, and none where none counts.
pub(crate) fn median(alloc: Global, values: &[i64], bins: Bins) -> Result<Option<i64>, AllocError>
    ensures { IfOk result (λ m. m ≡ spec.median bins values.now) }
{
    let mut counted = counted_in(alloc, values, bins)?;
    Ok(middle_of(counted.as_mut_slice()))
}

// The numbers that count.
fn counted_in(alloc: Global, values: &[i64], bins: Bins) -> Result<Vec<i64>, AllocError>
    ensures { IfOk result (λ counted. counted.items ≡ spec.counted bins values.now) }
{
    let mut counted = Vec::with_capacity(alloc, values.len())?;
    for value in values {
        if bins.is_counted(*value) {
            counted.push(*value)?;
        }
    }
    Ok(counted)
}

// The number of the middle rank among some numbers, which are put in another order, and none where there are none.
#[tactic(auto, using(crate::proofs::MedianLaws::middle_of_none))]
fn middle_of(numbers: &mut [i64]) -> Option<i64>
    ensures { result ≡ spec.middle numbers.old }
{
    if numbers.is_empty() {
        return None;
    }
    let rank = (numbers.len() - 1) / 2;
    let (_, middle, _) = numbers.select_nth_unstable(rank);
    Some(*middle)
}
