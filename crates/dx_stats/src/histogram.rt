//! Histogram.
ghost use Rattle.std.specs.Prelude.{◌≡◌, ◌<◌, ◌≤◌, ◌∷◌, [], length, All, Some, IfOk, IfSome, Ok, Err, MatchResult};
ghost use Rattle.dx_base.specs.Array.{items};
ghost use Rattle.dx_base.specs.Modules.{Takes};
ghost use Rattle.dx_base.specs.ObjectNumbers.{as_number};
ghost use Rattle.dx_base.specs.declared.function.Module.TheVariants.{Histogram};
ghost use Rattle.dx_arrays.specs.Block.{IsSmall};
ghost use Rattle.dx_objects.specs.Runs.{Gives};
ghost use Rattle.dx_objects.specs.Values.{value_at, value_of};
ghost use Rattle.dx_stats.specs.Bins.{AreBins};
ghost use Rattle.dx_stats.specs.Numbers.{numbers};
ghost use Rattle.dx_stats.specs.Statistics as statistics;
ghost use Rattle.dx_stats.specs.Histogram as spec;
ghost use Rattle.dx_stats.specs.Histogram.{histogram_answer};

use crate::bins::Bins;
use crate::field::histogram_field;
use crate::median::median;
use crate::numbers::numbers_in;
use crate::results::shared;
use dx_arrays::Values;
use dx_base::Code;
use dx_objects::{Array, Object, Outs, RunFail, Value, number};
use std::alloc::{AllocError, Global};

/// How many bins there are where none are asked for.
const USUAL_BINS: u64 = 100;

/// How many bins there are at most.
const MOST_BINS: i64 = 65536;

/// What Histogram answers (User's Reference, Histogram): a field, of which each cell is a bin and has the count of the numbers
/// that fall into it, and the median of the numbers that count. The inputs are an array or a field's `data`; `bins`, 100
/// where it is NULL; `min` and `max`, the least and the greatest number where they are NULL; and `out`, which has to be NULL.
/// The numbers from `min` to `max` count.
///
/// BadArgument and NoComponent of the data as for Statistics; then BadArgument where `bins` is no number from 1 to 65,536, or
/// `min` or `max` no number; then Unsupported where `out` isn't NULL; then BadArgument where `min` is above `max`; then
/// Overflow where a border of a bin is no int.
pub fn run_histogram(alloc: Global, inputs: &Outs) -> Result<Outs, RunFail>
    requires { Takes Histogram (length inputs.now) }
    ensures { Gives (histogram_answer inputs.now) result }
{
    match numbers_in(inputs) {
        Err(code) => Err(RunFail::Code(code)),
        Ok(array) => histogram_over(alloc, array, inputs),
    }
}

fn histogram_over(alloc: Global, array: &Array, inputs: &Outs) -> Result<Outs, RunFail>
    requires single { array.now.extents ≡ [] }
    requires some { 0 < items array.now }
    ensures { Gives (spec.by_bins (numbers array.now) (spec.bins_asked (numbers array.now) inputs.now)) result }
{
    let items = array.items();
    match array.plain_values() {
        Some(Values::Wide(values)) => histogram_of(alloc, values, inputs),
        _ => {
            let mut values = Vec::new(alloc);
            array.push_items(0, items, &mut values)?;
            histogram_of(alloc, values.as_slice(), inputs)
        }
    }
}

// The answer over these numbers.
fn histogram_of(alloc: Global, values: &[i64], inputs: &Outs) -> Result<Outs, RunFail>
    requires some { 0 < length values.now }
    requires few { length values.now ≤ 16777216 }
    requires small { All IsSmall values.now }
    ensures { Gives (spec.by_bins values.now (spec.bins_asked values.now inputs.now)) result }
{
    let bins = match bins_asked(inputs, values) {
        Err(code) => return Err(RunFail::Code(code)),
        Ok(bins) => bins,
    };
    let field = histogram_field(alloc, values, bins)?;
    let median = median(alloc, values, bins)?;
    Ok(results_of(alloc, field, median)?)
}

fn results_of(alloc: Global, field: Object, median: Option<i64>) -> Result<Outs, AllocError>
    ensures { IfOk result (λ outs. outs ≡ Some field ∷ spec.median_value median ∷ []) }
{
    let mut results = Outs::new(alloc);
    results.push(Some(shared(alloc, field)?))?;
    results.push(median_value(alloc, median)?)?;
    Ok(results)
}

fn median_value(alloc: Global, median: Option<i64>) -> Result<Value, AllocError>
    ensures { IfOk result (λ v. value_of v ≡ spec.median_value median) }
{
    match median {
        None => Ok(None),
        Some(n) => number(alloc, n),
    }
}

#[tactic(auto, using(crate::proofs::Held::least_is, crate::proofs::Held::least_small))]
fn least_of(values: &[i64]) -> i64
    requires some { 0 < length values.now }
    requires small { All IsSmall values.now }
    ensures value { result ≡ statistics.least values.now }
    ensures small { IsSmall result }
{
    let mut least = i64::MAX;
    for value in values {
        least = least.min(*value);
    }
    least
}

#[tactic(auto, using(crate::proofs::Held::greatest_is, crate::proofs::Held::greatest_small))]
fn greatest_of(values: &[i64]) -> i64
    requires some { 0 < length values.now }
    requires small { All IsSmall values.now }
    ensures value { result ≡ statistics.greatest values.now }
    ensures small { IsSmall result }
{
    let mut greatest = i64::MIN;
    for value in values {
        greatest = greatest.max(*value);
    }
    greatest
}

// The bins that the inputs ask for, over these numbers.
fn bins_asked(inputs: &Outs, values: &[i64]) -> Result<Bins, Code>
    requires some { 0 < length values.now }
    requires small { All IsSmall values.now }
    ensures bins { MatchResult result (λ b. spec.bins_asked values.now inputs.now ≡ Ok b) (λ code. spec.bins_asked values.now inputs.now ≡ Err code) }
    ensures lawful { IfOk result (λ b. AreBins b) }
{
    let Some(count) = count_asked(inputs) else {
        return Err(Code::BadArgument);
    };
    let Some(low) = low_asked(inputs, values) else {
        return Err(Code::BadArgument);
    };
    let Some(high) = high_asked(inputs, values) else {
        return Err(Code::BadArgument);
    };
    if inputs.value(4).is_some() {
        return Err(Code::Unsupported);
    }
    if low <= high {
        Ok(Bins { count, low, high })
    } else {
        Err(Code::BadArgument)
    }
}

fn count_asked(inputs: &Outs) -> Option<u64>
    ensures count { result ≡ spec.count_asked (value_at inputs.now 1) }
    ensures some { IfSome result (λ n. 0 < n) }
    ensures few { IfSome result (λ n. n ≤ 65536) }
{
    match inputs.value(1) {
        None => Some(USUAL_BINS),
        Some(object) => as_count(object.as_number()),
    }
}

fn as_count(n: Option<i64>) -> Option<u64>
    ensures count { result ≡ spec.as_count n }
    ensures some { IfSome result (λ n. 0 < n) }
    ensures few { IfSome result (λ n. n ≤ 65536) }
{
    let n = n?;
    if 1 <= n && n <= MOST_BINS {
        Some(n.unsigned_abs())
    } else {
        None
    }
}

// Where the range begins: at a number, or where NULL stands at the least of the numbers themselves, which is looked for only then.
fn low_asked(inputs: &Outs, values: &[i64]) -> Option<i64>
    requires some { 0 < length values.now }
    requires small { All IsSmall values.now }
    ensures end { result ≡ spec.end_asked (statistics.least values.now) (value_at inputs.now 2) }
    ensures small { IfSome result (λ n. IsSmall n) }
{
    match inputs.value(2) {
        None => Some(least_of(values)),
        Some(object) => number_in(object),
    }
}

// Where the range ends: at a number, or where NULL stands at the greatest of them.
fn high_asked(inputs: &Outs, values: &[i64]) -> Option<i64>
    requires some { 0 < length values.now }
    requires small { All IsSmall values.now }
    ensures end { result ≡ spec.end_asked (statistics.greatest values.now) (value_at inputs.now 3) }
    ensures small { IfSome result (λ n. IsSmall n) }
{
    match inputs.value(3) {
        None => Some(greatest_of(values)),
        Some(object) => number_in(object),
    }
}

#[tactic(auto, using(crate::proofs::NumberLaws::number_small))]
fn number_in(object: &Object) -> Option<i64>
    ensures number { result ≡ as_number object.now }
    ensures small { IfSome result (λ n. IsSmall n) }
{
    // Asked so that the proof knows that a type of values holds the number.
    let _size = object.size();
    object.as_number()
}
