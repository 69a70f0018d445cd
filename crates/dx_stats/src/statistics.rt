//! Statistics.
ghost use Rattle.std.specs.Prelude.{◌≡◌, ◌≤◌, ◌<◌, ◌^◌, [], pos, ◌*ℤ◌, ◌-ℤ◌, length, IfOk};
ghost use Rattle.dx_base.specs.Array.{items};
ghost use Rattle.dx_base.specs.Modules.{Takes};
ghost use Rattle.dx_base.specs.declared.function.Module.TheVariants.{Statistics};
ghost use Rattle.dx_objects.specs.Runs.{Gives};
ghost use Rattle.dx_stats.specs.Numbers.{numbers};
ghost use Rattle.dx_stats.specs.Statistics as spec;
ghost use Rattle.dx_stats.specs.Statistics.{statistics_answer};
ghost use Rattle.dx_stats.specs.Sums.{AreHeld, IsUpTo, by_sums};

use crate::numbers::numbers_in;
use crate::results::{push_number, wide};
use crate::sums::{Sums, square, sums_of};
use dx_objects::{Array, Outs, RunFail};
use std::alloc::{AllocError, Global};

/// What Statistics answers of its one input, an array or a field's `data` (User's Reference, Statistics): the mean, the
/// standard deviation, the variance, the least and the greatest of the numbers. Mean and variance are rounded down, and the
/// standard deviation is the greatest whole number whose square is at most the variance so rounded. Each is NULL where it
/// is no int.
///
/// BadArgument where the input is neither an array nor a field; then NoComponent where the field has no `data`; then
/// BadArgument where the array has another rank than 0, or no item.
pub fn run_statistics(alloc: Global, inputs: &Outs) -> Result<Outs, RunFail>
    requires { Takes Statistics (length inputs.now) }
    ensures { Gives (statistics_answer inputs.now) result }
{
    match numbers_in(inputs) {
        Err(code) => Err(RunFail::Code(code)),
        Ok(array) => Ok(statistics_of(alloc, array)?),
    }
}

fn statistics_of(alloc: Global, array: &Array) -> Result<Outs, AllocError>
    requires single { array.now.extents ≡ [] }
    requires some { 0 < items array.now }
    ensures { IfOk result (λ outs. outs ≡ spec.statistics_of (numbers array.now)) }
{
    let sums = sums_of(alloc, array)?;
    results_of(alloc, sums)
}

// The five results.
fn results_of(alloc: Global, sums: Sums) -> Result<Outs, AllocError>
    requires some { 0 < sums.count }
    requires held { AreHeld sums }
    ensures { IfOk result (λ outs. outs ≡ by_sums sums) }
{
    let variance = variance_of(sums);
    let mut results = Outs::new(alloc);
    push_number(alloc, &mut results, floor(wide(sums.total), sums.count))?;
    push_number(alloc, &mut results, root(variance))?;
    push_number(alloc, &mut results, variance)?;
    push_number(alloc, &mut results, wide(sums.least))?;
    push_number(alloc, &mut results, wide(sums.greatest))?;
    Ok(results)
}

fn variance_of(sums: Sums) -> i128
    requires some { 0 < sums.count }
    requires held { AreHeld sums }
    ensures { result ≡ spec.variance_by sums.count sums.total sums.squares }
{
    floor(spread_of(sums), sums.count * sums.count)
}

// So many times the sum of the squares, without the square of the sum.
fn spread_of(sums: Sums) -> i128
    requires { AreHeld sums }
    ensures { result ≡ pos sums.count *ℤ sums.squares -ℤ sums.total *ℤ sums.total }
{
    scaled(sums.count, sums.squares) - square(sums.total)
}

// So many times the sum of the squares of so many numbers.
fn scaled(count: u64, squares: i128) -> i128
    requires few { count ≤ 16777216 }
    requires held { IsUpTo (2 ^ 88) squares }
    ensures value { result ≡ pos count *ℤ squares }
    ensures held { IsUpTo (2 ^ 112) result }
{
    count as i128 * squares
}

// The greatest whole number that is at most z divided by n.
fn floor(z: i128, n: u64) -> i128
    requires { 0 < n }
    ensures { result ≡ spec.floor z n }
{
    z.div_euclid(n as i128)
}

// The greatest whole number whose square is at most this one.
fn root(n: i128) -> i128
    ensures { result ≡ spec.root_of n }
{
    n.unsigned_abs().isqrt() as i128
}
