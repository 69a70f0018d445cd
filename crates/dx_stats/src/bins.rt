//! Bins of equal width over the whole numbers from one to another.
ghost use Rattle.std.specs.Prelude.{◌≡◌, ◌+◌, ◌*◌, ◌<◌, ◌≤◌, ◌≤ℤ◌, pos, length, replicate, All, vec_len, IsTrue, IfOk};
ghost use Rattle.dx_stats.specs.Bins as spec;
ghost use Rattle.dx_stats.specs.Bins.{AreBins, IsSlope};
ghost use Rattle.dx_stats.specs.Tally.{tallied};

use std::alloc::{AllocError, Global};

/// 2^66, above the square of each span.
const SCALE: u128 = 73786976294838206464;

/// So many bins over the whole numbers from the least to the greatest.
#[derive(Clone, Copy)]
pub(crate) struct Bins {
    pub(crate) count: u64,
    pub(crate) low: i64,
    pub(crate) high: i64,
}

impl Bins {
    /// Whether a number counts.
    pub(crate) fn is_counted(self, value: i64) -> bool
        ensures { result ≡ spec.is_counted self value }
    {
        self.low <= value && value <= self.high
    }

    // How many whole numbers there are from the least to the greatest.
    pub(crate) fn span(self) -> u64
        requires { AreBins self }
        ensures value { result ≡ spec.span self }
        ensures some { 0 < result }
        ensures few { result ≤ 8589934592 }
    {
        self.high.abs_diff(self.low) + 1
    }

    // By how much a distance from the least number is multiplied to give its bin, in parts of SCALE.
    fn slope(self) -> u128
        requires { AreBins self }
        ensures { IsSlope self result }
    {
        u128::from(self.count) * SCALE / u128::from(self.span()) + 1
    }

    // The bin of a number that counts.
    #[inline]
    fn bin_of(self, slope: u128, value: i64) -> u64
        requires bins { AreBins self }
        requires slope { IsSlope self slope }
        requires counted { IsTrue (spec.is_counted self value) }
        ensures bin { result ≡ spec.bin_of self value }
        ensures within { result < self.count }
    {
        (u128::from(value.abs_diff(self.low)) * slope / SCALE) as u64
    }

    // Where a bin begins: the least whole number, of those from `low` on, that falls into no bin before it. Behind the last
    // bin it is the number that follows `high`.
    fn border(self, k: u64) -> i64
        requires bins { AreBins self }
        requires within { k ≤ self.count }
        ensures { result ≡ spec.border self k }
    {
        self.low + product(self.span(), k).div_ceil(self.count) as i64
    }

    /// The borders of the bins, of which there is one more than bins.
    #[tactic(auto, using(crate::proofs::BinsLaws::range_next))]
    pub(crate) fn borders(self, alloc: Global) -> Result<Vec<i64>, AllocError>
        requires { AreBins self }
        ensures { IfOk result (λ borders. borders.items ≡ spec.borders self) }
    {
        let mut borders = Vec::with_capacity(alloc, self.count as usize + 1)?;
        for k in 0..self.count + 1 {
            borders.push(self.border(k))?;
        }
        Ok(borders)
    }

    /// How many of some numbers fall into each bin, in one pass without a division.
    pub(crate) fn counts(self, alloc: Global, values: &[i64]) -> Result<Vec<i64>, AllocError>
        requires bins { AreBins self }
        requires few { length values.now ≤ 16777216 }
        ensures { IfOk result (λ counts. counts.items ≡ spec.bin_counts self values.now) }
    {
        let slope = self.slope();
        let mut counts = zeros(alloc, self.count)?;
        for value in values {
            self.tally(slope, &mut counts, *value);
        }
        Ok(counts)
    }

    // Counts a number in its bin.
    #[inline]
    fn tally(self, slope: u128, counts: &mut Vec<i64>, value: i64)
        requires bins { AreBins self }
        requires slope { IsSlope self slope }
        requires len { vec_len counts.old ≡ self.count }
        requires some { All (λ n. pos 0 ≤ℤ n) counts.old.items }
        requires few { All (λ n. n ≤ℤ pos 16777216) counts.old.items }
        ensures { counts.new.items ≡ tallied self value counts.old.items }
    {
        if self.is_counted(value) {
            let bin = self.bin_of(slope, value) as usize;
            counts[bin] += 1;
        }
    }
}

// So many counts of none.
fn zeros(alloc: Global, count: u64) -> Result<Vec<i64>, AllocError>
    requires { count ≤ 65536 }
    ensures { IfOk result (λ zeros. zeros.items ≡ replicate count (pos 0)) }
{
    let mut zeros = Vec::with_capacity(alloc, count as usize)?;
    for _k in 0..count {
        zeros.push(0)?;
    }
    Ok(zeros)
}

// The product of a distance and a number of bins.
#[tactic(auto, using(crate::proofs::BinsLaws::product_few))]
fn product(distance: u64, bins: u64) -> u64
    requires distance { distance ≤ 8589934592 }
    requires bins { bins ≤ 65536 }
    ensures value { result ≡ distance * bins }
    ensures few { result ≤ 562949953421312 }
{
    distance * bins
}
