//! Steps with signed numbers, each with its result as a whole number. Sums are made in 128 bits.
ghost use Rattle.std.specs.Prelude.{◌≡◌, pos, ◌+ℤ◌, ◌*ℤ◌, FitsSigned};
ghost use Rattle.std.specs.Int.{w64};
ghost use Rattle.dx_base.specs.Elem.{in_range as spec_in_range};

use dx_base::ElemType;

pub(crate) fn widened(value: i64) -> i128
    ensures { result ≡ value }
{
    value as i128
}

pub(crate) fn narrowed(value: i128) -> i64
    requires { FitsSigned w64 value }
    ensures { result ≡ value }
{
    value as i64
}

pub(crate) fn scaled(index: u64, delta: i64) -> i128
    ensures { result ≡ pos index *ℤ delta }
{
    index as i128 * delta as i128
}

/// The value of item number `index` on the line of items that begins at `origin`.
pub(crate) fn along(origin: i64, index: u64, delta: i64) -> i128
    ensures { result ≡ origin +ℤ pos index *ℤ delta }
{
    widened(origin) + scaled(index, delta)
}

/// Whether a number that may be wide is one of the type.
pub(crate) fn is_wide_in_range(t: ElemType, v: i128) -> bool
    ensures { result ≡ spec_in_range t v }
{
    widened(t.lowest()) <= v && v <= widened(t.highest())
}
