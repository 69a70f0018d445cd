//! The stated size of results.
ghost use Rattle.std.specs.Prelude.{◌≡◌, ◌≤◌, length};
ghost use Rattle.dx_base.specs.Object.{value_size as spec_value_size, results_size};
ghost use Rattle.dx_base.specs.ObjectLimits.{max_size};
ghost use Rattle.dx_objects.specs.Values.{value_of};

use dx_objects::{Outs, Value};

fn value_size(value: &Value) -> u64
    ensures size { result ≡ spec_value_size (value_of value.now) }
    ensures bounded { result ≤ max_size }
{
    match value {
        None => 64,
        Some(object) => object.size(),
    }
}

/// The sum over the results of a module, NULL counting 64.
pub(crate) fn size_of(outs: &Outs) -> u64
    requires few { length outs.now ≤ 64 }
    ensures { result ≡ results_size outs.now }
{
    let mut size: u64 = 0;
    for value in outs.as_slice() {
        size += value_size(value);
    }
    size
}
