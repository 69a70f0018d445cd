//! The one loop over a block's values.

ghost use Rattle.std.specs.Prelude.{◌≡◌, ◌<◌, ◌≤◌, ℕ, ℤ, length};
ghost use Rattle.dx_expr.specs.Value.{Outcome};
ghost use Rattle.dx_expr_blocks.specs.Block.{up_to, steps};
ghost use Rattle.dx_expr_blocks.specs.Found.{IsFound, StopsAt};

use crate::Found;
use crate::found::Stop;
use dx_expr::ItemFault;

/// What is done at each place of a block.
pub(crate) trait Step {
    /// It can be done at a place.
    ghost can_step: { Self → ℕ → Type 0 };

    /// What it makes of the value that stands at a place.
    ghost gives: { Self → ℕ → ℤ → Outcome ℤ };

    fn step(&self, place: usize, value: i32) -> Result<i32, ItemFault>
        requires { can_step self.now place }
        ensures { result ≡ gives self.now place value };
}

/// The step at each place, in order, up to the first fault.
pub(crate) fn fill<S: Step>(s: &S, values: &mut [i32]) -> Stop
    requires { (place : ℕ) → place < length values.old → S.can_step s.now place }
    ensures { StopsAt (up_to (steps (S.gives s.now) 0 values.old)) values.new result }
{
    for place in 0..values.len() {
        match s.step(place, values[place]) {
            Ok(v) => values[place] = v,
            Err(fault) => {
                return Stop {
                    count: place,
                    fault: Some(fault),
                };
            }
        }
    }
    Stop {
        count: values.len(),
        fault: None,
    }
}

/// The step at each place of a buffer, in order, up to the first fault.
pub(crate) fn filled<S: Step>(s: &S, mut values: Vec<i32>) -> Found
    requires { (place : ℕ) → place < length values.items → S.can_step s.now place }
    ensures { IsFound (up_to (steps (S.gives s.now) 0 values.items)) result }
{
    let stop = fill(s, values.as_mut_slice());
    values.truncate(stop.count);
    Found {
        values,
        fault: stop.fault,
    }
}
