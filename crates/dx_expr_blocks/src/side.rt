//! What stands on the right of an operator: a value beside each of the left side's, or the same one beside all of them.

ghost use Rattle.std.specs.Prelude.{◌≡◌, ◌≤◌, ℕ, ℤ, unsigned_abs};

use crate::sure::reach;

/// The values on the right of an operator.
pub(crate) trait Side {
    /// One stands at a place.
    ghost stands: { Self → ℕ → Type 0 };

    /// The one at a place.
    ghost value: { Self → ℕ → ℤ };

    fn at(&self, place: usize) -> i32
        requires { stands self.now place }
        ensures { result ≡ value self.now place };

    /// How far from 0 they are at most.
    fn reach(&self) -> u32
        ensures { (k : ℕ) → stands self.now k → unsigned_abs (value self.now k) ≤ result };
}

/// One for each place.
#[derive(Drop)]
pub(crate) struct Beside<'a> {
    pub(crate) values: &'a [i32],
}

impl Side for Beside<'_> {
    ghost use Rattle.std.specs.Prelude.{◌<◌, length, pos, slice_index_or};

    ghost stands = { λ s place. place < length s.values.now };

    ghost value = { λ s place. slice_index_or s.values.now place (pos 0) };

    fn at(&self, place: usize) -> i32 {
        self.values[place]
    }

    fn reach(&self) -> u32 {
        reach(self.values)
    }
}

/// The same at every place.
#[derive(Drop)]
pub(crate) struct Same {
    pub(crate) value: i32,
}

impl Side for Same {
    ghost stands = { λ _ _. Unit {0} };

    ghost value = { λ s _. s.value };

    fn at(&self, _place: usize) -> i32 {
        self.value
    }

    fn reach(&self) -> u32 {
        self.value.unsigned_abs()
    }
}
