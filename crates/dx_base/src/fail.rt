//! Why a call gives no answer.

use std::alloc::{AllocError, AllocFailed};

/// Why a call gives no answer: it refuses what it was given, or memory ran out.
#[derive(Clone, Copy, Debug, PartialEq, Eq, Hash, Drop)]
pub enum Fail<R> {
    Refused(R),
    Memory,
}

impl<R> From<AllocError> for Fail<R> {
    ghost use Rattle.std.specs.Prelude.{◌≡◌};
    ghost use Rattle.dx_base.specs.declared.fail.Fail.TheVariants.{Memory};

    ghost from_gives = { λ _ e. e ≡ Memory };

    fn from(_: AllocError) -> Self {
        Fail::Memory
    }
}

impl<R, T: Drop> From<AllocFailed<T>> for Fail<R> {
    ghost use Rattle.std.specs.Prelude.{◌≡◌};
    ghost use Rattle.dx_base.specs.declared.fail.Fail.TheVariants.{Memory};

    ghost from_gives = { λ _ e. e ≡ Memory };

    fn from(_: AllocFailed<T>) -> Self {
        Fail::Memory
    }
}
