//! Why no object is built.

use std::alloc::{AllocError, AllocFailed};

/// Why no object is built.
#[derive(Debug, Drop)]
pub enum BuildFail {
    /// It has more levels than are left, as at each cycle.
    Deep,
    /// It is beyond another limit, or no object.
    Broken,
    /// Memory ran out.
    Memory,
}

impl From<AllocError> for BuildFail {
    ghost use Rattle.std.specs.Prelude.{◌≡◌};
    ghost use Rattle.dx_native_walk.specs.declared.fail.BuildFail.TheVariants.{Memory};

    ghost from_gives = { λ _ e. e ≡ Memory };

    fn from(_e: AllocError) -> BuildFail {
        BuildFail::Memory
    }
}

impl<T: Drop> From<AllocFailed<T>> for BuildFail {
    ghost use Rattle.std.specs.Prelude.{◌≡◌};
    ghost use Rattle.dx_native_walk.specs.declared.fail.BuildFail.TheVariants.{Memory};

    ghost from_gives = { λ _ e. e ≡ Memory };

    fn from(_e: AllocFailed<T>) -> BuildFail {
        BuildFail::Memory
    }
}
