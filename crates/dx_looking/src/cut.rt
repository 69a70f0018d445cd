//! What cuts an execution short.

use std::alloc::AllocError;
use thiserror::Error;

/// Why an execution can't go on.
#[derive(Clone, Copy, Debug, PartialEq, Eq, Error)]
pub enum Cut {
    #[error("a file can't be read")]
    ReadFault,
    #[error("out of memory")]
    Memory,
}

impl From<AllocError> for Cut {
    ghost use Rattle.std.specs.Prelude.{◌≡◌};
    ghost use Rattle.dx_looking.specs.declared.cut.Cut.TheVariants.{Memory};

    ghost from_gives = { λ _ e. e ≡ Memory };

    fn from(_: AllocError) -> Cut {
        Cut::Memory
    }
}
