//! Why a run gives nothing.
use dx_base::Code;
use std::alloc::AllocError;
use thiserror::Error;

/// Why a module or an effect gives nothing.
#[derive(Clone, Copy, Debug, PartialEq, Eq, Error)]
pub enum RunFail {
    /// It refuses its inputs.
    #[error("refused: {:?}", .0)]
    Code(Code),
    #[error("out of memory")]
    Memory,
}

impl From<AllocError> for RunFail {
    ghost use Rattle.std.specs.Prelude.{◌≡◌};
    ghost use Rattle.dx_objects.specs.declared.run_fail.RunFail.TheVariants.{Memory};

    ghost from_gives = { λ _ e. e ≡ Memory };

    fn from(_: AllocError) -> RunFail {
        RunFail::Memory
    }
}
