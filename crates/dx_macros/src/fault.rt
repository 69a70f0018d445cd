//! What can be wrong with a statement before its execution.
use dx_base::Bytes;
use dx_signatures::StaticFault;
use std::alloc::AllocError;
use thiserror::Error;

/// Why a statement isn't found to be without a static fault.
#[derive(Debug, Drop, Error)]
pub enum CheckFail {
    /// The first static fault, and the text of the site of the call that has it: the steps that lead to the call, and its
    /// own, joined by `/`.
    #[error("static fault {:?}", .1)]
    Fault(Bytes, StaticFault),
    #[error("out of memory")]
    Memory,
}

impl From<AllocError> for CheckFail {
    ghost use Rattle.std.specs.Prelude.{◌≡◌};
    ghost use Rattle.dx_macros.specs.declared.fault.CheckFail.TheVariants.{Memory};

    ghost from_gives = { λ _ f. f ≡ Memory };

    fn from(_: AllocError) -> CheckFail {
        CheckFail::Memory
    }
}
