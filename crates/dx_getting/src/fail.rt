//! Why a getting fails.

use dx_base::Code;
use dx_tags::Tag;
use std::alloc::AllocError;
use thiserror::Error;

/// Why a value isn't got.
#[derive(Clone, Copy, Debug, PartialEq, Eq, Error)]
pub enum GetFail {
    /// A module refuses its inputs. The tag is that of the call's term.
    #[error("refused: {:?}", .1)]
    Refused(Tag, Code),
    #[error("a file can't be read")]
    ReadFault,
    #[error("out of memory")]
    Memory,
}

impl From<AllocError> for GetFail {
    ghost use Rattle.std.specs.Prelude.{◌≡◌};
    ghost use Rattle.dx_getting.specs.declared.fail.GetFail.TheVariants.{Memory};

    ghost from_gives = { λ _ e. e ≡ Memory };

    fn from(_: AllocError) -> GetFail {
        GetFail::Memory
    }
}
