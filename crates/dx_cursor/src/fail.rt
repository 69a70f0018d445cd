//! Why a text gives no statements.
use dx_base::SyntaxError;
use std::alloc::AllocError;
use thiserror::Error;

/// Why there are no statements.
#[derive(Debug, Drop, Error)]
pub enum ParseFail {
    /// The text is no script: its first error.
    #[error("{}:{}: {:?}", .0.line, .0.column, .0.kind)]
    Refused(SyntaxError),
    #[error("out of memory")]
    Memory,
}

impl From<AllocError> for ParseFail {
    ghost use Rattle.std.specs.Prelude.{◌≡◌};
    ghost use Rattle.dx_cursor.specs.declared.fail.ParseFail.TheVariants.{Memory};

    ghost from_gives = { λ _ f. f ≡ Memory };

    fn from(_: AllocError) -> ParseFail {
        ParseFail::Memory
    }
}
