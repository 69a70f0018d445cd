//! Why a text gives no expression.
use std::alloc::{AllocError, AllocFailed};
use thiserror::Error;

/// Why a text gives no expression.
#[derive(Debug, Drop, Error)]
pub enum ExprFail {
    /// The text is no expression. This is the offset in bytes of the first token that follows those before it in no
    /// expression, or of the end of the text. A text of more than 4,096 bytes is refused at byte 4,096 at the latest.
    #[error("no expression at byte {0}")]
    Refused(u64),
    /// Memory ran out.
    #[error("out of memory")]
    Memory,
}

impl From<AllocError> for ExprFail {
    ghost use Rattle.std.specs.Prelude.{◌≡◌};
    ghost use Rattle.dx_expr_grammar.specs.declared.fail.ExprFail.TheVariants.{Memory};

    ghost from_gives = { λ _ e. e ≡ Memory };

    fn from(_e: AllocError) -> ExprFail {
        ExprFail::Memory
    }
}

impl<T: Drop> From<AllocFailed<T>> for ExprFail {
    ghost use Rattle.std.specs.Prelude.{◌≡◌};
    ghost use Rattle.dx_expr_grammar.specs.declared.fail.ExprFail.TheVariants.{Memory};

    ghost from_gives = { λ _ e. e ≡ Memory };

    fn from(_e: AllocFailed<T>) -> ExprFail {
        ExprFail::Memory
    }
}
