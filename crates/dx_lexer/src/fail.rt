//! Why there is no token.

use dx_base::{SyntaxError, SyntaxKind};
use std::alloc::{AllocError, AllocFailed};
use thiserror::Error;

/// Why there is no token.
#[derive(Debug, Drop, Error)]
pub enum LexFail {
    /// The bytes there are no token.
    #[error("{}:{}: {:?}", .0.line, .0.column, .0.kind)]
    Refused(SyntaxError),
    #[error("out of memory")]
    Memory,
}

impl From<AllocError> for LexFail {
    ghost use Rattle.std.specs.Prelude.{◌≡◌};
    ghost use Rattle.dx_lexer.specs.declared.fail.LexFail.TheVariants.{Memory};

    ghost from_gives = { λ _ f. f ≡ Memory };

    fn from(_: AllocError) -> LexFail {
        LexFail::Memory
    }
}

/// Why a text begins with no token: what is wrong and how many bytes are before it, or want of memory.
#[derive(Debug, Drop)]
pub enum Fault {
    Wrong(SyntaxKind, usize),
    Memory,
}

impl From<AllocError> for Fault {
    ghost use Rattle.std.specs.Prelude.{◌≡◌};
    ghost use Rattle.dx_lexer.specs.declared.fail.Fault.TheVariants.{Memory};

    ghost from_gives = { λ _ f. f ≡ Memory };

    fn from(_: AllocError) -> Fault {
        Fault::Memory
    }
}

impl<T: Drop> From<AllocFailed<T>> for Fault {
    ghost use Rattle.std.specs.Prelude.{◌≡◌};
    ghost use Rattle.dx_lexer.specs.declared.fail.Fault.TheVariants.{Memory};

    ghost from_gives = { λ _ f. f ≡ Memory };

    fn from(_: AllocFailed<T>) -> Fault {
        Fault::Memory
    }
}
