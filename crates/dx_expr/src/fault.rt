//! What keeps an item of an expression, or all items, from having values.
use std::alloc::{AllocError, AllocFailed};
use thiserror::Error;

/// Why an item of an expression has no value.
#[derive(Clone, Copy, Debug, PartialEq, Eq, Drop, Error)]
pub enum ItemFault {
    /// A value outside the int range: that of an operator, or one of an input.
    #[error("a value outside the int range")]
    Overflow,
    /// A divisor that is zero.
    #[error("division by zero")]
    DivisionByZero,
}

/// Why no values are given.
#[derive(Debug, Drop, Error)]
pub enum EvalFail {
    /// The item has no value.
    #[error(transparent)]
    Fault(ItemFault),
    /// Memory ran out.
    #[error("out of memory")]
    Memory,
}

impl From<ItemFault> for EvalFail {
    ghost use Rattle.std.specs.Prelude.{◌≡◌};
    ghost use Rattle.dx_expr.specs.declared.fault.EvalFail.TheVariants.{Fault};

    ghost from_gives = { λ fault e. e ≡ Fault fault };

    fn from(fault: ItemFault) -> EvalFail {
        EvalFail::Fault(fault)
    }
}

impl From<AllocError> for EvalFail {
    ghost use Rattle.std.specs.Prelude.{◌≡◌};
    ghost use Rattle.dx_expr.specs.declared.fault.EvalFail.TheVariants.{Memory};

    ghost from_gives = { λ _ e. e ≡ Memory };

    fn from(_e: AllocError) -> EvalFail {
        EvalFail::Memory
    }
}

impl<T: Drop> From<AllocFailed<T>> for EvalFail {
    ghost use Rattle.std.specs.Prelude.{◌≡◌};
    ghost use Rattle.dx_expr.specs.declared.fault.EvalFail.TheVariants.{Memory};

    ghost from_gives = { λ _ e. e ≡ Memory };

    fn from(_e: AllocFailed<T>) -> EvalFail {
        EvalFail::Memory
    }
}
