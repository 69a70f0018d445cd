//! Why a call of a device fails.

use std::alloc::{AllocError, AllocFailed};
use thiserror::Error;

/// Why a read gave no answer.
#[derive(Clone, Copy, Debug, Error, PartialEq, Eq)]
pub enum FileFail {
    #[error("a file can't be read")]
    Fault,
    #[error("out of memory")]
    Memory,
}

/// Why a write took nothing.
#[derive(Clone, Copy, Debug, Error, PartialEq, Eq)]
pub enum SinkFail {
    #[error("the output can't be written")]
    Fault,
    #[error("out of memory")]
    Memory,
}

/// Why a put didn't complete.
#[derive(Clone, Copy, Debug, Error, PartialEq, Eq)]
pub enum ExportFail {
    #[error("a file can't be written")]
    Fault,
    #[error("out of memory")]
    Memory,
}

impl From<AllocError> for FileFail {
    ghost use Rattle.std.specs.Prelude.{◌≡◌};
    ghost use Rattle.dx_io.specs.declared.fails.FileFail.TheVariants.{Memory};

    ghost from_gives = { λ _ e. e ≡ Memory };

    fn from(_: AllocError) -> Self {
        FileFail::Memory
    }
}

impl<T: Drop> From<AllocFailed<T>> for FileFail {
    ghost use Rattle.std.specs.Prelude.{◌≡◌};
    ghost use Rattle.dx_io.specs.declared.fails.FileFail.TheVariants.{Memory};

    ghost from_gives = { λ _ e. e ≡ Memory };

    fn from(_: AllocFailed<T>) -> Self {
        FileFail::Memory
    }
}

impl From<AllocError> for SinkFail {
    ghost use Rattle.std.specs.Prelude.{◌≡◌};
    ghost use Rattle.dx_io.specs.declared.fails.SinkFail.TheVariants.{Memory};

    ghost from_gives = { λ _ e. e ≡ Memory };

    fn from(_: AllocError) -> Self {
        SinkFail::Memory
    }
}

impl From<AllocError> for ExportFail {
    ghost use Rattle.std.specs.Prelude.{◌≡◌};
    ghost use Rattle.dx_io.specs.declared.fails.ExportFail.TheVariants.{Memory};

    ghost from_gives = { λ _ e. e ≡ Memory };

    fn from(_: AllocError) -> Self {
        ExportFail::Memory
    }
}

impl<T: Drop> From<AllocFailed<T>> for ExportFail {
    ghost use Rattle.std.specs.Prelude.{◌≡◌};
    ghost use Rattle.dx_io.specs.declared.fails.ExportFail.TheVariants.{Memory};

    ghost from_gives = { λ _ e. e ≡ Memory };

    fn from(_: AllocFailed<T>) -> Self {
        ExportFail::Memory
    }
}
