//! How an execution ends that doesn't go well.

use crate::short::Short;
use dx_base::{Bytes, Code};
use dx_io::ExportFail;
use std::alloc::{AllocError, AllocFailed};
use thiserror::Error;

/// Why an execution doesn't end well.
#[derive(Debug, PartialEq, Eq, Drop, Error)]
pub enum ExecError {
    /// The call of this site refuses its inputs.
    #[error("{:?}", .1)]
    Module(Bytes, Code),
    #[error("a file can't be read")]
    ReadFault,
    #[error("the output can't be written")]
    WriteFault,
    #[error("a file can't be put")]
    ExportFault,
    #[error("out of memory")]
    Memory,
}

impl From<AllocError> for ExecError {
    ghost use Rattle.std.specs.Prelude.{◌≡◌};
    ghost use Rattle.dx_engine.specs.declared.exec_error.ExecError.TheVariants.{Memory};

    ghost from_gives = { λ _ e. e ≡ Memory };

    fn from(_: AllocError) -> ExecError {
        ExecError::Memory
    }
}

impl<T: Drop> From<AllocFailed<T>> for ExecError {
    ghost use Rattle.std.specs.Prelude.{◌≡◌};
    ghost use Rattle.dx_engine.specs.declared.exec_error.ExecError.TheVariants.{Memory};

    ghost from_gives = { λ _ e. e ≡ Memory };

    fn from(_: AllocFailed<T>) -> ExecError {
        ExecError::Memory
    }
}

impl From<Short> for ExecError {
    ghost use Rattle.std.specs.Prelude.{◌≡◌};
    ghost use Rattle.dx_engine.specs.Ending.{short_error};

    ghost from_gives = { λ short e. e ≡ short_error short };

    fn from(short: Short) -> ExecError {
        match short {
            Short::ReadFault => ExecError::ReadFault,
            Short::WriteFault => ExecError::WriteFault,
            Short::Memory => ExecError::Memory,
        }
    }
}

impl From<ExportFail> for ExecError {
    ghost use Rattle.std.specs.Prelude.{◌≡◌};
    ghost use Rattle.dx_engine.specs.Ending.{export_error};

    ghost from_gives = { λ fail e. e ≡ export_error fail };

    fn from(fail: ExportFail) -> ExecError {
        match fail {
            ExportFail::Fault => ExecError::ExportFault,
            ExportFail::Memory => ExecError::Memory,
        }
    }
}
