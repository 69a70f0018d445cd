//! What cuts the effects of an execution short.

use dx_io::SinkFail;
use dx_looking::Cut;
use std::alloc::{AllocError, AllocFailed};
use thiserror::Error;

/// Why an execution can't go on.
#[derive(Clone, Copy, Debug, PartialEq, Eq, Error)]
pub enum Short {
    #[error("a file can't be read")]
    ReadFault,
    #[error("the output can't be written")]
    WriteFault,
    #[error("out of memory")]
    Memory,
}

impl From<AllocError> for Short {
    ghost use Rattle.std.specs.Prelude.{◌≡◌};
    ghost use Rattle.dx_engine.specs.declared.short.Short.TheVariants.{Memory};

    ghost from_gives = { λ _ e. e ≡ Memory };

    fn from(_: AllocError) -> Short {
        Short::Memory
    }
}

impl<T: Drop> From<AllocFailed<T>> for Short {
    ghost use Rattle.std.specs.Prelude.{◌≡◌};
    ghost use Rattle.dx_engine.specs.declared.short.Short.TheVariants.{Memory};

    ghost from_gives = { λ _ e. e ≡ Memory };

    fn from(_: AllocFailed<T>) -> Short {
        Short::Memory
    }
}

impl From<Cut> for Short {
    ghost use Rattle.std.specs.Prelude.{◌≡◌};
    ghost use Rattle.dx_engine.specs.Shortened.{cut_short};

    ghost from_gives = { λ cut e. e ≡ cut_short cut };

    fn from(cut: Cut) -> Short {
        match cut {
            Cut::ReadFault => Short::ReadFault,
            Cut::Memory => Short::Memory,
        }
    }
}

impl From<SinkFail> for Short {
    ghost use Rattle.std.specs.Prelude.{◌≡◌};
    ghost use Rattle.dx_engine.specs.Shortened.{sink_short};

    ghost from_gives = { λ fail e. e ≡ sink_short fail };

    fn from(fail: SinkFail) -> Short {
        match fail {
            SinkFail::Fault => Short::WriteFault,
            SinkFail::Memory => Short::Memory,
        }
    }
}
