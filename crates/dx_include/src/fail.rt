//! Why a session is not loaded.

use dx_base::{Bytes, SyntaxError};
use dx_io::FileFail;
use std::alloc::{AllocError, AllocFailed};
use thiserror::Error;

/// Why a session isn't loaded. A refusal holds the name of the file that is refused, as the session or the include has
/// it.
#[derive(Debug, Drop, Error)]
pub enum LoadFail {
    /// There is no such file.
    #[error("a file is missing")]
    Missing(Bytes),
    /// The file would be included 16 levels below the session or deeper.
    #[error("a file is nested too deep")]
    Nested(Bytes),
    /// The files loaded so far have more than 16,777,216 bytes with this one.
    #[error("the files are too long")]
    TooLong(Bytes),
    /// The file is no script: its first error.
    #[error("{}:{}: {:?}", .1.line, .1.column, .1.kind)]
    Syntax(Bytes, SyntaxError),
    /// A file couldn't be read.
    #[error("a file can't be read")]
    ReadFault,
    #[error("out of memory")]
    Memory,
}

impl From<FileFail> for LoadFail {
    ghost use Rattle.std.specs.Prelude.{◌≡◌};
    ghost use Rattle.dx_include.specs.ReadFails.{load_fail};

    ghost from_gives = { λ f e. e ≡ load_fail f };

    fn from(fail: FileFail) -> LoadFail {
        match fail {
            FileFail::Fault => LoadFail::ReadFault,
            FileFail::Memory => LoadFail::Memory,
        }
    }
}

impl From<AllocError> for LoadFail {
    ghost use Rattle.std.specs.Prelude.{◌≡◌};
    ghost use Rattle.dx_include.specs.declared.fail.LoadFail.TheVariants.{Memory};

    ghost from_gives = { λ _ e. e ≡ Memory };

    fn from(_: AllocError) -> LoadFail {
        LoadFail::Memory
    }
}

impl<T: Drop> From<AllocFailed<T>> for LoadFail {
    ghost use Rattle.std.specs.Prelude.{◌≡◌};
    ghost use Rattle.dx_include.specs.declared.fail.LoadFail.TheVariants.{Memory};

    ghost from_gives = { λ _ e. e ≡ Memory };

    fn from(_: AllocFailed<T>) -> LoadFail {
        LoadFail::Memory
    }
}
