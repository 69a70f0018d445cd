//! What cuts a session short.

use dx_io::SinkFail;
use std::alloc::AllocError;

/// A device's fault, or want of memory.
#[derive(Clone, Copy, Debug, PartialEq, Eq)]
pub enum End {
    /// A file couldn't be read.
    ReadFault,
    /// The output couldn't be written.
    WriteFault,
    /// A file couldn't be put.
    ExportFault,
    /// Memory ran out.
    Memory,
}

impl From<SinkFail> for End {
    ghost use Rattle.std.specs.Prelude.{◌≡◌};
    ghost use Rattle.dx_making.specs.Ends.{write_end};

    ghost from_gives = { λ f e. e ≡ write_end f };

    fn from(fail: SinkFail) -> Self {
        match fail {
            SinkFail::Fault => End::WriteFault,
            SinkFail::Memory => End::Memory,
        }
    }
}

impl From<AllocError> for End {
    ghost use Rattle.std.specs.Prelude.{◌≡◌};
    ghost use Rattle.dx_making.specs.declared.end.End.TheVariants.{Memory};

    ghost from_gives = { λ _ e. e ≡ Memory };

    fn from(_: AllocError) -> Self {
        End::Memory
    }
}
