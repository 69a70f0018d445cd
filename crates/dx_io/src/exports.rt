//! Exported files as a trait.
ghost use Rattle.std.specs.Prelude.{List, ℕ, Option};
ghost use Rattle.dx_io.specs.Devices.{Puts, PutCause};

use crate::ExportFail;
use dx_base::Bytes;
use std::alloc::Global;

/// Where exported files go.
pub trait Exports {
    /// The name and the content of each completed put so far, where they are told.
    ghost puts: { Self → Option (List (List ℕ × List ℕ)) };

    /// How often a put has failed.
    ghost faults: { Self → ℕ };

    /// Puts the content under a name, in place of what stood there. A put that fails completes nothing, and what then
    /// stands under its own name is open. It answers `Fault` exactly where the count of faults has risen.
    fn put(&mut self, alloc: Global, name: &Bytes, content: &[u8]) -> Result<(), ExportFail>
        ensures puts { Puts (puts self.old) (puts self.new) name.now content.now result }
        ensures cause { PutCause (faults self.old) (faults self.new) result };
}
