//! Input files as a trait.
ghost use Rattle.std.specs.Prelude.{◌≡◌, List, ℕ, Option, Some, IfOk};
ghost use Rattle.dx_io.specs.Devices.{FileMap, Asks, ReadCause};

use crate::FileFail;
use dx_base::Bytes;
use std::alloc::Global;

/// Input files.
pub trait Files {
    /// The bytes under each name, where they are told.
    ghost content: { Self → Option FileMap };

    /// The names of the reads so far, where they are told.
    ghost asked: { Self → Option (List (List ℕ)) };

    /// How often a read has failed.
    ghost faults: { Self → ℕ };

    /// The bytes under a name, or nothing where there is no such file. A read changes no file. It answers `Fault`
    /// exactly where the count of faults has risen.
    fn read(&mut self, alloc: Global, name: &Bytes) -> Result<Option<Bytes>, FileFail>
        ensures found { (map : FileMap) → content self.old ≡ Some map →
            IfOk result (λ found. found ≡ map name.now) }
        ensures same { content self.new ≡ content self.old }
        ensures asks { Asks (asked self.old) (asked self.new) name.now result }
        ensures cause { ReadCause (faults self.old) (faults self.new) result };
}
