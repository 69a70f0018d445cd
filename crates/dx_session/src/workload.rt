//! The text of a workload as the one file there is.
ghost use Rattle.std.specs.Prelude.{◌≡◌};
ghost use Rattle.dx_outcome.specs.Plan.{workload_name};

use dx_base::Bytes;
use dx_io::{FileFail, Files};
use std::alloc::Global;

/// The name of the file of a workload.
pub(crate) fn name() -> &'static [u8]
    ensures { result.now ≡ workload_name }
{
    b"workload"
}

/// A text that is the one file there is. Its reads have no faults, and aren't told.
#[derive(Drop)]
pub struct WorkloadFile {
    pub text: Bytes,
}

impl Files for WorkloadFile {
    ghost use Rattle.std.specs.Prelude.{Some, None};
    ghost use Rattle.dx_outcome.specs.Plan.{alone, workload_name};

    ghost content = { λ f. Some (alone workload_name f.text) };

    ghost asked = { λ _. None };

    ghost faults = { λ _. 0 };

    fn read(&mut self, alloc: Global, name: &Bytes) -> Result<Option<Bytes>, FileFail> {
        if name.bytes() == self::name() {
            Ok(Some(Bytes::copy_of(alloc, self.text.bytes())?))
        } else {
            Ok(None)
        }
    }
}
