//! What is wrong with a call.
ghost use Rattle.std.specs.Prelude.{◌≡◌};
ghost use Rattle.dx_making.specs.Failing.{failing_of};

use crate::end::End;
use dx_base::{Bytes, Code};
use dx_engine::ExecError;
use dx_macros::StaticFault;

/// What is wrong with the call of this site.
#[derive(Debug, PartialEq, Eq, Drop)]
pub enum Failing {
    /// It has a static fault.
    Faulty(Bytes, StaticFault),
    /// It refuses its inputs.
    Refused(Bytes, Code),
}

/// How an execution ends that its graph's effects made.
pub(crate) fn how_it_ends(ended: Result<(), ExecError>) -> Result<Option<Failing>, End>
    ensures { result ≡ failing_of ended }
{
    match ended {
        Ok(()) => Ok(None),
        Err(ExecError::Module(site, code)) => Ok(Some(Failing::Refused(site, code))),
        Err(ExecError::ReadFault) => Err(End::ReadFault),
        Err(ExecError::WriteFault) => Err(End::WriteFault),
        Err(ExecError::ExportFault) => Err(End::ExportFault),
        Err(ExecError::Memory) => Err(End::Memory),
    }
}
