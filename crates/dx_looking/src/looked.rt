//! What looking at an argument ends in.
ghost use Rattle.std.specs.Prelude.{◌≡◌};
ghost use Rattle.dx_looking.specs.Failing.{failed_so};

use crate::cut::Cut;
use dx_base::Code;
use dx_getting::GetFail;
use dx_tags::{Tag, ValueTag};

/// A module refuses its inputs. The tag is that of the call's term.
#[derive(Clone, Copy, Debug, PartialEq, Eq)]
pub struct Refusal {
    pub tag: Tag,
    pub code: Code,
}

/// What looking at an argument ends in.
#[derive(Clone, Copy, Debug)]
pub enum Looked {
    /// The term of its value.
    Value(ValueTag),
    /// It takes no part.
    Off,
    /// The value of the selector of a node doesn't fit.
    Halt(u32, Code),
    /// The selector of a node is refused.
    Refused(u32, Refusal),
}

/// The refusal that a getting ended in, or what cut it short.
pub fn failed(fail: GetFail) -> Result<Option<Refusal>, Cut>
    ensures { result ≡ failed_so fail }
{
    match fail {
        GetFail::Refused(tag, code) => Ok(Some(Refusal { tag, code })),
        GetFail::ReadFault => Err(Cut::ReadFault),
        GetFail::Memory => Err(Cut::Memory),
    }
}
