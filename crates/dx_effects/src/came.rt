//! What the arguments of an effect come to.
ghost use Rattle.std.specs.Prelude.{◌≡◌};
ghost use Rattle.dx_effects.specs.Coming.{came_so};

use dx_base::Code;
use dx_getting::GetFail;
use dx_looking::{Cut, Refusal};
use dx_objects::Outs;
use dx_tags::ValueTags;

/// What the arguments of an effect come to.
#[derive(Drop)]
pub enum Arguments {
    /// Their terms, and their values.
    Values(ValueTags, Outs),
    /// One takes no part.
    Off,
    /// The value of the selector of a node doesn't fit.
    Halt(u32, Code),
    /// The selector of a node is refused.
    SelectorRefused(u32, Refusal),
    /// The value of an argument is refused.
    Refused(Refusal),
}

/// What getting the values of these terms ended in, or what cut it short.
pub(crate) fn came_of(terms: ValueTags, got: Result<Outs, GetFail>) -> Result<Arguments, Cut>
    ensures { result ≡ came_so terms got }
{
    match got {
        Ok(values) => Ok(Arguments::Values(terms, values)),
        Err(GetFail::Refused(tag, code)) => Ok(Arguments::Refused(Refusal { tag, code })),
        Err(GetFail::ReadFault) => Err(Cut::ReadFault),
        Err(GetFail::Memory) => Err(Cut::Memory),
    }
}
