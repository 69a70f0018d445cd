//! How many definitions are known.
ghost use Rattle.dx_macros.specs.DictionaryView.{dictionary_of};
ghost use Rattle.dx_checked.specs.Known.{IsKnown};

use crate::own::{definition_calls, look};
use dx_macros::Dictionary;
use std::alloc::Global;

/// So many of the first definitions have so many calls of their own in all, none of which has a fault.
#[derive(Clone, Copy)]
pub struct Known {
    pub definitions: usize,
    pub calls: u32,
}

/// What is known where nothing was looked at.
pub(crate) const NOTHING: Known = Known {
    definitions: 0,
    calls: 0,
};

/// Looks at the definitions that aren't known yet, one after the other, up to one that has a fault or too many calls, and by no
/// more looks than are left: one for each definition, call and statement.
pub(crate) fn more_known(alloc: Global, d: &Dictionary, known: Known, looks: &mut u64) -> Known
    requires { IsKnown (dictionary_of d.now) known }
    ensures { IsKnown (dictionary_of d.now) result }
{
    let mut known = known;
    for i in known.definitions..d.len() {
        if look(looks).is_none() {
            return known;
        }
        match definition_calls(alloc, d, d.definition(i), known.calls, looks) {
            None => return known,
            Some(calls) => {
                known = Known {
                    definitions: i + 1,
                    calls,
                };
            }
        }
    }
    known
}
