//! What is printed behind the text of an execution's effects.
ghost use Rattle.std.specs.Prelude.{◌≡◌, ◌++◌, OnOk};
ghost use Rattle.dx_shown.specs.Made.{Coursed};
ghost use Rattle.dx_telling.specs.AtHand.{told_behind};
ghost use Rattle.dx_telling.specs.Shown.{behind_of};
ghost use Rattle.dx_telling.specs.Tells.{Tells};

use crate::errors::push_error;
use crate::events::push_trace;
use crate::links::push_listing;
use crate::listings::Listings;
use dx_getting::Event;
use dx_links::Links;
use dx_making::Failing;
use std::alloc::{AllocError, Global};

/// Appends what is printed behind the text of an execution's effects: the line of its error, and of the listings those that are asked
/// for, first a line for each event and then the links. What is at hand is what is wrong with a call, the events that the state tells
/// (where a call has a static fault they are those of an earlier execution, and aren't printed), and the links behind the execution.
///
/// # Errors
///
/// Only where memory runs out.
pub fn push_behind(
    alloc: Global,
    out: &mut Vec<u8>,
    asked: Listings,
    failing: &Option<Failing>,
    events: &[Event],
    links: &Links,
) -> Result<(), AllocError>
    ensures { (c : Coursed) → Tells c failing.now events.now links.now → OnOk result (out.new.items ≡ out.old.items ++ behind_of asked c) }
{
    push_at_hand(alloc, out, asked, failing, events, links)
}

fn push_at_hand(
    alloc: Global,
    out: &mut Vec<u8>,
    asked: Listings,
    failing: &Option<Failing>,
    events: &[Event],
    links: &Links,
) -> Result<(), AllocError>
    ensures { OnOk result (out.new.items ≡ out.old.items ++ told_behind asked failing.now events.now links.now.links) }
{
    push_error(out, failing)?;
    push_trace(out, asked.trace, failing, events)?;
    push_listing(alloc, out, asked.links, links)
}
