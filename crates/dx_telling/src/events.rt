//! The lines of what happened in an execution.
ghost use Rattle.std.specs.Prelude.{◌≡◌, ◌++◌, OnOk};
ghost use Rattle.dx_print.specs.Lines.{trace_line};
ghost use Rattle.dx_telling.specs.AtHand.{event_line, event_lines, happened};
ghost use Rattle.dx_telling.specs.Behind.{if_asked};

use dx_getting::Event;
use dx_making::Failing;
use dx_print::{Traced, push_trace_line};
use std::alloc::AllocError;

/// Appends a line for each event, where that is asked for. Where a call has a static fault nothing happened.
pub(crate) fn push_trace(
    out: &mut Vec<u8>,
    asked: bool,
    failing: &Option<Failing>,
    events: &[Event],
) -> Result<(), AllocError>
    ensures { OnOk result (out.new.items ≡ out.old.items ++ if_asked asked (happened failing.now events.now)) }
{
    if asked {
        push_happened(out, failing, events)
    } else {
        Ok(())
    }
}

fn push_happened(
    out: &mut Vec<u8>,
    failing: &Option<Failing>,
    events: &[Event],
) -> Result<(), AllocError>
    ensures { OnOk result (out.new.items ≡ out.old.items ++ happened failing.now events.now) }
{
    match failing {
        Some(Failing::Faulty(_, _)) => Ok(()),
        None | Some(Failing::Refused(_, _)) => push_events(out, events),
    }
}

fn push_events(out: &mut Vec<u8>, events: &[Event]) -> Result<(), AllocError>
    ensures { OnOk result (out.new.items ≡ out.old.items ++ event_lines events.now) }
{
    for event in events {
        push_trace_line(out, traced(event))?;
    }
    Ok(())
}

fn traced(event: &Event) -> Traced<'_>
    ensures { trace_line result ≡ event_line event.now }
{
    match event {
        Event::Run(site) => Traced::Run(site.bytes()),
        Event::Hit(site) => Traced::Hit(site.bytes()),
        Event::Keep(site, size) => Traced::Keep(site.bytes(), *size),
        Event::Drop(site) => Traced::Drop(site.bytes()),
        Event::Clear => Traced::Clear,
    }
}
