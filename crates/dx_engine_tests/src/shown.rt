//! What is seen of an execution, as lines.
use dx_base::{Bytes, Code, push_count};
use dx_engine::ExecError;
use dx_getting::Event;
use dx_print::{Traced, push_code, push_trace_line};
use std::alloc::AllocError;

fn push_put(name: &Bytes, content: &Bytes, shown: &mut Vec<u8>) -> Result<(), AllocError> {
    shown.extend_from_slice(b"put ")?;
    shown.extend_from_slice(name.bytes())?;
    shown.extend_from_slice(b"\n")?;
    shown.extend_from_slice(content.bytes())
}

/// The files that were put, each with its content.
pub fn push_puts(puts: &[(Bytes, Bytes)], shown: &mut Vec<u8>) -> Result<(), AllocError> {
    for put in puts {
        push_put(&put.0, &put.1, shown)?;
    }
    Ok(())
}

fn push_name(name: &Bytes, shown: &mut Vec<u8>) -> Result<(), AllocError> {
    shown.extend_from_slice(b"read ")?;
    shown.extend_from_slice(name.bytes())?;
    shown.extend_from_slice(b"\n")
}

/// A line for each name that was read.
pub fn push_names(names: &[Bytes], shown: &mut Vec<u8>) -> Result<(), AllocError> {
    for name in names {
        push_name(name, shown)?;
    }
    Ok(())
}

fn traced(event: &Event) -> Traced<'_> {
    match event {
        Event::Run(site) => Traced::Run(site.bytes()),
        Event::Hit(site) => Traced::Hit(site.bytes()),
        Event::Keep(site, size) => Traced::Keep(site.bytes(), *size),
        Event::Drop(site) => Traced::Drop(site.bytes()),
        Event::Clear => Traced::Clear,
    }
}

fn push_events(events: &[Event], shown: &mut Vec<u8>) -> Result<(), AllocError> {
    for event in events {
        push_trace_line(shown, traced(event))?;
    }
    Ok(())
}

/// A line for each event of an execution that wasn't cut short.
pub fn push_happened(
    ended: &Result<(), ExecError>,
    events: &[Event],
    shown: &mut Vec<u8>,
) -> Result<(), AllocError> {
    match ended {
        Ok(()) | Err(ExecError::Module(_, _)) => push_events(events, shown),
        Err(_) => Ok(()),
    }
}

/// A number and what it counts.
pub fn push_number(number: u64, what: &[u8], shown: &mut Vec<u8>) -> Result<(), AllocError> {
    push_count(shown, number)?;
    shown.extend_from_slice(what)
}

fn push_refused(site: &Bytes, code: Code, shown: &mut Vec<u8>) -> Result<(), AllocError> {
    shown.extend_from_slice(b"refused ")?;
    shown.extend_from_slice(site.bytes())?;
    shown.extend_from_slice(b" ")?;
    push_code(shown, code)?;
    shown.extend_from_slice(b"\n")
}

/// A line that tells how the execution ended.
pub fn push_ended(ended: &Result<(), ExecError>, shown: &mut Vec<u8>) -> Result<(), AllocError> {
    match ended {
        Ok(()) => shown.extend_from_slice(b"ok\n"),
        Err(ExecError::Module(site, code)) => push_refused(site, *code, shown),
        Err(ExecError::ReadFault) => shown.extend_from_slice(b"read fault\n"),
        Err(ExecError::WriteFault) => shown.extend_from_slice(b"write fault\n"),
        Err(ExecError::ExportFault) => shown.extend_from_slice(b"export fault\n"),
        Err(ExecError::Memory) => shown.extend_from_slice(b"memory\n"),
    }
}
