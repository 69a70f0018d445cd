//! The lines that tell what the cache did in an execution, and those that tell the links behind it.
ghost use Rattle.std.specs.Prelude.{◌≡◌, ◌++◌, OnOk};
ghost use Rattle.dx_print.specs.Lines as spec;

use dx_base::{push_count, push_quoted};
use std::alloc::AllocError;

/// What the cache did. A site is the text of the call that it belongs to.
#[derive(Clone, Copy)]
pub enum Traced<'a> {
    /// The call's module ran.
    Run(&'a [u8]),
    /// The call's results were kept, and used.
    Hit(&'a [u8]),
    /// The call's results are kept from now on, with their stated size in bytes.
    Keep(&'a [u8], u64),
    /// The call's results are kept no longer.
    Drop(&'a [u8]),
    /// Nothing is kept any longer.
    Clear,
}

/// The name of a link: of all macros, or of the calls on a path.
#[derive(Clone, Copy)]
pub enum LinkName<'a> {
    Global(&'a [u8]),
    /// The path, which is empty at the top level, and the name.
    Local(&'a [u8], &'a [u8]),
}

/// The line of something that the cache did, as `trace keep SITE SIZE`.
pub fn push_trace_line(out: &mut Vec<u8>, event: Traced<'_>) -> Result<(), AllocError>
    ensures { OnOk result (out.new.items ≡ out.old.items ++ spec.trace_line event.entry) }
{
    out.extend_from_slice(b"trace ")?;
    push_traced(out, event)?;
    Ok(out.push(b'\n')?)
}

fn push_traced(out: &mut Vec<u8>, event: Traced<'_>) -> Result<(), AllocError>
    ensures { OnOk result (out.new.items ≡ out.old.items ++ spec.traced event.entry) }
{
    match event {
        Traced::Run(site) => push_two(out, b"run ", site),
        Traced::Hit(site) => push_two(out, b"hit ", site),
        Traced::Keep(site, size) => {
            push_two(out, b"keep ", site)?;
            out.push(b' ')?;
            push_count(out, size)
        }
        Traced::Drop(site) => push_two(out, b"drop ", site),
        Traced::Clear => out.extend_from_slice(b"clear"),
    }
}

fn push_two(out: &mut Vec<u8>, word: &[u8], site: &[u8]) -> Result<(), AllocError>
    ensures { OnOk result (out.new.items ≡ out.old.items ++ (word.now ++ site.now)) }
{
    out.extend_from_slice(word)?;
    out.extend_from_slice(site)
}

/// The line that tells how many links there are.
pub fn push_links_line(out: &mut Vec<u8>, links: u64) -> Result<(), AllocError>
    ensures { OnOk result (out.new.items ≡ out.old.items ++ spec.links_line links) }
{
    out.extend_from_slice(b"links ")?;
    push_count(out, links)?;
    Ok(out.push(b'\n')?)
}

/// The line of a link, behind which the native text of its value stands: `link global "NAME"`, or `link local PATH "NAME"`,
/// where the path of the top level is `-`.
pub fn push_link_line(out: &mut Vec<u8>, name: LinkName<'_>) -> Result<(), AllocError>
    ensures { OnOk result (out.new.items ≡ out.old.items ++ spec.link_line name.entry) }
{
    out.extend_from_slice(b"link ")?;
    push_link_name(out, name)?;
    Ok(out.push(b'\n')?)
}

fn push_link_name(out: &mut Vec<u8>, name: LinkName<'_>) -> Result<(), AllocError>
    ensures { OnOk result (out.new.items ≡ out.old.items ++ spec.link_name name.entry) }
{
    match name {
        LinkName::Global(name) => {
            out.extend_from_slice(b"global ")?;
            push_quoted(out, name)
        }
        LinkName::Local(path, name) => {
            out.extend_from_slice(b"local ")?;
            push_path(out, path)?;
            out.push(b' ')?;
            push_quoted(out, name)
        }
    }
}

fn push_path(out: &mut Vec<u8>, path: &[u8]) -> Result<(), AllocError>
    ensures { OnOk result (out.new.items ≡ out.old.items ++ spec.path_word path.now) }
{
    if path.is_empty() {
        Ok(out.push(b'-')?)
    } else {
        out.extend_from_slice(path)
    }
}
