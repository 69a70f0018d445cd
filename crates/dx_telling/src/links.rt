//! The listing of the links behind an execution.
ghost use Rattle.std.specs.Prelude.{◌≡◌, ◌++◌, OnOk};
ghost use Rattle.dx_native_text.specs.Text.{text_of as native_text};
ghost use Rattle.dx_print.specs.Lines.{link_line};
ghost use Rattle.dx_telling.specs.Behind.{each_link, if_asked, link_name, link_text, links_text};
ghost use Rattle.dx_telling.specs.Tells.{objects_in};

use dx_links::{Key, Links};
use dx_native_write::write_object;
use dx_objects::Object;
use dx_print::{LinkName, push_link_line, push_links_line};
use std::alloc::{AllocError, Global};

/// Appends how many links there are and each of them in the order of the keys, where that is asked for.
pub(crate) fn push_listing(
    alloc: Global,
    out: &mut Vec<u8>,
    asked: bool,
    links: &Links,
) -> Result<(), AllocError>
    ensures { OnOk result (out.new.items ≡ out.old.items ++ if_asked asked (links_text (objects_in links.now.links))) }
{
    if asked {
        push_links(alloc, out, links)
    } else {
        Ok(())
    }
}

fn push_links(alloc: Global, out: &mut Vec<u8>, links: &Links) -> Result<(), AllocError>
    ensures { OnOk result (out.new.items ≡ out.old.items ++ links_text (objects_in links.now.links)) }
{
    push_links_line(out, links.len() as u64)?;
    push_each(alloc, out, links)
}

fn push_each(alloc: Global, out: &mut Vec<u8>, links: &Links) -> Result<(), AllocError>
    ensures { OnOk result (out.new.items ≡ out.old.items ++ each_link (objects_in links.now.links)) }
{
    for i in 0..links.len() {
        let (key, held) = links.at(i);
        push_link(alloc, out, key, held.value)?;
    }
    Ok(())
}

fn push_link(alloc: Global, out: &mut Vec<u8>, key: &Key, value: &Object) -> Result<(), AllocError>
    ensures { OnOk result (out.new.items ≡ out.old.items ++ link_text key.now value.now) }
{
    push_link_line(out, name_of(key))?;
    push_native(alloc, out, value)
}

fn name_of(key: &Key) -> LinkName<'_>
    ensures { link_line result ≡ link_line (link_name key.now) }
{
    match key {
        Key::Global(name) => LinkName::Global(name.bytes()),
        Key::Local(path, name) => LinkName::Local(path.bytes(), name.bytes()),
    }
}

fn push_native(alloc: Global, out: &mut Vec<u8>, value: &Object) -> Result<(), AllocError>
    ensures { OnOk result (out.new.items ≡ out.old.items ++ native_text value.now) }
{
    let text = write_object(alloc, value)?;
    out.extend_from_slice(text.bytes())
}
