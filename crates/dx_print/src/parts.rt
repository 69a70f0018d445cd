//! Objects with their parts and attributes, each further in.
ghost use Rattle.std.specs.Prelude.{◌≡◌, ◌++◌, ◌+◌, ◌*◌, ◌≤◌, OnOk};
ghost use Rattle.dx_base.specs.Object.{levels, deepest};
ghost use Rattle.dx_objects.specs.Kinds.{array_of};
ghost use Rattle.dx_objects.specs.Shown.{parts_of};
ghost use Rattle.dx_print.specs.Header as header;
ghost use Rattle.dx_print.specs.ItemLines.{at_indent};
ghost use Rattle.dx_print.specs.Printed as spec;
ghost use Rattle.dx_print.specs.Nested.{listing_of as spec_listing_of};

use crate::detail::{Detail, Shown};
use crate::header::push_object_header;
use crate::item_lines::{push_all_items, push_few_items, push_indent};
use dx_base::{Bytes, push_number, push_quoted};
use dx_objects::{Kind, Object, Part};
use std::alloc::AllocError;

/// How many spaces a part is announced further in, and how many its own lines stand further in.
const LABEL_INDENT: u64 = 2;

const PART_INDENT: u64 = 4;

/// What the parts of a list are.
#[derive(Clone, Copy)]
pub(crate) enum Listing {
    Components,
    Members,
    /// Members with positions.
    PlacedMembers,
    Attributes,
}

/// The text of an object at an indent: its header, the items that are asked for, and where parts are asked for its parts and
/// then its attributes.
#[cycle(nested)]
pub(crate) fn push_object(
    out: &mut Vec<u8>,
    object: &Object,
    detail: Detail,
    indent: u64,
) -> Result<(), AllocError>
    requires { indent + 4 * levels object.now ≤ 4096 }
    ensures { OnOk result (out.new.items ≡ out.old.items ++ spec.text_at detail indent object.now) }
{
    push_own(out, object, detail.items, indent)?;
    if !detail.parts {
        return Ok(());
    }
    push_parts(out, listing_of(object), object.parts(), detail, indent)?;
    push_parts(
        out,
        Listing::Attributes,
        object.attributes(),
        detail,
        indent,
    )
}

// The texts of parts, each behind a line that announces it.
#[cycle(nested)]
fn push_parts(
    out: &mut Vec<u8>,
    listing: Listing,
    parts: &[Part],
    detail: Detail,
    indent: u64,
) -> Result<(), AllocError>
    requires { indent + 4 + 4 * deepest (parts_of parts.now) ≤ 4096 }
    ensures { OnOk result (out.new.items ≡ out.old.items ++ spec.parts_text listing detail indent (parts_of parts.now)) }
{
    for part in parts {
        push_label(out, listing, part, indent + LABEL_INDENT)?;
        push_object(out, &part.object, detail, indent + PART_INDENT)?;
    }
    Ok(())
}

// The header of an object, and its items if it is an array.
fn push_own(out: &mut Vec<u8>, object: &Object, items: Shown, indent: u64) -> Result<(), AllocError>
    ensures { OnOk result (out.new.items ≡ out.old.items ++ (at_indent indent (header.object_header object.now) ++ spec.items_shown items indent (array_of object.now))) }
{
    push_indent(out, indent)?;
    push_object_header(out, object)?;
    out.push(b'\n')?;
    push_items(out, object, items, indent)
}

fn push_items(
    out: &mut Vec<u8>,
    object: &Object,
    items: Shown,
    indent: u64,
) -> Result<(), AllocError>
    ensures { OnOk result (out.new.items ≡ out.old.items ++ spec.items_shown items indent (array_of object.now)) }
{
    let Some(array) = object.as_array() else {
        return Ok(());
    };
    match items {
        Shown::NoItems => Ok(()),
        Shown::FewItems => push_few_items(out, array, indent),
        Shown::AllItems => push_all_items(out, array, indent),
    }
}

fn listing_of(object: &Object) -> Listing
    ensures { result ≡ spec_listing_of object.now }
{
    match object.kind() {
        Kind::Field => Listing::Components,
        Kind::Group => Listing::Members,
        Kind::Series => Listing::PlacedMembers,
        Kind::Array | Kind::Text => Listing::Attributes,
    }
}

// The line that announces a part.
fn push_label(
    out: &mut Vec<u8>,
    listing: Listing,
    part: &Part,
    indent: u64,
) -> Result<(), AllocError>
    ensures { OnOk result (out.new.items ≡ out.old.items ++ at_indent indent (spec.label listing part.now.name part.now.position)) }
{
    push_indent(out, indent)?;
    push_place(out, listing, part)?;
    Ok(out.push(b'\n')?)
}

fn push_place(out: &mut Vec<u8>, listing: Listing, part: &Part) -> Result<(), AllocError>
    ensures { OnOk result (out.new.items ≡ out.old.items ++ spec.label listing part.now.name part.now.position) }
{
    match listing {
        Listing::Components => push_name(out, b"component", &part.name),
        Listing::Members => push_name(out, b"member", &part.name),
        Listing::PlacedMembers => {
            out.extend_from_slice(b"member at ")?;
            push_number(out, i64::from(part.position))?;
            Ok(out.push(b':')?)
        }
        Listing::Attributes => push_name(out, b"attribute", &part.name),
    }
}

// A word, and a name if there is one.
fn push_name(out: &mut Vec<u8>, word: &[u8], name: &Option<Bytes>) -> Result<(), AllocError>
    ensures { OnOk result (out.new.items ≡ out.old.items ++ spec.behind_word word.now name.now) }
{
    out.extend_from_slice(word)?;
    if let Some(name) = name {
        out.push(b' ')?;
        push_quoted(out, name.bytes())?;
    }
    Ok(out.push(b':')?)
}
