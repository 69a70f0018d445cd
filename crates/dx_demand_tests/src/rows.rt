//! Tables of calls with what looking at their arguments comes to.

ghost use Rattle.std.specs.Prelude.{◌≡◌, []};
ghost use Rattle.dx_demand_tests.specs.Linked.{AreLinked};

use crate::looking::{Before, look_at};
use crate::script::graph_of;
use crate::told::Tell;
use dx_links::Links;
use dx_tags::{Tags, Written};
use std::alloc::{AllocError, Global};

/// The macros and definitions before a call, the call, the values of selectors in the order in which they are needed, and what its
/// arguments come to.
pub type Row = (&'static str, &'static str, &'static [Tell], &'static str);

fn show(
    alloc: Global,
    row: Row,
    before: &Before,
    tags: &mut Tags,
    out: &mut Vec<u8>,
) -> Result<(), AllocError>
    requires linked { AreLinked tags.old before.now.links.links }
{
    match graph_of(alloc, row.0.as_bytes(), row.1.as_bytes())? {
        Some(g) => look_at(alloc, &g, before, tags, row.2, out),
        None => out.extend_from_slice(b"no call"),
    }
}

/// Whether the row is what a call comes to with these links and files.
pub fn is_so(alloc: Global, row: Row, before: &Before, tags: &mut Tags) -> Result<bool, AllocError>
    requires linked { AreLinked tags.old before.now.links.links }
{
    let mut out = Vec::new(alloc);
    show(alloc, row, before, tags, &mut out)?;
    Ok(out.as_slice() == row.3.as_bytes())
}

/// Nothing is linked, and nothing was written.
pub fn nothing(alloc: Global) -> Before
    ensures { result.links.links ≡ [] }
{
    Before {
        links: Links::new(alloc),
        written: Written::new(alloc),
    }
}

/// The first row that isn't so where nothing is linked and nothing was written.
#[tactic(auto, using(crate::proofs::Linking::linked_none, crate::proofs::Linking::exact_none))]
pub fn first_miss(alloc: Global, rows: &[Row]) -> Result<Option<&'static str>, AllocError> {
    for row in rows {
        let before = nothing(alloc);
        let mut tags = Tags::new(alloc);
        if !is_so(alloc, *row, &before, &mut tags)? {
            return Ok(Some(row.1));
        }
    }
    Ok(None)
}
