//! What stands behind the word `class` in an array's first line.
ghost use Rattle.std.specs.Prelude.{◌≡◌, ◌++◌, OnOk, codes};
ghost use Rattle.dx_base.specs.Array.{counts_of};
ghost use Rattle.dx_base.specs.Words.{counts_behind};
ghost use Rattle.dx_native_text.specs.Arrays.{class_words};
ghost use Rattle.dx_native_write.specs.Spelled.{words_behind, shape_behind, head_behind};

use dx_arrays::{Array, ArrayClass};
use dx_base::{push_count, push_counts_behind};
use std::alloc::AllocError;

/// The words for an array's class, each behind a space: the class, and its type, rank, shape and number of items, or the
/// counts of a grid.
#[tactic(auto, using(crate::proofs::ClassWords::class_texts))]
pub(crate) fn push_class_words(out: &mut Vec<u8>, array: &Array) -> Result<(), AllocError>
    ensures { OnOk result (out.new.items ≡ out.old.items ++ words_behind (class_words array.now array.now.class)) }
{
    match array.class() {
        ArrayClass::Plain => push_with_data(out, b" array", array),
        ArrayClass::Constant => push_with_data(out, b" constantarray", array),
        ArrayClass::Regular => push_with_head(out, b" regulararray", array),
        ArrayClass::GridPositions => push_with_counts(out, b" gridpositions counts", array),
        ArrayClass::GridConnections => push_with_counts(out, b" gridconnections counts", array),
    }
}

// The class, the head, and that the data follow.
fn push_with_data(out: &mut Vec<u8>, class: &[u8], array: &Array) -> Result<(), AllocError>
    ensures { OnOk result (out.new.items ≡ out.old.items ++ (class.now ++ (head_behind array.now ++ codes " data follows"))) }
{
    out.extend_from_slice(class)?;
    push_head(out, array)?;
    out.extend_from_slice(b" data follows")
}

// The class and the head.
fn push_with_head(out: &mut Vec<u8>, class: &[u8], array: &Array) -> Result<(), AllocError>
    ensures { OnOk result (out.new.items ≡ out.old.items ++ (class.now ++ head_behind array.now)) }
{
    out.extend_from_slice(class)?;
    push_head(out, array)
}

// The class and the counts of a grid.
fn push_with_counts(out: &mut Vec<u8>, class: &[u8], array: &Array) -> Result<(), AllocError>
    ensures { OnOk result (out.new.items ≡ out.old.items ++ (class.now ++ counts_behind (counts_of array.now.class))) }
{
    out.extend_from_slice(class)?;
    push_counts_behind(out, array.counts())
}

// Type, rank, shape and number of items.
#[tactic(auto, unfolding(crate::specs::Spelled::head_behind))]
fn push_head(out: &mut Vec<u8>, array: &Array) -> Result<(), AllocError>
    ensures { OnOk result (out.new.items ≡ out.old.items ++ head_behind array.now) }
{
    out.extend_from_slice(b" type ")?;
    out.extend_from_slice(array.elem().word())?;
    out.extend_from_slice(b" rank ")?;
    push_count(out, array.extents().len() as u64)?;
    push_shape(out, array.extents())?;
    out.extend_from_slice(b" items ")?;
    push_count(out, array.items())
}

// The shape, where there are extents.
fn push_shape(out: &mut Vec<u8>, extents: &[u32]) -> Result<(), AllocError>
    ensures { OnOk result (out.new.items ≡ out.old.items ++ shape_behind extents.now) }
{
    if extents.is_empty() {
        return Ok(());
    }
    out.extend_from_slice(b" shape")?;
    push_counts_behind(out, extents)
}
