//! The items of a block.

ghost use Rattle.std.specs.Prelude.{◌≡◌, ◌+◌, ◌-◌, ◌<◌, ◌≤◌, length, slice_index, take};
ghost use Rattle.dx_expr_blocks.specs.Items.{items_of};

/// Items in the order in which they are looked at.
#[derive(Clone, Copy)]
pub(crate) enum Block<'a> {
    /// From the first number to before the second.
    Range(usize, usize),
    /// These.
    Listed(&'a [usize]),
}

/// A number of a range, so far behind its first.
fn moved(from: usize, to: usize, by: usize) -> usize
    requires { by ≤ to - from }
    ensures { result ≡ from + by }
{
    if from < to { from + by } else { from }
}

/// How many items there are.
pub(crate) fn count(block: Block<'_>) -> usize
    ensures { result ≡ length (items_of block.entry) }
{
    match block {
        Block::Range(from, to) => to.saturating_sub(from),
        Block::Listed(items) => items.len(),
    }
}

/// The item at a place.
pub(crate) fn item_at(block: Block<'_>, place: usize) -> usize
    requires { place < length (items_of block) }
    ensures { result ≡ slice_index (items_of block.entry) place }
{
    match block {
        Block::Range(from, to) => moved(from, to, place),
        Block::Listed(items) => items[place],
    }
}

/// The first of them, so many.
pub(crate) fn first(block: Block<'_>, n: usize) -> Block<'_>
    requires { n ≤ length (items_of block) }
    ensures { items_of result ≡ take n (items_of block.entry) }
{
    match block {
        Block::Range(from, to) => Block::Range(from, moved(from, to, n)),
        Block::Listed(items) => Block::Listed(&items[..n]),
    }
}
