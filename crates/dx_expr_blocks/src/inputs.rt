//! The inputs of an expression, as a block reads them.

ghost use Rattle.std.specs.Prelude.{◌≡◌, []};
ghost use Rattle.dx_expr_blocks.specs.Sources.{IsSource, IsTable};

use dx_expr::Inputs;

/// Where the values of an input that is a single value stand.
#[derive(Clone, Copy)]
pub enum Source<'a> {
    /// One for each item, in order.
    Each(&'a [i64]),
    /// The same in 4 bytes each.
    Ints(&'a [i32]),
    /// One that stands for every item.
    Same(i64),
    /// They are asked for one by one.
    Other,
}

/// Where the values of an input with parts stand.
#[derive(Clone, Copy)]
pub enum Table<'a> {
    /// Item by item, each with so many, and all of them lie in the int range.
    Rows(&'a [i64], usize),
    /// The same in 4 bytes each.
    IntRows(&'a [i32], usize),
    /// They are asked for one by one, and all of them lie in the int range.
    Ints,
    /// They are asked for one by one.
    Other,
}

/// Inputs that say where the values of each stand.
pub trait Columns: Inputs {
    fn source(&self, k: u8) -> Source<'_>
        requires { (Self.given self.now).shape k ≡ [] }
        ensures { IsSource (Self.given self.now) (Self.items self.now) k result };

    fn table(&self, k: u8) -> Table<'_>
        ensures { IsTable (Self.given self.now) (Self.items self.now) k result };
}
