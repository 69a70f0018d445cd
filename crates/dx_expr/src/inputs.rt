//! The inputs of an expression, as whoever evaluates it has them.
ghost use Rattle.std.specs.Prelude.{◌≡◌, ◌<◌, ℕ};
ghost use Rattle.dx_expr.specs.Value as spec;
ghost use Rattle.dx_expr.specs.Value.{size};

/// What the inputs of an expression are: the shape of each, and its values.
pub trait Inputs {
    /// The shape of each input, and its values by item and place.
    ghost given: { Self → spec.Inputs };

    /// How many items each input has.
    ghost items: { Self → ℕ };

    /// The extents of an input's shape, as many as its rank.
    fn extents(&self, k: u8) -> &[u32]
        ensures { result.now ≡ (given self.now).shape k };

    /// How many values an item of an input has: the product of its extents.
    fn size(&self, k: u8) -> u64
        ensures { result ≡ size ((given self.now).shape k) };

    /// The value of an input at an item, and at a place among that item's values.
    fn value(&self, k: u8, item: u64, place: u64) -> i64
        requires item { item < items self.now }
        requires place { place < size ((given self.now).shape k) }
        ensures { result ≡ (given self.now).value k item place };
}
