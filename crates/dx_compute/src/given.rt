//! Arrays as the inputs of an expression.
ghost use Rattle.std.specs.Prelude.{◌≡◌, ◌<◌, IsTrue};
ghost use Rattle.dx_base.specs.Array.{items as items_in, value as value_at, width as width_of};
ghost use Rattle.dx_compute_meaning.specs.Arrays.{item_counts};
ghost use Rattle.dx_compute_meaning.specs.Operands.{are_all};
ghost use Rattle.dx_compute_meaning.specs.Arrays as spec;
ghost use Rattle.dx_compute_meaning.specs.Shown.{shown_arrays, shown_array};

use dx_arrays::Array;
use dx_expr::Inputs;

/// Arrays of which each has so many items, or one, which stands for all.
#[derive(Drop)]
pub(crate) struct Given<'a> {
    pub(crate) arrays: &'a [Option<&'a Array>],
    pub(crate) items: u64,
    ghost alike: { IsTrue (are_all items (item_counts (shown_arrays arrays.now))) },
}

#[tactic(auto, using(dx_compute_meaning::proofs::Places::array_places))]
fn array_at<'a>(arrays: &[Option<&'a Array>], k: usize) -> Option<&'a Array>
    ensures { shown_array result ≡ spec.array_at (shown_arrays arrays.now) k }
{
    if k < arrays.len() { arrays[k] } else { None }
}

impl<'a> Given<'a> {
    pub(crate) fn at(&self, k: u8) -> Option<&Array>
        ensures { shown_array result ≡ spec.array_at (shown_arrays self.now.arrays.now) k }
    {
        array_at(self.arrays, usize::from(k))
    }
}

impl Inputs for Given<'_> {
    ghost use Rattle.dx_compute_meaning.specs.Arrays.{given};
    ghost use Rattle.dx_compute_meaning.specs.Shown.{shown_arrays};

    ghost given = { λ s. given (shown_arrays s.arrays.now) };

    ghost items = { λ s. s.items };

    fn extents(&self, k: u8) -> &[u32] {
        match self.at(k) {
            None => &[],
            Some(array) => array.extents(),
        }
    }

    fn size(&self, k: u8) -> u64 {
        match self.at(k) {
            None => 1,
            Some(array) => array.width(),
        }
    }

    fn value(&self, k: u8, item: u64, place: u64) -> i64 {
        match self.at(k) {
            None => 0,
            Some(array) => value_of(array, item, place),
        }
    }
}

fn value_of(array: &Array, item: u64, place: u64) -> i64
    requires item { spec.item_of array.now item < items_in array.now }
    requires place { place < width_of array.now }
    ensures { result ≡ value_at array.now (spec.item_of array.now item) place }
{
    array.value(if array.items() == 1 { 0 } else { item }, place)
}
