//! Where the values of arrays of numbers stand, so that they are read as slices.
ghost use Rattle.std.specs.Prelude.{◌≡◌, ◌∷◌, [], true, Some, ℤ};
ghost use Rattle.dx_base.specs.Elem.{in_range};
ghost use Rattle.dx_expr.specs.Value.{is_int};
ghost use Rattle.dx_compute_meaning.specs.Arrays as spec;
ghost use Rattle.dx_expr_blocks.specs.Sources.{IsSource, IsTable};

use crate::given::Given;
use dx_arrays::{Array, Values};
use dx_base::ElemType;
use dx_expr_blocks::{Columns, Source, Table};

impl Columns for Given<'_> {
    fn source(&self, k: u8) -> Source<'_> {
        match self.at(k) {
            None => Source::Same(0),
            Some(array) => source_of(array, self.items),
        }
    }

    fn table(&self, k: u8) -> Table<'_> {
        match self.at(k) {
            None => Table::Other,
            Some(array) => table_of(array, self.items),
        }
    }
}

fn source_of(array: &Array, items: u64) -> Source<'_>
    requires single { array.now.extents ≡ [] }
    requires alike { spec.fits_in items (spec.other_count (Some array.now)) ≡ true }
    ensures { IsSource (spec.given (Some array.now ∷ [])) items 0 result }
{
    if array.items() == 1 {
        return Source::Same(array.value(0, 0));
    }
    match array.plain_values() {
        Some(Values::Ints(values)) => Source::Ints(values),
        Some(Values::Wide(values)) => Source::Each(values),
        None => Source::Other,
    }
}

/// Whether each value of the type lies in the int range.
fn has_ints(t: ElemType) -> bool
    ensures { result ≡ true → (v : ℤ) → in_range t v ≡ true → is_int v ≡ true }
{
    match t {
        ElemType::UInt => false,
        _ => true,
    }
}

fn table_of(array: &Array, items: u64) -> Table<'_>
    requires alike { spec.fits_in items (spec.other_count (Some array.now)) ≡ true }
    ensures { IsTable (spec.given (Some array.now ∷ [])) items 0 result }
{
    if !has_ints(array.elem()) {
        return Table::Other;
    }
    if array.items() == 1 {
        return Table::Ints;
    }
    let width = array.width() as usize;
    match array.plain_values() {
        Some(Values::Ints(values)) => Table::IntRows(values, width),
        Some(Values::Wide(values)) => Table::Rows(values, width),
        None => Table::Ints,
    }
}
