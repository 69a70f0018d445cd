//! Whether a field is a grid that can be cut.
ghost use Rattle.std.specs.Prelude.{◌≡◌, None, Some, Ok, Err, MatchOption, MatchResult};
ghost use Rattle.dx_base.specs.ObjectNames.{component};
ghost use Rattle.dx_fields.specs.Grids.{positions_name, grid_counts};
ghost use Rattle.dx_fields.specs.References.{item_count};
ghost use Rattle.dx_objects.specs.Shown.{parts_of};
ghost use Rattle.dx_slab.specs.Components.{data_name};
ghost use Rattle.dx_slab.specs.Inputs as spec;

use crate::role::{CONNECTIONS, DATA, POSITIONS, is_named};
use dx_fields::{check_field, grid_of};
use dx_objects::{Code, Object, Part};

/// The counts of the grid that a field is, or the code by which it is refused.
pub(crate) fn counts_in(whole: &Object) -> Result<&[u32], Code>
    ensures { MatchResult result (λ counts. spec.counts_in whole.now ≡ Ok counts.now) (λ code. spec.counts_in whole.now ≡ Err code) }
{
    if check_field(whole).is_err() {
        return Err(Code::BadField);
    }
    if !none_refers(whole.parts()) {
        return Err(Code::NotRegular);
    }
    match grid_counts(whole) {
        None => Err(Code::NotRegular),
        Some(counts) => {
            if has_data(whole) {
                Ok(counts)
            } else {
                Err(Code::BadField)
            }
        }
    }
}

// Whether no component but the connections refers to another one.
fn none_refers(parts: &[Part]) -> bool
    ensures { result ≡ spec.none_refers (parts_of parts.now) }
{
    for part in parts {
        if !is_named(&part.name, CONNECTIONS) && part.object.attribute(b"ref").is_some() {
            return false;
        }
    }
    true
}

// The counts of the points of a field that is a regular grid.
fn grid_counts(whole: &Object) -> Option<&[u32]>
    ensures { MatchOption result (grid_counts whole.now ≡ None) (λ counts. grid_counts whole.now ≡ Some counts.now) }
{
    let _grid = grid_of(whole)?;
    let positions = whole.component(POSITIONS)?;
    let array = positions.as_array()?;
    Some(array.counts())
}

// Whether data that depends on nothing has an item for each point.
fn has_data(whole: &Object) -> bool
    ensures { result ≡ spec.has_data_for (component data_name whole.now) (component positions_name whole.now) }
{
    let Some(data) = whole.component(DATA) else {
        return true;
    };
    let Some(positions) = whole.component(POSITIONS) else {
        return true;
    };
    data.attribute(b"dep").is_some() || item_count(data) == item_count(positions)
}

fn item_count(component: &Object) -> u64
    ensures { result ≡ item_count component.now }
{
    match component.as_array() {
        None => 0,
        Some(array) => array.items(),
    }
}
