//! What a component of a field is to a slab of the field.
ghost use Rattle.std.specs.Prelude.{◌≡◌, None, Some, MatchOption};
ghost use Rattle.dx_base.specs.Object.{attributes};
ghost use Rattle.dx_base.specs.ObjectNames.{same_name, find};
ghost use Rattle.dx_fields.specs.References.{dep_name};
ghost use Rattle.dx_slab.specs.Components as spec;

use dx_base::Bytes;
use dx_objects::Part;

pub(crate) const DATA: &[u8] = b"data";

pub(crate) const POSITIONS: &[u8] = b"positions";

pub(crate) const CONNECTIONS: &[u8] = b"connections";

/// What a slab does to a component.
#[derive(Clone, Copy, Debug, PartialEq, Eq, Drop)]
pub(crate) enum Role {
    /// The points of the grid.
    Positions,
    /// The cells of the grid.
    Connections,
    /// It has an item for each point.
    OnPoints,
    /// It has an item for each cell.
    OnCells,
    /// It stays as it is.
    Other,
}

impl Role {
    /// Whether it goes where a slab has no cells.
    pub(crate) fn is_of_cells(self) -> bool
        ensures { result ≡ spec.is_of_cells self }
    {
        match self {
            Role::Connections | Role::OnCells => true,
            Role::Positions | Role::OnPoints | Role::Other => false,
        }
    }
}

/// Whether this is the name.
pub(crate) fn is_named(own: &Option<Bytes>, name: &[u8]) -> bool
    ensures { result ≡ same_name name.now own.now }
{
    match own {
        None => false,
        Some(own) => name == own.bytes(),
    }
}

/// The role of a component.
pub(crate) fn role_of(part: &Part) -> Role
    ensures { result ≡ spec.role part.now.name part.now.object.value }
{
    if is_named(&part.name, POSITIONS) {
        return Role::Positions;
    }
    if is_named(&part.name, CONNECTIONS) {
        return Role::Connections;
    }
    match part.object.attribute(b"dep") {
        None => role_alone(part),
        Some(dep) => role_by(dep.as_text()),
    }
}

// The role of a component that depends on nothing.
fn role_alone(part: &Part) -> Role
    ensures { result ≡ spec.role_by (spec.dependence part.now.name None) }
{
    if is_named(&part.name, DATA) {
        Role::OnPoints
    } else {
        Role::Other
    }
}

// The role of a component that depends on the one of this name.
fn role_by(dep: Option<&[u8]>) -> Role
    ensures { MatchOption dep.entry (result ≡ spec.role_by None) (λ name. result ≡ spec.role_by (Some name.now)) }
{
    match dep {
        None => Role::Other,
        Some(name) => {
            if name == POSITIONS {
                Role::OnPoints
            } else if name == CONNECTIONS {
                Role::OnCells
            } else {
                Role::Other
            }
        }
    }
}
