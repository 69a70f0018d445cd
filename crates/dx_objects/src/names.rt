//! The names of parts, and their kinds.
ghost use Rattle.std.specs.Prelude.{◌≡◌, ◌&&◌};
ghost use Rattle.dx_base.specs.ObjectNames as spec_names;
ghost use Rattle.dx_base.specs.ObjectLimits as limits;
ghost use Rattle.dx_objects.specs.Shown.{parts_of};

use crate::object::{NamedParts, Part};

pub(crate) fn is_named(part: &Part, name: &[u8]) -> bool
    ensures { result ≡ spec_names.same_name name.now part.now.name }
{
    match &part.name {
        None => false,
        Some(own) => name == own.bytes(),
    }
}

/// Whether each part has a name.
fn are_all_named(parts: &[Part]) -> bool
    ensures { result ≡ limits.all_named (parts_of parts.now) }
{
    for part in parts {
        if part.name.is_none() {
            return false;
        }
    }
    true
}

/// Whether no part has a name.
pub(crate) fn is_none_named(parts: &[Part]) -> bool
    ensures { result ≡ limits.none_named (parts_of parts.now) }
{
    for part in parts {
        if part.name.is_some() {
            return false;
        }
    }
    true
}

/// Whether each part is an array.
pub(crate) fn are_all_arrays(parts: &[Part]) -> bool
    ensures { result ≡ limits.all_arrays (parts_of parts.now) }
{
    for part in parts {
        if !part.object.is_array() {
            return false;
        }
    }
    true
}

/// Whether each part is a field.
pub(crate) fn are_all_fields(parts: &[Part]) -> bool
    ensures { result ≡ limits.all_fields (parts_of parts.now) }
{
    for part in parts {
        if !part.object.is_field() {
            return false;
        }
    }
    true
}

impl NamedParts {
    /// Whether each part has a name. That the names differ is known.
    pub(crate) fn are_all_named(&self) -> bool
        ensures { result ≡ (limits.all_named self.now && limits.differ self.now) }
    {
        are_all_named(self.as_slice())
    }

    /// That the names which stand differ: it is known of all such parts.
    pub(crate) fn have_good_names(&self) -> bool
        ensures { result ≡ limits.differ self.now }
    {
        let _parts = self.as_slice();
        true
    }
}
