//! How large objects are, also before they are made. A sum that would pass the greatest number stops there.
ghost use Rattle.std.specs.Prelude.{◌≡◌, ◌+◌, ◌*◌, ◌<◌, ◌≤◌, min, max, length, IsTrue, nat_le, not, ◌&&◌};
ghost use Rattle.dx_base.specs.Elem.{in_range as spec_in_range};
ghost use Rattle.dx_base.specs.declared.elem.ElemType.TheVariants.{Int};
ghost use Rattle.dx_base.specs.Array.{array_size};
ghost use Rattle.dx_base.specs.ArrayLimits.{IsLawfulArray};
ghost use Rattle.dx_base.specs.Object as spec;
ghost use Rattle.dx_base.specs.ObjectLimits.{AreLawful, AreBytes, IsName, max_levels, max_count, max_size};
ghost use Rattle.dx_objects.specs.Shown.{parts_of};
ghost use Rattle.dx_objects.specs.View.{tree_of, IsLawfulBelow};

use crate::object::{Body, NamedParts, Part};
use dx_arrays::Array;

/// How many levels an object may have.
pub const MAX_LEVELS: u64 = 64;

/// How many objects an object may be with all below it, each counted every time it occurs.
pub const MAX_COUNT: u64 = 1_048_576;

/// The greatest stated size in bytes.
pub const MAX_SIZE: u64 = 268_435_456;

/// What an object, made or not, counts against the limits of objects: its stated size in bytes, how many objects it is,
/// and its levels.
#[derive(Clone, Copy, Debug, PartialEq, Eq)]
pub struct Measure {
    pub size: u64,
    pub count: u64,
    pub levels: u64,
}

impl Measure {
    /// That of an array with these attributes.
    pub fn array(array: &Array, attributes: &[Part]) -> Measure
        ensures size { result.size ≡ min (spec.size (spec.array array.now (parts_of attributes.now))) 18446744073709551615 }
        ensures count { result.count ≡ min (spec.count (spec.array array.now (parts_of attributes.now))) 18446744073709551615 }
        ensures levels { result.levels ≡ min (spec.levels (spec.array array.now (parts_of attributes.now))) 18446744073709551615 }
    {
        sums_of(attributes).with_own(array.size())
    }

    /// That of a text of these bytes with these attributes.
    pub fn text(text: &[u8], attributes: &[Part]) -> Measure
        ensures size { result.size ≡ min (spec.size (spec.text text.now (parts_of attributes.now))) 18446744073709551615 }
        ensures count { result.count ≡ min (spec.count (spec.text text.now (parts_of attributes.now))) 18446744073709551615 }
        ensures levels { result.levels ≡ min (spec.levels (spec.text text.now (parts_of attributes.now))) 18446744073709551615 }
    {
        sums_of(attributes).with_own(byte_count(text).saturating_add(64))
    }

    /// That of a field, a group or a composite group of these parts with these attributes.
    pub fn group(parts: &[Part], attributes: &[Part]) -> Measure
        ensures size { result.size ≡ min (spec.size (spec.group (parts_of parts.now) (parts_of attributes.now))) 18446744073709551615 }
        ensures count { result.count ≡ min (spec.count (spec.group (parts_of parts.now) (parts_of attributes.now))) 18446744073709551615 }
        ensures levels { result.levels ≡ min (spec.levels (spec.group (parts_of parts.now) (parts_of attributes.now))) 18446744073709551615 }
    {
        sums_of(parts).and(sums_of(attributes)).with_own(64)
    }

    /// That of a series of these members with these attributes.
    pub fn series(parts: &[Part], attributes: &[Part]) -> Measure
        ensures size { result.size ≡ min (spec.size (spec.series (parts_of parts.now) (parts_of attributes.now))) 18446744073709551615 }
        ensures count { result.count ≡ min (spec.count (spec.series (parts_of parts.now) (parts_of attributes.now))) 18446744073709551615 }
        ensures levels { result.levels ≡ min (spec.levels (spec.series (parts_of parts.now) (parts_of attributes.now))) 18446744073709551615 }
    {
        sums_of(parts)
            .and(sums_of(attributes))
            .with_own(position_bytes(parts).saturating_add(64))
    }

    /// Whether an object of this measure has more levels than an object may have.
    pub fn is_too_deep(&self) -> bool
        ensures { result ≡ not (nat_le self.now.levels max_levels) }
    {
        self.levels > MAX_LEVELS
    }

    /// Whether an object of this measure is within all limits of objects.
    pub fn fits(&self) -> bool
        ensures { result ≡ (nat_le self.now.levels max_levels && nat_le self.now.count max_count && nat_le self.now.size max_size) }
    {
        self.levels <= MAX_LEVELS && self.count <= MAX_COUNT && self.size <= MAX_SIZE
    }

    // Those of two lists.
    fn and(self, other: Measure) -> Measure
        ensures size { result.size ≡ min (self.size + other.size) 18446744073709551615 }
        ensures count { result.count ≡ min (self.count + other.count) 18446744073709551615 }
        ensures levels { result.levels ≡ max self.levels other.levels }
    {
        Measure {
            size: self.size.saturating_add(other.size),
            count: self.count.saturating_add(other.count),
            levels: self.levels.max(other.levels),
        }
    }

    // That of an object around them, which states this many bytes of its own.
    fn with_own(self, bytes: u64) -> Measure
        ensures size { result.size ≡ min (bytes + self.size) 18446744073709551615 }
        ensures count { result.count ≡ min (1 + self.count) 18446744073709551615 }
        ensures levels { result.levels ≡ min (1 + self.levels) 18446744073709551615 }
    {
        Measure {
            size: self.size.saturating_add(bytes),
            count: self.count.saturating_add(1),
            levels: self.levels.saturating_add(1),
        }
    }
}

fn byte_count(bytes: &[u8]) -> u64
    ensures count { result ≡ length bytes.now }
    ensures bytes { AreBytes bytes.now }
{
    bytes.len() as u64
}

// The bytes that the positions of members state.
#[tactic(auto, using(crate::proofs::PartsLaws::part_count_is))]
fn position_bytes(parts: &[Part]) -> u64
    ensures { result ≡ min (4 * spec.part_count (parts_of parts.now)) 18446744073709551615 }
{
    (parts.len() as u64).saturating_mul(4)
}

fn name_length(part: &Part) -> u64
    ensures length { result ≡ spec.name_length part.now.name }
    ensures name { IsName part.now.name }
    ensures position { IsTrue (spec_in_range Int part.now.position) }
{
    // Read so that the proof knows its range.
    let _position = part.position;
    match &part.name {
        None => 0,
        Some(name) => byte_count(name.bytes()),
    }
}

fn sums_of(parts: &[Part]) -> Measure
    ensures size { result.size ≡ min (spec.total_size (parts_of parts.now)) 18446744073709551615 }
    ensures count { result.count ≡ min (spec.total_count (parts_of parts.now)) 18446744073709551615 }
    ensures levels { result.levels ≡ spec.deepest (parts_of parts.now) }
    ensures lawful { AreLawful (parts_of parts.now) }
{
    let mut size: u64 = 0;
    let mut count: u64 = 0;
    let mut levels: u64 = 0;
    for part in parts {
        size = size
            .saturating_add(name_length(part))
            .saturating_add(part.object.size());
        count = count.saturating_add(part.object.count());
        levels = levels.max(part.object.levels());
    }
    Measure {
        size,
        count,
        levels,
    }
}

impl NamedParts {
    fn sums(&self) -> Measure
        ensures size { result.size ≡ min (spec.total_size self.now) 18446744073709551615 }
        ensures count { result.count ≡ min (spec.total_count self.now) 18446744073709551615 }
        ensures levels { result.levels ≡ spec.deepest self.now }
        ensures lawful { AreLawful self.now }
    {
        sums_of(self.as_slice())
    }

    fn position_bytes(&self) -> u64
        ensures { result ≡ min (4 * spec.part_count self.now) 18446744073709551615 }
    {
        position_bytes(self.as_slice())
    }
}

impl Body {
    /// The measure of the whole object, and that what it holds can be made.
    pub(crate) fn measure(&self, attributes: &NamedParts) -> Measure
        ensures size { result.size ≡ min (spec.size (tree_of self.now attributes.now)) 18446744073709551615 }
        ensures count { result.count ≡ min (spec.count (tree_of self.now attributes.now)) 18446744073709551615 }
        ensures levels { result.levels ≡ min (spec.levels (tree_of self.now attributes.now)) 18446744073709551615 }
        ensures lawful { IsLawfulBelow (tree_of self.now attributes.now) }
    {
        let rest = attributes.sums();
        match self {
            Body::Array(array) => {
                // Asked so that the proof knows that the array can be made.
                let _items = array.items();
                rest.with_own(array.size())
            }
            Body::Text(text) => rest.with_own(byte_count(text.bytes()).saturating_add(64)),
            Body::Field(parts) | Body::Group(parts) | Body::Composite(parts) => {
                let all = parts.sums().and(rest);
                all.with_own(64)
            }
            Body::Series(parts) => {
                let positions = parts.position_bytes();
                let both = parts.sums().and(rest);
                both.with_own(positions.saturating_add(64))
            }
        }
    }
}
