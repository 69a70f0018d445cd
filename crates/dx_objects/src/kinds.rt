//! What kind an object is, and its content by kind.
ghost use Rattle.std.specs.Prelude.{◌≡◌, ◌≤◌, ◌<◌, None, Some, MatchOption};
ghost use Rattle.dx_base.specs.Object as spec;
ghost use Rattle.dx_base.specs.ObjectLimits.{is_array as spec_is_array, is_field as spec_is_field, IsLawful, max_size, max_count};
ghost use Rattle.dx_objects.specs.Kinds.{kind_of, is_composite as spec_is_composite, text_of, array_of};
ghost use Rattle.dx_objects.specs.Shown.{parts_of};

use crate::object::{Body, Object, Part};
use dx_arrays::Array;

/// What an object is. A composite group is a group.
#[derive(Clone, Copy, Debug, PartialEq, Eq)]
pub enum Kind {
    Array,
    Text,
    Field,
    Group,
    Series,
}

impl Object {
    pub fn kind(&self) -> Kind
        ensures { result ≡ kind_of self.now }
    {
        match &self.body {
            Body::Array(_) => Kind::Array,
            Body::Text(_) => Kind::Text,
            Body::Field(_) => Kind::Field,
            Body::Group(_) | Body::Composite(_) => Kind::Group,
            Body::Series(_) => Kind::Series,
        }
    }

    /// Whether it is a composite group, whose members are all fields.
    pub fn is_composite(&self) -> bool
        ensures { result ≡ spec_is_composite self.now }
    {
        match &self.body {
            Body::Composite(_) => true,
            _ => false,
        }
    }

    pub fn as_array(&self) -> Option<&Array>
        ensures { MatchOption result (array_of self.now ≡ None) (λ a. array_of self.now ≡ Some a.now) }
    {
        match &self.body {
            Body::Array(array) => Some(array),
            _ => None,
        }
    }

    pub fn as_text(&self) -> Option<&[u8]>
        ensures { MatchOption result (text_of self.now ≡ None) (λ b. text_of self.now ≡ Some b.now) }
    {
        match &self.body {
            Body::Text(text) => Some(text.bytes()),
            _ => None,
        }
    }

    /// The components of a field, the members of a group or a series, and no parts of others.
    pub fn parts(&self) -> &[Part]
        ensures { parts_of result.now ≡ spec.parts self.now }
    {
        match &self.body {
            Body::Field(parts)
            | Body::Group(parts)
            | Body::Composite(parts)
            | Body::Series(parts) => parts.as_slice(),
            _ => &[],
        }
    }

    pub fn attributes(&self) -> &[Part]
        ensures { parts_of result.now ≡ spec.attributes self.now }
    {
        self.attributes.as_slice()
    }

    /// Whether it is an array.
    pub fn is_array(&self) -> bool
        ensures { result ≡ spec_is_array self.now }
    {
        match &self.body {
            Body::Array(_) => true,
            _ => false,
        }
    }

    /// Whether it is a field.
    pub fn is_field(&self) -> bool
        ensures { result ≡ spec_is_field self.now }
    {
        match &self.body {
            Body::Field(_) => true,
            _ => false,
        }
    }

    /// The stated size in bytes, in which a part counts each time it occurs.
    pub fn size(&self) -> u64
        ensures size { result ≡ spec.size self.now }
        ensures bounded { result ≤ max_size }
        ensures lawful { IsLawful self.now }
    {
        self.size
    }

    /// How many objects it is with all below it, each counted every time it occurs.
    pub fn count(&self) -> u64
        ensures count { result ≡ spec.count self.now }
        ensures some { 0 < result }
        ensures bounded { result ≤ max_count }
    {
        self.count
    }

    /// One more than the most levels among its parts and attributes.
    pub fn levels(&self) -> u64
        ensures levels { result ≡ spec.levels self.now }
        ensures some { 0 < result }
        ensures bounded { result ≤ 64 }
    {
        self.levels
    }
}
