//! The calls that make objects: arrays, texts, fields, groups and series.
ghost use Rattle.std.specs.Prelude.{◌≡◌, ◌&&◌, IfOk, MatchResult, None, Some, false};
ghost use Rattle.dx_base.specs.Object as spec;
ghost use Rattle.dx_base.specs.ObjectLimits.{unplaced, differ, has_good_names as spec_good_names, has_array_components as spec_array_components, has_field_members as spec_field_members, HasNoPositions};
ghost use Rattle.dx_objects.specs.View.{tree_of, IsKept};
ghost use Rattle.dx_objects.specs.declared.makers.ObjectError.TheVariants.{BadNames};
ghost use Rattle.dx_objects.specs.Makes.{Makes, refusal};

use crate::measure::Measure;
use crate::names::{are_all_arrays, are_all_fields, is_none_named};
use crate::object::{Body, NamedParts, Object};
use crate::parts::Parts;
use dx_arrays::Array;
use dx_base::Bytes;
use thiserror::Error;

/// Why no object is made. Where several reasons stand together, the answer is the first of `BadNames`, `NotAnArray`,
/// `MemberNotAField` and `TooLarge`.
#[derive(Clone, Copy, Debug, PartialEq, Eq, Error)]
pub enum ObjectError {
    /// The object has more levels, is more objects or states more bytes than an object may.
    #[error("the object is too large")]
    TooLarge,
    /// A name is missing, stands where there is none, or stands twice.
    #[error("the names of parts are wrong")]
    BadNames,
    /// A component is no array.
    #[error("a component is no array")]
    NotAnArray,
    /// A member of a composite group is no field.
    #[error("a member of a composite group is no field")]
    MemberNotAField,
}

impl Object {
    /// An array.
    #[tactic(auto, using(crate::proofs::OrderLaws::bad_names))]
    pub fn array(a: Array, attrs: Parts) -> Result<Object, ObjectError>
        ensures { Makes (spec.array a (unplaced attrs)) result }
    {
        Object::make(Body::Array(a), attrs.unplaced().named()?)
    }

    /// A text.
    #[tactic(auto, using(crate::proofs::OrderLaws::bad_names))]
    pub fn text(t: Bytes, attrs: Parts) -> Result<Object, ObjectError>
        ensures { Makes (spec.text t (unplaced attrs)) result }
    {
        Object::make(Body::Text(t), attrs.unplaced().named()?)
    }

    /// A field of these components. Positions of components and attributes become 0.
    #[tactic(auto, using(crate::proofs::OrderLaws::field_refused))]
    pub fn field(parts: Parts, attrs: Parts) -> Result<Object, ObjectError>
        ensures { Makes (spec.field (unplaced parts) (unplaced attrs)) result }
    {
        let (parts, attributes) = both_named(parts.unplaced(), attrs.unplaced())?;
        Object::make(Body::Field(parts), attributes)
    }

    /// A group of these members. Positions of members and attributes become 0.
    #[tactic(auto, using(crate::proofs::OrderLaws::group_refused))]
    pub fn group(parts: Parts, attrs: Parts) -> Result<Object, ObjectError>
        ensures { Makes (spec.group (unplaced parts) (unplaced attrs)) result }
    {
        let (parts, attributes) = both_named(parts.unplaced(), attrs.unplaced())?;
        Object::make(Body::Group(parts), attributes)
    }

    /// A composite group of these members, each of which is a field. Positions of members and attributes become 0.
    #[tactic(auto, using(crate::proofs::OrderLaws::composite_refused))]
    pub fn composite(parts: Parts, attrs: Parts) -> Result<Object, ObjectError>
        ensures { Makes (spec.composite (unplaced parts) (unplaced attrs)) result }
    {
        let (parts, attributes) = both_named(parts.unplaced(), attrs.unplaced())?;
        Object::make(Body::Composite(parts), attributes)
    }

    /// A series of these members. Positions of attributes become 0.
    #[tactic(auto, using(crate::proofs::OrderLaws::series_refused))]
    pub fn series(parts: Parts, attrs: Parts) -> Result<Object, ObjectError>
        ensures { Makes (spec.series parts (unplaced attrs)) result }
    {
        let (parts, attributes) = both_named(parts, attrs.unplaced())?;
        Object::make(Body::Series(parts), attributes)
    }

    // The object of this body, where it is one.
    fn make(body: Body, attributes: NamedParts) -> Result<Object, ObjectError>
        requires { HasNoPositions (tree_of body attributes) }
        ensures { Makes (tree_of body attributes) result }
    {
        let measure = body.allowed(&attributes)?;
        Ok(Object {
            body,
            attributes,
            size: measure.size,
            count: measure.count,
            levels: measure.levels,
        })
    }
}

// The parts and the attributes with the orders of their names, or that a name stands twice among one of them.
fn both_named(parts: Parts, attributes: Parts) -> Result<(NamedParts, NamedParts), ObjectError>
    ensures { MatchResult result (λ both. (both.0 ≡ parts) × (both.1 ≡ attributes)) (λ error. (error ≡ BadNames) × (differ parts && differ attributes ≡ false)) }
{
    Ok((parts.named()?, attributes.named()?))
}

impl Body {
    // The measure of the whole object, where it is one.
    fn allowed(&self, attributes: &NamedParts) -> Result<Measure, ObjectError>
        requires { HasNoPositions (tree_of self.now attributes.now) }
        ensures refusal { MatchResult result (λ _. refusal (tree_of self.now attributes.now) ≡ None) (λ error. refusal (tree_of self.now attributes.now) ≡ Some error) }
        ensures kept { IfOk result (λ m. IsKept (tree_of self.now attributes.now) m.size m.count m.levels) }
    {
        if !self.has_good_names(attributes) {
            return Err(ObjectError::BadNames);
        }
        if !self.has_array_components(attributes) {
            return Err(ObjectError::NotAnArray);
        }
        if !self.has_field_members(attributes) {
            return Err(ObjectError::MemberNotAField);
        }
        let measure = self.measure(attributes);
        if !measure.fits() {
            return Err(ObjectError::TooLarge);
        }
        Ok(measure)
    }

    // Whether the names of the parts and attributes are as the kind wants them.
    fn has_good_names(&self, attributes: &NamedParts) -> bool
        ensures { result ≡ spec_good_names (tree_of self.now attributes.now) }
    {
        let are_parts_good = match self {
            Body::Array(_) | Body::Text(_) => true,
            Body::Field(parts) => parts.are_all_named(),
            Body::Group(parts) | Body::Composite(parts) => parts.have_good_names(),
            Body::Series(parts) => is_none_named(parts.as_slice()),
        };
        are_parts_good && attributes.are_all_named()
    }

    fn has_array_components(&self, attributes: &NamedParts) -> bool
        ensures { result ≡ spec_array_components (tree_of self.now attributes.now) }
    {
        match self {
            Body::Field(parts) => are_all_arrays(parts.as_slice()),
            _ => true,
        }
    }

    fn has_field_members(&self, attributes: &NamedParts) -> bool
        ensures { result ≡ spec_field_members (tree_of self.now attributes.now) }
    {
        match self {
            Body::Composite(parts) => are_all_fields(parts.as_slice()),
            _ => true,
        }
    }
}
