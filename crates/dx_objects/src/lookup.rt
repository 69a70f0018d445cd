//! Parts that are looked up by their names.
ghost use Rattle.std.specs.Prelude.{◌≡◌, None, Some, MatchOption};
ghost use Rattle.dx_base.specs.ObjectNames as spec_names;

use crate::object::{Body, Object};
use std::rc::Rc;

impl Object {
    /// The component of this name, and none of an object that is no field.
    pub fn component(&self, name: &[u8]) -> Option<&Rc<Object>>
        ensures { MatchOption result (spec_names.component name.now self.now ≡ None) (λ o. spec_names.component name.now self.now ≡ Some o.now.value) }
    {
        match &self.body {
            Body::Field(parts) => parts.find(name),
            _ => None,
        }
    }

    /// The member of this name, and none of an object that is no group. Members of a series have no names.
    pub fn member(&self, name: &[u8]) -> Option<&Rc<Object>>
        ensures { MatchOption result (spec_names.member name.now self.now ≡ None) (λ o. spec_names.member name.now self.now ≡ Some o.now.value) }
    {
        match &self.body {
            Body::Group(parts) | Body::Composite(parts) => parts.find(name),
            _ => None,
        }
    }

    /// The attribute of this name.
    pub fn attribute(&self, name: &[u8]) -> Option<&Rc<Object>>
        ensures { MatchOption result (spec_names.attribute name.now self.now ≡ None) (λ o. spec_names.attribute name.now self.now ≡ Some o.now.value) }
    {
        self.attributes.find(name)
    }
}
