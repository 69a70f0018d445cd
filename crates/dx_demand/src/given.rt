//! What the values of terms are told by.
use dx_objects::Object;
use dx_tags::ValueTag;

/// Tells the values of terms that were got.
pub trait Given {
    ghost use Rattle.std.specs.Prelude.{◌≡◌, Option, option_map};
    ghost use Rattle.dx_tags.specs.declared.term.ValueTag.{ValueTag};
    ghost use Rattle.dx_meaning.specs.Outcome.{Value};
    ghost use Rattle.dx_demand.specs.Given.{value_behind};

    ghost told: { Self → ValueTag → Option Value };

    /// The value of a term; None exactly where it isn't told.
    fn value(&self, t: ValueTag) -> Option<Option<&Object>>
        ensures { option_map value_behind result ≡ told self.now t };
}
