//! When an execution ends with an emptying.
ghost use Rattle.std.specs.Prelude.{◌≡◌};
ghost use Rattle.dx_demand.specs.Forming.{named_terms};
ghost use Rattle.dx_performing.specs.Kept.{is_full};

use dx_tags::Tags;

// So many terms may be formed.
const MAX_TERMS: u64 = 65536;

/// Whether more terms were formed since the last emptying than may stay.
pub fn is_full(tags: &Tags) -> bool
    ensures { result ≡ is_full (named_terms tags.now) }
{
    tags.count() > MAX_TERMS
}
