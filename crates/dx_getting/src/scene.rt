//! What stays while terms are got.

use crate::bound::Bound;
use dx_base::Bytes;
use dx_links::Links;
use dx_tags::{Tag, Tags};
use std::alloc::{AllocError, Global};

/// The terms, the values of links by their terms, and the links, which have the values that were held at the last emptying by
/// their numbers.
#[derive(Drop)]
pub struct Scene<'a> {
    pub alloc: Global,
    pub tags: &'a Tags,
    pub links: &'a Bound,
    pub held: &'a Links,
}

/// The site and the cache attribute of the first call that formed a term in this execution.
#[derive(Drop)]
pub struct Called {
    pub site: Bytes,
    pub attribute: u8,
}

/// Which calls were formed. A site's text is made when it is asked for.
pub trait Sites {
    ghost use Rattle.std.specs.Prelude.{◌≡◌, ℕ, List, IfOk, nat_eq};
    ghost use Rattle.std.specs.Map.{lookup};
    ghost use Rattle.dx_getting.specs.declared.scene.Called.{Called};

    /// The tags of the call terms that were formed, each with its first call.
    ghost formed: { Self → List (ℕ × Called) };

    /// The first call that formed the term of a tag, and none exactly where none did.
    fn called(&self, alloc: Global, tag: Tag) -> Result<Option<Called>, AllocError>
        ensures { IfOk result (λ called. called ≡ lookup (nat_eq tag) (formed self.now)) };
}
