//! What an execution leaves, made before its first put, so that nothing but a put can fail from there on.
ghost use Rattle.std.specs.Prelude.{◌≡◌, [], IfOk, if◌then◌else◌};
ghost use Rattle.dx_demand.specs.Forming.{named_terms};
ghost use Rattle.dx_performing.specs.Kept.{is_full as terms_full};
ghost use Rattle.dx_engine.specs.Leaving.{PreparedSo, PreparedReady, links_behind};

use dx_ending::{InPlace, is_full, prepare_in_place};
use dx_getting::Bound;
use dx_links::{Changes, Links};
use dx_tags::Tags;
use std::alloc::{AllocError, Global};

/// What comes of the links: they stay, they are changed where they are, or an emptying makes these changes.
#[derive(Drop)]
pub(crate) enum Prepared {
    Kept,
    Changed(InPlace),
    Emptied(Changes),
}

// What an execution sets, and nothing behind an error.
fn made(alloc: Global, failed: bool, changes: Changes) -> Changes
    ensures { result ≡ (if failed then [] else changes) }
{
    if failed { Changes::new(alloc) } else { changes }
}

/// Makes room for all that is put in place behind an execution. The links and the values stay as they are.
pub(crate) fn prepare(
    alloc: Global,
    links: &mut Links,
    bound: &mut Bound,
    tags: &Tags,
    failed: bool,
    changes: Changes,
) -> Result<Prepared, AllocError>
    ensures links { links.new.links ≡ links.old.links }
    ensures held { links.new.held ≡ links.old.held }
    ensures pairs { bound.new.pairs ≡ bound.old.pairs }
    ensures counts { bound.new.counts ≡ bound.old.counts }
    ensures from { bound.new.from ≡ bound.old.from }
    ensures prepared { IfOk result (λ prepared. PreparedSo links.old.links changes (terms_full (named_terms tags.now)) (links_behind links.old.links failed changes) prepared) }
    ensures ready { IfOk result (λ prepared. PreparedReady links.new bound.new prepared) }
{
    let changes = made(alloc, failed, changes);
    if is_full(tags) {
        links.reserve_emptying(changes.len())?;
        return Ok(Prepared::Emptied(changes));
    }
    if changes.is_empty() {
        return Ok(Prepared::Kept);
    }
    Ok(Prepared::Changed(prepare_in_place(alloc, links, bound, changes)?))
}
