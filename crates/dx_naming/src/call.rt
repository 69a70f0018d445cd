//! The first call of a term that the data of inputs meets.
ghost use Rattle.std.specs.Prelude.{◌≡◌, ◌<◌, ℕ, All, Some, length, IfOk};
ghost use Rattle.dx_graph.specs.Graph.{MayTake};
ghost use Rattle.dx_graph.specs.Unfolding.{calls_of, trees_of};
ghost use Rattle.dx_tags.specs.Closed.{heads_of};
ghost use Rattle.dx_getting.specs.Stands.{IsCall, call_at};
ghost use Rattle.dx_meaning.specs.Met.{each_met, first_place};
ghost use Rattle.dx_demand.specs.Memo.{answers_of};
ghost use Rattle.dx_demand.specs.Calling.{IsValued, AreValued, input_met};
ghost use Rattle.dx_demand.specs.Searching.{place_of};
ghost use Rattle.dx_demanded.specs.Found.{first_in};
ghost use Rattle.dx_looking.specs.Setting.{nodes_in, sight_in};
ghost use Rattle.dx_looking.specs.Looking.{IsLooking};

use dx_graph::Input;
use dx_looking::{Progress, Setup};
use dx_tags::Tag;
use std::alloc::AllocError;

/// The node of the first call with a term that the data of an input meets; None exactly where there is none.
pub(crate) fn call_under(
    i: &Input,
    tag: Tag,
    setup: &Setup,
    at: &Progress,
) -> Result<Option<u32>, AllocError>
    requires input { MayTake (nodes_in setup.now) (length (nodes_in setup.now)) i.now }
    requires valued { IsValued (answers_of at.now.seen.memo) i.now }
    requires looking { IsLooking setup.now at.now }
    ensures within { IfOk result (λ found. (m : ℕ) → found ≡ Some m → m < length (nodes_in setup.now)) }
    ensures first { IsCall at.now.tags tag → IfOk result (λ found. place_of (nodes_in setup.now) found ≡ first_place (input_met (sight_in setup.now at.now) (nodes_in setup.now) i.now) (call_at (heads_of at.now.tags) tag)) }
{
    at.seen.call_of(setup.alloc, setup.graph, i, tag)
}

/// The node of the first call with a term that the data of some inputs meets, in order.
pub(crate) fn call_among(
    inputs: &[Input],
    tag: Tag,
    setup: &Setup,
    at: &Progress,
) -> Result<Option<u32>, AllocError>
    requires inputs { All (MayTake (nodes_in setup.now) (length (nodes_in setup.now))) inputs.now }
    requires valued { AreValued (answers_of at.now.seen.memo) inputs.now (length inputs.now) }
    requires looking { IsLooking setup.now at.now }
    ensures within { IfOk result (λ found. (m : ℕ) → found ≡ Some m → m < length (nodes_in setup.now)) }
    ensures first { IsCall at.now.tags tag → IfOk result (λ found. place_of (nodes_in setup.now) found ≡ first_in (each_met (sight_in setup.now at.now) (trees_of (calls_of (nodes_in setup.now)) inputs.now)) (call_at (heads_of at.now.tags) tag)) }
{
    for i in inputs {
        if let Some(m) = call_under(i, tag, setup, at)? {
            return Ok(Some(m));
        }
    }
    Ok(None)
}
