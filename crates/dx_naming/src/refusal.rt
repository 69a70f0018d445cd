//! The call that an error names.
ghost use Rattle.std.specs.Prelude.{◌≡◌, ◌<◌, Some, length, IfOk};
ghost use Rattle.dx_graph.specs.Graph.{node_at};
ghost use Rattle.dx_tags.specs.Closed.{heads_of};
ghost use Rattle.dx_tags.specs.declared.term.ValueTag.{ValueTag};
ghost use Rattle.dx_getting.specs.Stands.{IsCall, call_at};
ghost use Rattle.dx_meaning.specs.Met.{all_met};
ghost use Rattle.dx_demand.specs.Memo.{answers_of, selector_of};
ghost use Rattle.dx_demand.specs.Calling.{AreValued, node_met};
ghost use Rattle.dx_demand.specs.Halting.{selector_calls};
ghost use Rattle.dx_looking.specs.Setting.{nodes_in, sight_in};
ghost use Rattle.dx_looking.specs.Looking.{IsLooking};
ghost use Rattle.dx_naming.specs.Naming.{StandsWhere};

use crate::call::{call_among, call_under};
use crate::place::place_of_selector;
use dx_looking::{Progress, Refusal, Setup};
use std::alloc::AllocError;

/// The node of the call that the error names, where an argument of node number n is refused: it stands where the first call with
/// the refused term does that the data of the node's inputs meets. Each input was resolved to a value.
pub fn node_of_refusal(
    n: u32,
    refusal: Refusal,
    setup: &Setup,
    at: &Progress,
) -> Result<u32, AllocError>
    requires node { n < length (nodes_in setup.now) }
    requires valued { AreValued (answers_of at.now.seen.memo) (node_at (nodes_in setup.now) n).inputs (length (node_at (nodes_in setup.now) n).inputs) }
    requires looking { IsLooking setup.now at.now }
    ensures within { IfOk result (λ m. m < length (nodes_in setup.now)) }
    ensures names { IsCall at.now.tags refusal.tag → IfOk result (λ m. StandsWhere (nodes_in setup.now) (all_met (node_met (sight_in setup.now at.now) (nodes_in setup.now) n)) (call_at (heads_of at.now.tags) refusal.tag) m) }
{
    let node = setup.graph.node(n);
    match call_among(node.inputs.as_slice(), refusal.tag, setup, at)? {
        Some(m) => Ok(m),
        None => Ok(n),
    }
}

/// The node of the call that the error names, where the selector of node number n is refused: it stands where the first call with
/// the refused term does that the data of the selector meets. The selector was resolved to a value.
pub fn node_of_selector(
    n: u32,
    refusal: Refusal,
    setup: &Setup,
    at: &Progress,
) -> Result<u32, AllocError>
    requires node { n < length (nodes_in setup.now) }
    requires selects { (t : ValueTag) × (selector_of at.now.seen.memo n ≡ Some t) }
    requires looking { IsLooking setup.now at.now }
    ensures within { IfOk result (λ m. m < length (nodes_in setup.now)) }
    ensures names { IsCall at.now.tags refusal.tag → IfOk result (λ m. StandsWhere (nodes_in setup.now) (selector_calls (sight_in setup.now at.now) (nodes_in setup.now) n) (call_at (heads_of at.now.tags) refusal.tag) m) }
{
    let node = setup.graph.node(n);
    let inputs = node.inputs.as_slice();
    let place = place_of_selector(node.what);
    if place < inputs.len() {
        match call_under(&inputs[place], refusal.tag, setup, at)? {
            Some(m) => Ok(m),
            None => Ok(n),
        }
    } else {
        Ok(n)
    }
}
