//! Resolving an input by what is told so far.
ghost use Rattle.std.specs.Prelude.{◌≡◌, length, OnOk, IfOk};
ghost use Rattle.std.specs.Map.{lookup};
ghost use Rattle.dx_graph.specs.Graph.{MayTake};
ghost use Rattle.dx_tags.specs.contracts.term.ValueTagPartialEq.TheImpl as tags;
ghost use Rattle.dx_tags.specs.Closed.{GoesOn};
ghost use Rattle.dx_demand.specs.Terms.{AreExact};
ghost use Rattle.dx_meaning.specs.Forming.{forms, after};
ghost use Rattle.dx_meaning.specs.Scan.{scan};
ghost use Rattle.dx_demand.specs.Memo.{KeepsAnswers, answers_of, formed_of};
ghost use Rattle.dx_demand.specs.Calling.{ResolvedValued};
ghost use Rattle.dx_demand.specs.Found.{Kept, ResolvedFound};
ghost use Rattle.dx_demand.specs.Forming.{formings};
ghost use Rattle.dx_demand.specs.Halting.{HaltsAt};
ghost use Rattle.dx_demand.specs.Steps.{KeepsSelectors, ResolvedFits, shown_resolved};
ghost use Rattle.dx_looking.specs.Setting.{nodes_in, sight_in};
ghost use Rattle.dx_looking.specs.Looking.{IsLooking, input_tree};

use crate::progress::Progress;
use crate::setup::Setup;
use dx_demand::{Resolved, resolve};
use dx_graph::Input;
use std::alloc::AllocError;

/// What an input comes to by the values that are told.
pub(crate) fn resolve_told(
    i: &Input,
    setup: &Setup,
    at: &mut Progress,
) -> Result<Resolved, AllocError>
    requires input { MayTake (nodes_in setup.now) (length (nodes_in setup.now)) i.now }
    requires looking { IsLooking setup.now at.old }
    ensures told { at.new.told ≡ at.old.told }
    ensures work { at.new.work ≡ at.old.work }
    ensures looking { OnOk result (IsLooking setup.now at.new) }
    ensures goes_on { GoesOn at.old.tags at.new.tags }
    ensures exact { AreExact at.new.tags }
    ensures kept { OnOk result (KeepsSelectors at.old.seen.memo at.new.seen.memo) }
    ensures answers { OnOk result (KeepsAnswers (answers_of at.old.seen.memo) (answers_of at.new.seen.memo)) }
    ensures valued { IfOk result (λ r. ResolvedValued (answers_of at.new.seen.memo) i.now r) }
    ensures first { OnOk result (Kept (formed_of at.old.seen.memo) (formed_of at.new.seen.memo)) }
    ensures fits { IfOk result (λ r. ResolvedFits (nodes_in setup.now) at.new.tags (λ t. lookup (tags.ghosts.eq t) at.new.told) at.new.seen.memo r) }
    ensures found { IfOk result (λ r. ResolvedFound setup.now.links.now.links at.new.tags (formed_of at.new.seen.memo) r) }
    ensures sight { OnOk result (sight_in setup.now at.new ≡ sight_in setup.now at.old) }
    ensures right { IfOk result (λ r. scan (sight_in setup.now at.new) (input_tree setup.now i.now) ≡ shown_resolved (nodes_in setup.now) at.new.tags r) }
    ensures halted { IfOk result (λ r. HaltsAt (sight_in setup.now at.new) (nodes_in setup.now) i.now r) }
    ensures forms { OnOk result (formings (nodes_in setup.now) at.new.tags at.new.seen.memo ≡ after (forms (sight_in setup.now at.new) (input_tree setup.now i.now)) (formings (nodes_in setup.now) at.old.tags at.old.seen.memo)) }
{
    let resolved = resolve(
        setup.alloc,
        setup.graph,
        i,
        setup.links,
        setup.written,
        &mut at.tags,
        &mut at.seen,
        &at.told,
    )?;
    Ok(resolved)
}
