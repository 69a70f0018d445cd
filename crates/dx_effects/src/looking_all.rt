//! Looking at some arguments in order.
ghost use Rattle.std.specs.Prelude.{◌≡◌, [], All, length, OnOk, IfOk};
ghost use Rattle.dx_io.specs.Devices.{Cause};
ghost use Rattle.dx_graph.specs.Graph.{MayTake};
ghost use Rattle.dx_tags.specs.Closed.{GoesOn};
ghost use Rattle.dx_demand.specs.Terms.{AreExact};
ghost use Rattle.dx_getting.specs.Told.{told};
ghost use Rattle.dx_demand.specs.Memo.{answers_of};
ghost use Rattle.dx_looking.specs.Setting.{nodes_in, sight_in};
ghost use Rattle.dx_looking.specs.Looking.{IsLooking, FromHere};
ghost use Rattle.dx_looking.specs.declared.cut.Cut.TheVariants.{ReadFault};
ghost use Rattle.dx_effects.specs.AllLooking.{AllLookedFit, AllValued, AllHalted, AllLookSo, AllNeedAlike, input_trees};

use crate::looked::AllLooked;
use dx_graph::Input;
use dx_io::Files;
use dx_looking::{Cut, Looked, Progress, Setup, look};
use dx_objects::Library;
use dx_tags::ValueTags;
use std::alloc::{AllocError, Global};

/// No terms, with room for so many.
fn room_for(alloc: Global, count: usize) -> Result<ValueTags, AllocError>
    ensures { IfOk result (λ terms. terms ≡ []) }
{
    ValueTags::with_capacity(alloc, count)
}

/// Looks at some arguments in order, up to the first that forms no term. What is true of looking at one is true of them
/// together. Where all have terms, they are settled with values; where a selector is refused, looking by what is told stops at that of
/// the node, and looking by all values at the same.
pub fn look_all<F: Files, L: Library>(
    inputs: &[Input],
    setup: &Setup,
    at: &mut Progress,
    files: &mut F,
    lib: &mut L,
) -> Result<AllLooked, Cut>
    requires inputs { All (MayTake (nodes_in setup.now) (length (nodes_in setup.now))) inputs.now }
    requires looking { IsLooking setup.now at.old }
    ensures same { F.content files.new ≡ F.content files.old }
    ensures cause { Cause ReadFault (F.faults files.old) (F.faults files.new) result }
    ensures budget { at.new.work.cache.budget ≡ at.old.work.cache.budget }
    ensures looking { OnOk result (IsLooking setup.now at.new) }
    ensures goes_on { GoesOn at.old.tags at.new.tags }
    ensures exact { AreExact at.new.tags }
    ensures fits { IfOk result (λ how. AllLookedFit setup.now (length inputs.now) at.new how) }
    ensures valued { IfOk result (λ how. AllValued (answers_of at.new.seen.memo) inputs.now how) }
    ensures halted { IfOk result (λ how. AllHalted (sight_in setup.now at.new) (nodes_in setup.now) (input_trees setup.now inputs.now) how) }
    ensures looks { FromHere setup.now L.answer (F.content files.old) at.old (told (L.done lib.old) (F.asked files.old)) (λ x k base s f. AllLookSo setup.now x k base (input_trees setup.now inputs.now) s f result at.new (told (L.done lib.new) (F.asked files.new))) }
    ensures alike { FromHere setup.now L.answer (F.content files.old) at.old (told (L.done lib.old) (F.asked files.old)) (λ x k base s f. AllNeedAlike setup.now x k (input_trees setup.now inputs.now) result at.new) }
{
    let mut terms = room_for(setup.alloc, inputs.len())?;
    for i in inputs {
        match look(i, setup, at, files, lib)? {
            Looked::Value(t) => terms.push(t)?,
            Looked::Off => return Ok(AllLooked::Off),
            Looked::Halt(n, code) => return Ok(AllLooked::Halt(n, code)),
            Looked::Refused(n, refusal) => return Ok(AllLooked::Refused(n, refusal)),
        }
    }
    Ok(AllLooked::Terms(terms))
}
