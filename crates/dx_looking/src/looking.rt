//! Looking at an argument.
ghost use Rattle.std.specs.Prelude.{◌≡◌, length, OnOk, IfOk};
ghost use Rattle.dx_io.specs.Devices.{Cause};
ghost use Rattle.dx_graph.specs.Graph.{MayTake};
ghost use Rattle.dx_tags.specs.Closed.{GoesOn};
ghost use Rattle.dx_demand.specs.Terms.{AreExact};
ghost use Rattle.dx_meaning.specs.Scan.{scan};
ghost use Rattle.dx_demand.specs.Memo.{KeepsAnswers, answers_of, formed_of};
ghost use Rattle.dx_getting.specs.Told.{told};
ghost use Rattle.dx_looking.specs.Setting.{nodes_in, sight_in};
ghost use Rattle.dx_demand.specs.Found.{Kept};
ghost use Rattle.dx_looking.specs.Looking.{IsLooking, FromHere, LookedFits, LookedValued, LookedHalted, LooksSo, NeedsAlike, ScansTo, input_tree};
ghost use Rattle.dx_looking.specs.declared.cut.Cut.TheVariants.{ReadFault};

use crate::cut::Cut;
use crate::looked::Looked;
use crate::progress::Progress;
use crate::resolving::resolve_told;
use crate::selector::tell_selector;
use crate::setup::Setup;
use dx_demand::Resolved;
use dx_graph::Input;
use dx_io::Files;
use dx_objects::Library;

/// Looks at an argument: its selectors are got as they are met.
///
/// For files that tell their content, links that are right and work that stands where the machine's state is: what is answered is
/// what looking by all values comes to, the machine got the selectors, and the terms that looking forms are there; or the last
/// selector is refused; or the work was cut short on the machine's way. A fault is answered only where the files' count of faults
/// has risen; with any other answer the count stays. Looking by what is told so far comes to the same. What is settled stays, and
/// what comes to a value is settled. Where a selector is refused, looking by what is told stops at that of the node, and looking by
/// all values at the same.
pub fn look<F: Files, L: Library>(
    i: &Input,
    setup: &Setup,
    at: &mut Progress,
    files: &mut F,
    lib: &mut L,
) -> Result<Looked, Cut>
    requires input { MayTake (nodes_in setup.now) (length (nodes_in setup.now)) i.now }
    requires looking { IsLooking setup.now at.old }
    ensures same { F.content files.new ≡ F.content files.old }
    ensures cause { Cause ReadFault (F.faults files.old) (F.faults files.new) result }
    ensures budget { at.new.work.cache.budget ≡ at.old.work.cache.budget }
    ensures looking { OnOk result (IsLooking setup.now at.new) }
    ensures goes_on { GoesOn at.old.tags at.new.tags }
    ensures exact { AreExact at.new.tags }
    ensures first { OnOk result (Kept (formed_of at.old.seen.memo) (formed_of at.new.seen.memo)) }
    ensures fits { IfOk result (λ how. LookedFits setup.now at.new how) }
    ensures answers { OnOk result (KeepsAnswers (answers_of at.old.seen.memo) (answers_of at.new.seen.memo)) }
    ensures valued { IfOk result (λ how. LookedValued (answers_of at.new.seen.memo) i.now how) }
    ensures sees { IfOk result (λ how. ScansTo (nodes_in setup.now) at.new.tags how (scan (sight_in setup.now at.new) (input_tree setup.now i.now))) }
    ensures halted { IfOk result (λ how. LookedHalted (sight_in setup.now at.new) (nodes_in setup.now) i.now how) }
    ensures looks { FromHere setup.now L.answer (F.content files.old) at.old (told (L.done lib.old) (F.asked files.old)) (λ x k base s f. LooksSo setup.now x k base (input_tree setup.now i.now) s f result at.new (told (L.done lib.new) (F.asked files.new))) }
    ensures alike { FromHere setup.now L.answer (F.content files.old) at.old (told (L.done lib.old) (F.asked files.old)) (λ x k base s f. NeedsAlike setup.now x k (input_tree setup.now i.now) result at.new) }
{
    'look: loop {
        let resolved = resolve_told(i, setup, at)?;
        match resolved {
            Resolved::Value(t) => return Ok(Looked::Value(t)),
            Resolved::Off => return Ok(Looked::Off),
            Resolved::Halt(n, code) => return Ok(Looked::Halt(n, code)),
            Resolved::Need(t, n) => {
                if let Some(refusal) = tell_selector(t, setup, at, files, lib)? {
                    return Ok(Looked::Refused(n, refusal));
                }
            }
        }
    }
}
