//! Getting the values of terms that were formed.
ghost use Rattle.std.specs.Prelude.{◌≡◌, List, length, OnOk, IfOk};
ghost use Rattle.dx_io.specs.Devices.{Cause};
ghost use Rattle.dx_macros.specs.Tree.{Trees};
ghost use Rattle.dx_graph.specs.Graph.{Node};
ghost use Rattle.dx_tags.specs.Closed.{heads_of, value_terms};
ghost use Rattle.dx_meaning.specs.Scan.{Sight};
ghost use Rattle.dx_getting.specs.Told.{told};
ghost use Rattle.dx_demand.specs.Terms.{AreArguments};
ghost use Rattle.dx_demand.specs.Memo.{formed_of};
ghost use Rattle.dx_demand.specs.Found.{AllFound};
ghost use Rattle.dx_looking.specs.Looking.{IsLooking, FromHere};
ghost use Rattle.dx_looking.specs.declared.cut.Cut.TheVariants.{ReadFault};
ghost use Rattle.dx_effects.specs.Coming.{ArgumentsFit, ArgumentsHalted, TermsSo};

use crate::came::{Arguments, came_of};
use dx_getting::{Scene, get_all};
use dx_io::Files;
use dx_looking::{Calls, Cut, Progress, Setup};
use dx_objects::Library;
use dx_tags::ValueTags;

/// Gets the values of some terms in order.
pub(crate) fn got_values<F: Files, L: Library>(
    terms: ValueTags,
    setup: &Setup,
    at: &mut Progress,
    files: &mut F,
    lib: &mut L,
) -> Result<Arguments, Cut>
    requires looking { IsLooking setup.now at.old }
    requires arguments { AreArguments at.old.tags terms }
    requires found { AllFound setup.now.links.now.links at.old.tags (formed_of at.old.seen.memo) terms }
    ensures same { F.content files.new ≡ F.content files.old }
    ensures cause { Cause ReadFault (F.faults files.old) (F.faults files.new) result }
    ensures budget { at.new.work.cache.budget ≡ at.old.work.cache.budget }
    ensures tags { at.new.tags ≡ at.old.tags }
    ensures seen { at.new.seen ≡ at.old.seen }
    ensures looking { OnOk result (IsLooking setup.now at.new) }
    ensures fits { IfOk result (λ how. ArgumentsFit setup.now (length terms) at.new how) }
    ensures looked { (s : Sight) (nodes : List Node) (ts : Trees) → IfOk result (λ how. ArgumentsHalted s nodes ts how) }
    ensures comes { FromHere setup.now L.answer (F.content files.old) at.old (told (L.done lib.old) (F.asked files.old)) (λ x k base s f. TermsSo setup.now x k base (value_terms (heads_of at.old.tags) terms) s f result at.new (told (L.done lib.new) (F.asked files.new))) }
{
    let scene = Scene {
        alloc: setup.alloc,
        tags: &at.tags,
        links: setup.bound,
        held: setup.links,
    };
    let calls = Calls {
        graph: setup.graph,
        seen: &at.seen,
    };
    let got = get_all(terms.as_slice(), &scene, &calls, &mut at.work, files, lib);
    came_of(terms, got)
}
