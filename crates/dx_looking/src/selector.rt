//! Getting the value of a selector.
ghost use Rattle.std.specs.Prelude.{◌≡◌, None, OnOk, IfOk};
ghost use Rattle.std.specs.Map.{lookup};
ghost use Rattle.dx_io.specs.Devices.{Cause};
ghost use Rattle.dx_tags.specs.contracts.term.ValueTagPartialEq.TheImpl as tags;
ghost use Rattle.dx_tags.specs.Closed.{heads_of, value_term};
ghost use Rattle.dx_machine.specs.Machine.{get};
ghost use Rattle.dx_getting.specs.Told.{told};
ghost use Rattle.dx_demand.specs.Terms.{IsValue};
ghost use Rattle.dx_demand.specs.Memo.{formed_of};
ghost use Rattle.dx_demand.specs.Found.{IsFound};
ghost use Rattle.dx_looking.specs.Looking.{IsLooking, FromHere, HoweverFormed, TellsMore, TellsSo};
ghost use Rattle.dx_looking.specs.declared.cut.Cut.TheVariants.{ReadFault};

use crate::calls::Calls;
use crate::cut::Cut;
use crate::looked::{Refusal, failed};
use crate::progress::Progress;
use crate::setup::Setup;
use dx_getting::{Scene, get_value};
use dx_io::Files;
use dx_objects::Library;
use dx_tags::ValueTag;

/// Gets the value of a selector, which is told from then on, or answers its refusal.
pub(crate) fn tell_selector<F: Files, L: Library>(
    t: ValueTag,
    setup: &Setup,
    at: &mut Progress,
    files: &mut F,
    lib: &mut L,
) -> Result<Option<Refusal>, Cut>
    requires looking { IsLooking setup.now at.old }
    requires value { IsValue at.old.tags t }
    requires found { IsFound setup.now.links.now.links at.old.tags (formed_of at.old.seen.memo) t }
    requires new { lookup (tags.ghosts.eq t) at.old.told ≡ None }
    ensures same { F.content files.new ≡ F.content files.old }
    ensures cause { Cause ReadFault (F.faults files.old) (F.faults files.new) result }
    ensures budget { at.new.work.cache.budget ≡ at.old.work.cache.budget }
    ensures tags { at.new.tags ≡ at.old.tags }
    ensures seen { at.new.seen ≡ at.old.seen }
    ensures tells { IfOk result (λ refused. TellsMore t at.old.told refused at.new.told) }
    ensures looking { OnOk result (IsLooking setup.now at.new) }
    ensures gets { FromHere setup.now L.answer (F.content files.old) at.old (told (L.done lib.old) (F.asked files.old)) (λ x k base s f. HoweverFormed x k f (λ frame. TellsSo setup.now x k base t (get frame (value_term (heads_of at.old.tags) t) s) f result at.new (told (L.done lib.new) (F.asked files.new)))) }
{
    let scene = Scene {
        alloc: setup.alloc,
        tags: &at.tags,
        links: setup.bound,
        held: setup.links,
    };
    let calls = Calls {
        graph: setup.graph,
        seen: &at.seen,
    };
    match get_value(t, &scene, &calls, &mut at.work, files, lib) {
        Ok(value) => {
            at.told.tell(t, value)?;
            Ok(None)
        }
        Err(fail) => failed(fail),
    }
}
