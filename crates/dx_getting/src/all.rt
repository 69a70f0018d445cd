//! Getting the values of some terms in order, as those of an effect's arguments.
ghost use Rattle.std.specs.Prelude.{◌≡◌, ℕ, Some, slice_get, length, IfOk};
ghost use Rattle.dx_io.specs.Devices.{Cause};
ghost use Rattle.dx_tags.specs.declared.term.ValueTag.{ValueTag};
ghost use Rattle.dx_tags.specs.Closed.{heads_of, value_terms};
ghost use Rattle.dx_tags.specs.Whole.{HaveNoFile};
ghost use Rattle.dx_machine.specs.Machine.{get_all as spec_get_all};
ghost use Rattle.dx_getting.specs.declared.fail.GetFail.TheVariants.{ReadFault};
ghost use Rattle.dx_getting.specs.Told.{told};
ghost use Rattle.dx_getting.specs.Stands.{From, setting_of, frame_of, MayGetValue};
ghost use Rattle.dx_getting.specs.Steps.{AreCalls};
ghost use Rattle.dx_getting.specs.All.{GetsAll};

use crate::fail::GetFail;
use crate::scene::{Scene, Sites};
use crate::stack::get_value;
use crate::work::Work;
use dx_io::Files;
use dx_objects::{Library, Outs};
use dx_tags::ValueTag;

/// Gets the values of these terms, none of which is a file, in their order, up to the first that is refused. What is true
/// of the getting of one value is true of theirs together.
pub fn get_all<S: Sites, F: Files, L: Library>(
    args: &[ValueTag],
    scene: &Scene,
    sites: &S,
    work: &mut Work,
    files: &mut F,
    lib: &mut L,
) -> Result<Outs, GetFail>
    requires may { (i : ℕ) (arg : ValueTag) → slice_get args.now i ≡ Some arg → MayGetValue (setting_of scene.now (S.formed sites.now)) arg }
    requires plain { HaveNoFile (heads_of scene.now.tags.now) args.now }
    ensures same { F.content files.new ≡ F.content files.old }
    ensures cause { Cause ReadFault (F.faults files.old) (F.faults files.new) result }
    ensures budget { work.new.cache.budget ≡ work.old.cache.budget }
    ensures calls { AreCalls scene.now.tags.now work.old.cache.entries → AreCalls scene.now.tags.now work.new.cache.entries }
    ensures count { IfOk result (λ values. length values ≡ length args.now) }
    ensures gets { From (setting_of scene.now (S.formed sites.now)) L.answer (F.content files.old) work.old (told (L.done lib.old) (F.asked files.old)) (λ world base s. GetsAll (setting_of scene.now (S.formed sites.now)) world base args.now result (spec_get_all (frame_of (setting_of scene.now (S.formed sites.now)) world work.old.cache.budget) (value_terms (heads_of scene.now.tags.now) args.now) s) work.new (told (L.done lib.new) (F.asked files.new))) }
{
    let mut values = Outs::with_capacity(scene.alloc, args.len())?;
    for arg in args {
        let value = get_value(*arg, scene, sites, work, files, lib)?;
        values.push(value)?;
    }
    Ok(values)
}
