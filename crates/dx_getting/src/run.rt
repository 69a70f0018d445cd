//! The run of a call whose inputs are got.
ghost use Rattle.std.specs.Prelude.{◌≡◌, ◌≤◌, ◌++◌, ◌∷◌, Some, None, [], length, nat_eq, OnOk, OnErr};
ghost use Rattle.std.specs.Map.{lookup};
ghost use Rattle.std.specs.Option.{option_copied};
ghost use Rattle.dx_base.specs.Modules.{Takes};
ghost use Rattle.dx_cache.specs.Cached as kept;
ghost use Rattle.dx_io.specs.Devices.{Cause};
ghost use Rattle.dx_links.specs.Denotes.{Around, file_of};
ghost use Rattle.dx_getting.specs.declared.fail.GetFail.TheVariants.{ReadFault};
ghost use Rattle.dx_getting.specs.Told.{told};
ghost use Rattle.dx_getting.specs.Steps.{Runs, Stores, Learns};

use crate::event::Event;
use crate::fail::GetFail;
use crate::file::{own_or_read, read_for};
use crate::keep::{keep, tell};
use crate::known::Known;
use crate::scene::Called;
use crate::work::Work;
use dx_base::{Bytes, Module};
use dx_io::Files;
use dx_objects::{Library, Outs, RunFail};
use dx_tags::{Content, Tag};
use std::alloc::{AllocError, Global};

// A call is known from now on, whose results are shared.
fn learn(alloc: Global, tag: Tag, outs: &Outs, known: &mut Known) -> Result<(), AllocError>
    requires new { lookup (nat_eq tag) known.old.calls ≡ None }
    ensures ok { OnOk result (known.new.calls ≡ known.old.calls ++ (tag, outs.now) ∷ []) }
    ensures err { OnErr result (known.new.calls ≡ known.old.calls) }
{
    let copy = outs.copy(alloc)?;
    known.reserve_one()?;
    known.learn(tag, copy);
    Ok(())
}

/// Runs a call on its inputs and the file that it has; its results are known from then on, and kept as the attribute says.
pub(crate) fn run_call<F: Files, L: Library>(
    alloc: Global,
    tag: Tag,
    module: Module,
    own: Option<&Content>,
    inputs: &Outs,
    called: Called,
    work: &mut Work,
    files: &mut F,
    lib: &mut L,
) -> Result<(), GetFail>
    requires takes { Takes «module» (length inputs.now) }
    requires absent { kept.find tag work.old.cache.entries ≡ None }
    requires new { lookup (nat_eq tag) work.old.known.calls ≡ None }
    requires attribute { called.attribute ≤ 2 }
    requires site { ¬ (called.site ≡ []) }
    ensures same { F.content files.new ≡ F.content files.old }
    ensures cause { Cause ReadFault (F.faults files.old) (F.faults files.new) result }
    ensures budget { work.new.cache.budget ≡ work.old.cache.budget }
    ensures stores { Stores tag work.old.cache.entries work.new.cache.entries }
    ensures learns { Learns tag work.old.known.calls work.new.known.calls }
    ensures runs { (a : Around) → F.content files.old ≡ Some a.file → Runs tag called.site called.attribute (record { run = («module», inputs.now); own = option_copied own.entry }) (L.answer «module» inputs.now (file_of a «module» inputs.now (option_copied own.entry))) result work.old work.new (told (L.done lib.old) (F.asked files.old)) (told (L.done lib.new) (F.asked files.new)) }
{
    let site = Bytes::copy_of(alloc, called.site.bytes())?;
    tell(&mut work.events, Event::Run(site))?;
    let read = read_for(alloc, module, inputs, own, files)?;
    match lib.run(alloc, module, inputs, own_or_read(own, read.as_ref())) {
        Err(RunFail::Code(code)) => Err(GetFail::Refused(tag, code)),
        Err(RunFail::Memory) => Err(GetFail::Memory),
        Ok(outs) => {
            learn(alloc, tag, &outs, &mut work.known)?;
            keep(alloc, tag, called, outs, work)?;
            Ok(())
        }
    }
}
