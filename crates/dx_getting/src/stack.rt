//! Getting a value by a stack of calls in work.
ghost use Rattle.std.specs.Prelude.{◌≡◌, ℕ, ◌<◌, None, OnOk, IfOk, slice_get};
ghost use Rattle.std.specs.Option.{option_copied};
ghost use Rattle.dx_io.specs.Devices.{Cause};
ghost use Rattle.dx_tags.specs.Closed.{heads_of, value_term};
ghost use Rattle.dx_machine.specs.Machine.{State, get};
ghost use Rattle.dx_getting.specs.declared.fail.GetFail.TheVariants.{ReadFault};
ghost use Rattle.dx_getting.specs.Told.{Told, told};
ghost use Rattle.dx_getting.specs.Stands.{World, GetsCall, GetsValue, From, Stands, setting_of, frame_of, LinksDenote, MayGet, MayGetValue};
ghost use Rattle.dx_getting.specs.Steps.{AreCalls};
ghost use Rattle.dx_getting.specs.Stack.{IsToGet, IsStack, IsAway, AreAway, AtHand, Steps, TakesOn, HasInputs, HaveInputs, IsArgument, IsReadyToRun, IsStepped, OnStep, rest_in, rest_of, left_of, lowest};

use crate::fail::GetFail;
use crate::keep::hit;
use crate::run::run_call;
use crate::scene::{Scene, Sites};
use crate::value::{Given, called_at, result_known, value_given};
use crate::work::Work;
use crate::working::{Next, Open, next_of, put_on};
use dx_base::Module;
use dx_io::Files;
use dx_objects::{Library, Outs, Value};
use dx_tags::{Content, ValueTag};
use std::alloc::AllocError;

// The value of a term that needs no run, or none where its call has to run.
fn at_hand<S: Sites>(
    scene: &Scene,
    t: ValueTag,
    sites: &S,
    work: &mut Work,
) -> Result<Option<Value>, AllocError>
    requires may { MayGetValue (setting_of scene.now (S.formed sites.now)) t }
    ensures budget { work.new.cache.budget ≡ work.old.cache.budget }
    ensures calls { AreCalls scene.now.tags.now work.old.cache.entries → AreCalls scene.now.tags.now work.new.cache.entries }
    ensures above { (u : ℕ) → t.tag < u → IsAway work.old u → IsAway work.new u }
    ensures none { IfOk result (λ v. v ≡ None → IsAway work.new t.tag × (IsToGet (setting_of scene.now (S.formed sites.now)) t)) }
    ensures gets { (files : World) (base now : Told) (s : State) → LinksDenote (setting_of scene.now (S.formed sites.now)) files scene.now.links.now.pairs → Stands (setting_of scene.now (S.formed sites.now)) files work.old base now s → AtHand (setting_of scene.now (S.formed sites.now)) files base t result (get (frame_of (setting_of scene.now (S.formed sites.now)) files work.old.cache.budget) (value_term (heads_of scene.now.tags.now) t) s) work.old work.new now }
{
    match value_given(scene, t)? {
        Given::Ready(value) => Ok(Some(value)),
        Given::ToGet => {
            if work.known.outs(t.tag).is_some() {
                let value = result_known(&work.known, t)?;
                return Ok(Some(value));
            }
            if work.cache.has(t.tag) {
                let called = called_at(scene.alloc, sites, t.tag)?;
                hit(scene.alloc, t.tag, called.site, work)?;
                let value = result_known(&work.known, t)?;
                return Ok(Some(value));
            }
            Ok(None)
        }
    }
}

// Takes an argument of the call on top on: its value is one input more, or a call for it goes on top.
fn take_argument<S: Sites>(
    arg: ValueTag,
    below: &mut Vec<Open>,
    top: &mut Open,
    scene: &Scene,
    sites: &S,
    work: &mut Work,
) -> Result<(), AllocError>
    requires stack { IsStack (setting_of scene.now (S.formed sites.now)) below.old.items top.old }
    requires away { IsAway work.old top.old.wanted.tag × AreAway work.old below.old.items }
    requires arg { IsArgument (setting_of scene.now (S.formed sites.now)) top.old arg }
    ensures budget { work.new.cache.budget ≡ work.old.cache.budget }
    ensures calls { AreCalls scene.now.tags.now work.old.cache.entries → AreCalls scene.now.tags.now work.new.cache.entries }
    ensures above { (u : ℕ) → top.old.wanted.tag < u → IsAway work.old u → IsAway work.new u }
    ensures stepped { OnOk result (IsStepped (setting_of scene.now (S.formed sites.now)) work.new (left_of scene.now.tags.now below.old.items top.old) (lowest below.old.items top.old) below.new.items top.new) }
    ensures gets { (files : World) (base now : Told) (s : State) → LinksDenote (setting_of scene.now (S.formed sites.now)) files scene.now.links.now.pairs → Stands (setting_of scene.now (S.formed sites.now)) files work.old base now s → HasInputs (setting_of scene.now (S.formed sites.now)) files top.old → HaveInputs (setting_of scene.now (S.formed sites.now)) files below.old.items → TakesOn (setting_of scene.now (S.formed sites.now)) files base work.old.cache.budget result (rest_of (frame_of (setting_of scene.now (S.formed sites.now)) files work.old.cache.budget) scene.now.tags.now below.old.items top.old s) below.new.items top.new work.new now }
{
    match at_hand(scene, arg, sites, work)? {
        Some(value) => top.inputs.push(value)?,
        None => put_on(scene.alloc, below, top, arg)?,
    }
    Ok(())
}

// Runs the call on top; its result goes to the call below, or all is done.
fn finish<S: Sites, F: Files, L: Library>(
    module: Module,
    own: Option<&Content>,
    below: &mut Vec<Open>,
    top: &mut Open,
    scene: &Scene,
    sites: &S,
    work: &mut Work,
    files: &mut F,
    lib: &mut L,
) -> Result<bool, GetFail>
    requires stack { IsStack (setting_of scene.now (S.formed sites.now)) below.old.items top.old }
    requires away { IsAway work.old top.old.wanted.tag × AreAway work.old below.old.items }
    requires ready { IsReadyToRun (setting_of scene.now (S.formed sites.now)) top.old «module» (option_copied own) }
    ensures same { F.content files.new ≡ F.content files.old }
    ensures cause { Cause ReadFault (F.faults files.old) (F.faults files.new) result }
    ensures budget { work.new.cache.budget ≡ work.old.cache.budget }
    ensures calls { AreCalls scene.now.tags.now work.old.cache.entries → AreCalls scene.now.tags.now work.new.cache.entries }
    ensures above { (u : ℕ) → top.old.wanted.tag < u → IsAway work.old u → IsAway work.new u }
    ensures stepped { OnStep result (IsStepped (setting_of scene.now (S.formed sites.now)) work.new (left_of scene.now.tags.now below.old.items top.old) (lowest below.old.items top.old) below.new.items top.new) }
    ensures gets { From (setting_of scene.now (S.formed sites.now)) L.answer (F.content files.old) work.old (told (L.done lib.old) (F.asked files.old)) (λ world base s. HasInputs (setting_of scene.now (S.formed sites.now)) world top.old → HaveInputs (setting_of scene.now (S.formed sites.now)) world below.old.items → Steps (setting_of scene.now (S.formed sites.now)) world base work.old.cache.budget (lowest below.old.items top.old) result (rest_of (frame_of (setting_of scene.now (S.formed sites.now)) world work.old.cache.budget) scene.now.tags.now below.old.items top.old s) below.new.items top.new work.new (told (L.done lib.new) (F.asked files.new))) }
{
    let called = called_at(scene.alloc, sites, top.wanted.tag)?;
    run_call(
        scene.alloc,
        top.wanted.tag,
        module,
        own,
        &top.inputs,
        called,
        work,
        files,
        lib,
    )?;
    match below.pop() {
        None => Ok(true),
        Some(under) => {
            let value = result_known(&work.known, top.wanted)?;
            *top = under;
            top.inputs.push(value)?;
            Ok(false)
        }
    }
}

// Takes the call on top on, and says whether all is done.
fn step<S: Sites, F: Files, L: Library>(
    below: &mut Vec<Open>,
    top: &mut Open,
    scene: &Scene,
    sites: &S,
    work: &mut Work,
    files: &mut F,
    lib: &mut L,
) -> Result<bool, GetFail>
    requires stack { IsStack (setting_of scene.now (S.formed sites.now)) below.old.items top.old }
    requires away { IsAway work.old top.old.wanted.tag × AreAway work.old below.old.items }
    ensures same { F.content files.new ≡ F.content files.old }
    ensures cause { Cause ReadFault (F.faults files.old) (F.faults files.new) result }
    ensures budget { work.new.cache.budget ≡ work.old.cache.budget }
    ensures calls { AreCalls scene.now.tags.now work.old.cache.entries → AreCalls scene.now.tags.now work.new.cache.entries }
    ensures above { (u : ℕ) → top.old.wanted.tag < u → IsAway work.old u → IsAway work.new u }
    ensures stepped { OnStep result (IsStepped (setting_of scene.now (S.formed sites.now)) work.new (left_of scene.now.tags.now below.old.items top.old) (lowest below.old.items top.old) below.new.items top.new) }
    ensures gets { From (setting_of scene.now (S.formed sites.now)) L.answer (F.content files.old) work.old (told (L.done lib.old) (F.asked files.old)) (λ world base s. HasInputs (setting_of scene.now (S.formed sites.now)) world top.old → HaveInputs (setting_of scene.now (S.formed sites.now)) world below.old.items → Steps (setting_of scene.now (S.formed sites.now)) world base work.old.cache.budget (lowest below.old.items top.old) result (rest_of (frame_of (setting_of scene.now (S.formed sites.now)) world work.old.cache.budget) scene.now.tags.now below.old.items top.old s) below.new.items top.new work.new (told (L.done lib.new) (F.asked files.new))) }
{
    match next_of(scene.tags, top) {
        Next::Argument(arg) => {
            take_argument(arg, below, top, scene, sites, work)?;
            Ok(false)
        }
        Next::Run(module, own) => finish(module, own, below, top, scene, sites, work, files, lib),
    }
}

// Gets a call whose results are nowhere at hand.
fn work_off<S: Sites, F: Files, L: Library>(
    t: ValueTag,
    scene: &Scene,
    sites: &S,
    work: &mut Work,
    files: &mut F,
    lib: &mut L,
) -> Result<(), GetFail>
    requires may { MayGet (setting_of scene.now (S.formed sites.now)) t.tag }
    requires away { IsAway work.old t.tag }
    ensures same { F.content files.new ≡ F.content files.old }
    ensures cause { Cause ReadFault (F.faults files.old) (F.faults files.new) result }
    ensures budget { work.new.cache.budget ≡ work.old.cache.budget }
    ensures calls { AreCalls scene.now.tags.now work.old.cache.entries → AreCalls scene.now.tags.now work.new.cache.entries }
    ensures gets { From (setting_of scene.now (S.formed sites.now)) L.answer (F.content files.old) work.old (told (L.done lib.old) (F.asked files.old)) (λ world base s. GetsCall (setting_of scene.now (S.formed sites.now)) world base t.tag result (rest_in (frame_of (setting_of scene.now (S.formed sites.now)) world work.old.cache.budget) (heads_of scene.now.tags.now) (slice_get scene.now.tags.now t.tag) 0 s) work.new (told (L.done lib.new) (F.asked files.new))) }
{
    let mut below: Vec<Open> = Vec::new(scene.alloc);
    let mut top = Open {
        wanted: t,
        inputs: Outs::new(scene.alloc),
    };
    'stack: loop {
        if step(&mut below, &mut top, scene, sites, work, files, lib)? {
            return Ok(());
        }
    }
}

/// Gets the value of a term.
///
/// For files that tell their content, links that are right and work that stands where the machine's state is: after Ok
/// the machine went well, and this is what the term denotes; a refusal is the machine's, with the tag of the call that
/// refused; after a fault or want of memory the work was cut short on the machine's way. A fault is answered only where
/// the files' count of faults has risen; with any other answer the count stays.
pub fn get_value<S: Sites, F: Files, L: Library>(
    t: ValueTag,
    scene: &Scene,
    sites: &S,
    work: &mut Work,
    files: &mut F,
    lib: &mut L,
) -> Result<Value, GetFail>
    requires may { MayGetValue (setting_of scene.now (S.formed sites.now)) t }
    ensures same { F.content files.new ≡ F.content files.old }
    ensures cause { Cause ReadFault (F.faults files.old) (F.faults files.new) result }
    ensures budget { work.new.cache.budget ≡ work.old.cache.budget }
    ensures calls { AreCalls scene.now.tags.now work.old.cache.entries → AreCalls scene.now.tags.now work.new.cache.entries }
    ensures gets { From (setting_of scene.now (S.formed sites.now)) L.answer (F.content files.old) work.old (told (L.done lib.old) (F.asked files.old)) (λ world base s. GetsValue (setting_of scene.now (S.formed sites.now)) world base t result (get (frame_of (setting_of scene.now (S.formed sites.now)) world work.old.cache.budget) (value_term (heads_of scene.now.tags.now) t) s) work.new (told (L.done lib.new) (F.asked files.new))) }
{
    match at_hand(scene, t, sites, work)? {
        Some(value) => Ok(value),
        None => {
            work_off(t, scene, sites, work, files, lib)?;
            let value = result_known(&work.known, t)?;
            Ok(value)
        }
    }
}
