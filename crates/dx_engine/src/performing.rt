//! Performing one effect.
ghost use Rattle.std.specs.Prelude.{◌≡◌, ◌<◌, length, OnOk, IfOk, IfErr};
ghost use Rattle.dx_base.specs.declared.function.Function.TheVariants as function;
ghost use Rattle.dx_io.specs.Devices.{Cause};
ghost use Rattle.dx_graph.specs.Graph.{node_at};
ghost use Rattle.dx_tags.specs.Closed.{GoesOn};
ghost use Rattle.dx_demand.specs.Terms.{AreExact};
ghost use Rattle.dx_getting.specs.Told.{told};
ghost use Rattle.dx_demand.specs.Memo.{answers_of};
ghost use Rattle.dx_performing.specs.Acts.{act};
ghost use Rattle.dx_acts.specs.Answers.{AreValues};
ghost use Rattle.dx_looking.specs.Setting.{nodes_in};
ghost use Rattle.dx_looking.specs.Looking.{IsLooking, FromHere};
ghost use Rattle.dx_looking.specs.declared.cut.Cut.TheVariants.{ReadFault};
ghost use Rattle.dx_effects.specs.Coming.{ArgumentsFit, ArgumentsValued};
ghost use Rattle.dx_engine.specs.Answering.{Does, DoneBy, IsShort, done_so, held_so};
ghost use Rattle.dx_engine.specs.Doing.{DoneFits, PerformsSo, place_of_node};

use crate::done::Done;
use dx_acts::{Act, act_of};
use dx_base::Effect;
use dx_effects::{Arguments, arguments_of};
use dx_io::Files;
use dx_links::{Change, Held};
use dx_looking::{Cut, Progress, Setup};
use dx_naming::{node_of_refusal, node_of_selector};
use dx_objects::{Library, Outs, RunFail, Value};
use dx_tags::ValueTags;

/// A value that is set has the tag of the first argument.
fn held_of(value: Value, terms: &ValueTags) -> Option<Held>
    ensures { result ≡ held_so value terms.now }
{
    match value {
        None => None,
        Some(object) => match terms.as_slice() {
            [] => None,
            [tag, ..] => Some(Held::new(object, *tag)),
        },
    }
}

/// An act, by the tags of its arguments.
fn done_of(act: Act, terms: &ValueTags) -> Done
    ensures { result ≡ done_so act terms.now }
{
    match act {
        Act::Prints(text) => Done::Prints(text),
        Act::Puts(name, object) => Done::Puts(name, object),
        Act::Sets(key, value) => Done::Sets(Change {
            key,
            held: held_of(value, terms),
        }),
    }
}

/// What node number n does with the values of its arguments, or the execution ends at it.
fn acted(
    n: u32,
    effect: Effect,
    terms: &ValueTags,
    values: &Outs,
    setup: &Setup,
) -> Result<Done, Cut>
    requires node { n < length (nodes_in setup.now) }
    requires values { AreValues effect values.now }
    ensures short { IfErr result (λ cut. IsShort cut) }
    ensures does { IfOk result (λ done. Does (act effect (place_of_node setup.now n) values.now) terms.now n done) }
{
    match act_of(setup.alloc, setup.graph, n, effect, values) {
        Ok(act) => Ok(done_of(act, terms)),
        Err(RunFail::Code(code)) => Ok(Done::Ends(n, code)),
        Err(RunFail::Memory) => Err(Cut::Memory),
    }
}

/// What node number n does, by what its arguments come to.
fn done_by(
    n: u32,
    effect: Effect,
    how: Arguments,
    setup: &Setup,
    at: &Progress,
) -> Result<Done, Cut>
    requires node { n < length (nodes_in setup.now) }
    requires what { (node_at (nodes_in setup.now) n).what ≡ function.Effect effect }
    requires looking { IsLooking setup.now at.now }
    requires arguments { ArgumentsFit setup.now (length (node_at (nodes_in setup.now) n).inputs) at.now how }
    requires valued { ArgumentsValued (answers_of at.now.seen.memo) (node_at (nodes_in setup.now) n).inputs how }
    ensures short { IfErr result (λ cut. IsShort cut) }
    ensures fits { IfOk result (λ done. DoneFits setup.now at.now done) }
    ensures does { IfOk result (λ done. DoneBy setup.now at.now n effect how done) }
{
    match how {
        Arguments::Values(terms, values) => acted(n, effect, &terms, &values, setup),
        Arguments::Off => Ok(Done::PassedOver),
        Arguments::Halt(m, code) => Ok(Done::Ends(m, code)),
        Arguments::SelectorRefused(m, refusal) => match node_of_selector(m, refusal, setup, at) {
            Ok(halted) => Ok(Done::Ends(halted, refusal.code)),
            Err(_) => Err(Cut::Memory),
        },
        Arguments::Refused(refusal) => match node_of_refusal(n, refusal, setup, at) {
            Ok(refused) => Ok(Done::Ends(refused, refusal.code)),
            Err(_) => Err(Cut::Memory),
        },
    }
}

/// Performs the effect that node number n of the graph is: its arguments are looked at and got, and then it does what it does with
/// their values, or the execution ends at it.
///
/// For files that tell their content, links that are right and work that stands where the machine's state is: what is answered
/// is what the meaning decides, with the site of the error that it names, and the work stands where the machine's course does; or
/// the work was cut short on the machine's way.
pub fn perform<F: Files, L: Library>(
    n: u32,
    effect: Effect,
    setup: &Setup,
    at: &mut Progress,
    files: &mut F,
    lib: &mut L,
) -> Result<Done, Cut>
    requires node { n < length (nodes_in setup.now) }
    requires what { (node_at (nodes_in setup.now) n).what ≡ function.Effect effect }
    requires looking { IsLooking setup.now at.old }
    ensures same { F.content files.new ≡ F.content files.old }
    ensures cause { Cause ReadFault (F.faults files.old) (F.faults files.new) result }
    ensures budget { at.new.work.cache.budget ≡ at.old.work.cache.budget }
    ensures looking { OnOk result (IsLooking setup.now at.new) }
    ensures goes_on { GoesOn at.old.tags at.new.tags }
    ensures exact { AreExact at.new.tags }
    ensures fits { IfOk result (λ done. DoneFits setup.now at.new done) }
    ensures performs { FromHere setup.now L.answer (F.content files.old) at.old (told (L.done lib.old) (F.asked files.old)) (λ x k base s f. PerformsSo setup.now x k base n effect s f result at.new (told (L.done lib.new) (F.asked files.new))) }
{
    match arguments_of(n, setup, at, files, lib) {
        Ok(how) => done_by(n, effect, how, setup, at),
        Err(cut) => Err(cut),
    }
}
