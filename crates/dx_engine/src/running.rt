//! Performing the effects of an execution in order.
ghost use Rattle.std.specs.Prelude.{◌≡◌, OnOk, IfOk};
ghost use Rattle.dx_io.specs.Devices.{Cause};
ghost use Rattle.dx_base.specs.declared.function.Function.TheVariants as function;
ghost use Rattle.dx_graph.specs.Graph.{node_at, IsEffectNode};
ghost use Rattle.dx_graph.specs.GraphView.{graph_of};
ghost use Rattle.dx_graph.specs.Unfolding.{unfolded};
ghost use Rattle.dx_tags.specs.Closed.{GoesOn};
ghost use Rattle.dx_demand.specs.Terms.{AreExact};
ghost use Rattle.dx_getting.specs.Told.{told};
ghost use Rattle.dx_looking.specs.Looking.{IsLooking, FromHere};
ghost use Rattle.dx_engine.specs.Running.{GatheredFits, RunsSo};
ghost use Rattle.dx_engine.specs.declared.short.Short.TheVariants.{ReadFault, WriteFault};

use crate::gathered::Gathered;
use crate::performing::perform;
use crate::short::Short;
use dx_base::{Effect, Function};
use dx_graph::Graph;
use dx_io::{Files, Sink};
use dx_looking::{Progress, Setup};
use dx_objects::Library;

/// The effect that node number n has.
fn effect_at(g: &Graph, n: u32) -> Effect
    requires { IsEffectNode (graph_of g.now).nodes n }
    ensures { (node_at (graph_of g.now).nodes n).what ≡ function.Effect result }
{
    match g.node(n).what {
        Function::Effect(effect) => effect,
        _ => unreachable!(),
    }
}

/// Performs the effects of the graph in order, up to the first that ends the execution. Texts are printed at once.
///
/// For files that tell their content, links that are right and work that stands where a sound state of the machine is: what was
/// printed, what is to be put and the error are those of the execution as meant, and the work and what is set are the machine's; or
/// it was cut short in one effect, with the text of those before it printed, and a front of its own behind all runs up to it.
pub fn run_effects<F: Files, L: Library, O: Sink>(
    setup: &Setup,
    at: &mut Progress,
    files: &mut F,
    lib: &mut L,
    out: &mut O,
) -> Result<Gathered, Short>
    requires looking { IsLooking setup.now at.old }
    ensures same { F.content files.new ≡ F.content files.old }
    ensures read_cause { Cause ReadFault (F.faults files.old) (F.faults files.new) result }
    ensures write_cause { Cause WriteFault (O.faults out.old) (O.faults out.new) result }
    ensures budget { at.new.work.cache.budget ≡ at.old.work.cache.budget }
    ensures looking { OnOk result (IsLooking setup.now at.new) }
    ensures goes_on { GoesOn at.old.tags at.new.tags }
    ensures exact { AreExact at.new.tags }
    ensures fits { IfOk result (λ gathered. GatheredFits setup.now at.new gathered) }
    ensures runs { FromHere setup.now L.answer (F.content files.old) at.old (told (L.done lib.old) (F.asked files.old)) (λ x k base s f. RunsSo setup.now x k base (unfolded (graph_of setup.now.graph.now)) s f (O.written out.old) result at.new (told (L.done lib.new) (F.asked files.new)) (O.written out.new)) }
{
    let mut gathered = Gathered::new(setup.alloc);
    for n in setup.graph.effects() {
        let effect = effect_at(setup.graph, *n);
        let done = perform(*n, effect, setup, at, files, lib)?;
        let ends = match gathered.take(setup.alloc, done, out) {
            Ok(ends) => ends,
            Err(short) => return Err(short),
        };
        if ends {
            return Ok(gathered);
        }
    }
    Ok(gathered)
}
