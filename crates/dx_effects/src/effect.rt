//! The arguments of an effect.
ghost use Rattle.std.specs.Prelude.{◌≡◌, ◌<◌, length, OnOk, IfOk};
ghost use Rattle.dx_io.specs.Devices.{Cause};
ghost use Rattle.dx_graph.specs.Graph.{node_at};
ghost use Rattle.dx_tags.specs.Closed.{GoesOn};
ghost use Rattle.dx_demand.specs.Terms.{AreExact};
ghost use Rattle.dx_getting.specs.Told.{told};
ghost use Rattle.dx_demand.specs.Memo.{answers_of};
ghost use Rattle.dx_looking.specs.Setting.{nodes_in, sight_in};
ghost use Rattle.dx_looking.specs.Looking.{IsLooking, FromHere};
ghost use Rattle.dx_looking.specs.declared.cut.Cut.TheVariants.{ReadFault};
ghost use Rattle.dx_effects.specs.Coming.{ArgumentsAlike, ArgumentsFit, ArgumentsValued, ArgumentsHalted, ArgumentsSo, node_trees};

use crate::came::Arguments;
use crate::looked::AllLooked;
use crate::looking_all::look_all;
use crate::values::got_values;
use dx_io::Files;
use dx_looking::{Cut, Progress, Setup};
use dx_objects::Library;

/// The values of the inputs of node number n: all are looked at in order, and then got in order.
///
/// For files that tell their content, links that are right and work that stands where the machine's state is: what is answered is
/// what the inputs come to by all values, the machine got the selectors and then the values, or stopped at the call that is
/// refused; or the work was cut short on the machine's way. A fault is answered only where the files' count of faults has risen;
/// with any other answer the count stays. Where the value of an input is refused, or all have values, the inputs are settled with
/// values; where a selector is refused, looking by what is told stops at that of the node, and looking by all values at the same.
pub fn arguments_of<F: Files, L: Library>(
    n: u32,
    setup: &Setup,
    at: &mut Progress,
    files: &mut F,
    lib: &mut L,
) -> Result<Arguments, Cut>
    requires node { n < length (nodes_in setup.now) }
    requires looking { IsLooking setup.now at.old }
    ensures same { F.content files.new ≡ F.content files.old }
    ensures cause { Cause ReadFault (F.faults files.old) (F.faults files.new) result }
    ensures budget { at.new.work.cache.budget ≡ at.old.work.cache.budget }
    ensures looking { OnOk result (IsLooking setup.now at.new) }
    ensures goes_on { GoesOn at.old.tags at.new.tags }
    ensures exact { AreExact at.new.tags }
    ensures fits { IfOk result (λ how. ArgumentsFit setup.now (length (node_at (nodes_in setup.now) n).inputs) at.new how) }
    ensures valued { IfOk result (λ how. ArgumentsValued (answers_of at.new.seen.memo) (node_at (nodes_in setup.now) n).inputs how) }
    ensures halted { IfOk result (λ how. ArgumentsHalted (sight_in setup.now at.new) (nodes_in setup.now) (node_trees setup.now n) how) }
    ensures comes { FromHere setup.now L.answer (F.content files.old) at.old (told (L.done lib.old) (F.asked files.old)) (λ x k base s f. ArgumentsSo setup.now x k base (node_trees setup.now n) s f result at.new (told (L.done lib.new) (F.asked files.new))) }
    ensures alike { FromHere setup.now L.answer (F.content files.old) at.old (told (L.done lib.old) (F.asked files.old)) (λ x k base s f. ArgumentsAlike setup.now x k (node_trees setup.now n) result at.new) }
{
    let node = setup.graph.node(n);
    match look_all(node.inputs.as_slice(), setup, at, files, lib) {
        Ok(AllLooked::Terms(terms)) => got_values(terms, setup, at, files, lib),
        Ok(AllLooked::Off) => Ok(Arguments::Off),
        Ok(AllLooked::Halt(m, code)) => Ok(Arguments::Halt(m, code)),
        Ok(AllLooked::Refused(m, refusal)) => Ok(Arguments::SelectorRefused(m, refusal)),
        Err(cut) => Err(cut),
    }
}
