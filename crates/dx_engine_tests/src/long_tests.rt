//! Many executions over what one before them left.
ghost use Rattle.dx_engine.specs.Keeping.{StateFits};

use crate::rows::execute_each;
use dx_engine::State;
use std::alloc::{AllocError, Global};
use std::test::Fail;

/// The macro and the definition of the workload, and a macro that also tells the link before it is set.
const CELLS: &str =
    "macro cell(a, b) -> (r) { r = Compute(\"($0 * 31 + $1) % 1000\", a, b); } p = 1; macro m() { Echo(GetGlobal(0, \"s\")); SetGlobal(cell(GetGlobal(0, \"s\"), cell(p, 74)), \"s\"); }";

/// Two executions like those of the workload, and one that has nothing to do with them.
const THREE: [&str; 3] = [
    "SetGlobal(cell(GetGlobal(0, \"s\"), cell(p, 37)), \"s\");",
    "m();",
    "Echo(Import(\"i\"));",
];

/// What is seen of the three the last of a thousand times, where there is room for two results. The link is that of the recurrence
/// behind 1,999 steps, and what the third prints is what it prints where nothing came before.
const LAST: &str = "ok
trace run cell:2/Compute:1
trace drop m:1/cell:1/Compute:1
trace keep cell:2/Compute:1 68
trace run cell:1/Compute:1
trace drop Import:1
trace keep cell:1/Compute:1 68
2 runs, 1 links, 136 used
545
ok
trace run m:1/cell:2/Compute:1
trace drop cell:2/Compute:1
trace keep m:1/cell:2/Compute:1 68
trace run m:1/cell:1/Compute:1
trace drop cell:1/Compute:1
trace keep m:1/cell:1/Compute:1 68
2 runs, 1 links, 136 used
7
ok
read i
trace run Import:1
trace drop m:1/cell:2/Compute:1
trace keep Import:1 68
1 runs, 1 links, 136 used
";

/// Executes the three so many times one after the other, and writes what is seen of them the last time.
fn execute_often(
    alloc: Global,
    count: u32,
    state: &mut State,
    shown: &mut Vec<u8>,
) -> Result<(), AllocError>
    requires { StateFits state.old }
    ensures { StateFits state.new }
{
    'turns: for _ in 0..count {
        shown.clear();
        execute_each(alloc, CELLS, &THREE, state, shown)?;
    }
    Ok(())
}

fn execute_a_thousand_times(alloc: Global, shown: &mut Vec<u8>) -> Result<(), AllocError> {
    let mut state = State::new(alloc, 136);
    execute_often(alloc, 1000, &mut state, shown)
}

#[test]
fn three_thousand_executions(rt: HostRuntime) -> Result<(), Fail> {
    let mut shown = Vec::new(rt.alloc());
    execute_a_thousand_times(rt.alloc(), &mut shown)?;
    assert!(rt; shown.as_slice() == LAST.as_bytes());
    Ok(())
}
