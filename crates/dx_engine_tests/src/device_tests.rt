//! Executions that are cut short by a device or for want of memory, and the same execution behind that.
ghost use Rattle.dx_engine.specs.Keeping.{StateFits};

use crate::executed::{Failing, NONE};
use crate::rows::execute_text;
use dx_engine::State;
use std::alloc::{AllocError, Global};
use std::test::Fail;

/// It links a number.
const BEFORE: &str = "SetGlobal(9, \"n\");";

/// What is seen of it.
const LINKED: &str = "ok\n0 runs, 1 links, 0 used\n";

/// An execution with three writes, two reads, two puts, a link and three results, and the macro that makes it.
const MACRO: &str =
    "macro m() { Echo(1); Export(Import(\"i\"), \"o\"); SetGlobal(Compute(\"1 + 1\"), \"n\"); Echo(Import(\"j\"), GetGlobal(0, \"n\")); Export(3, \"p\"); Echo(2); }";

/// What is seen of it behind the one that links a number, where there is room for one result.
const WHOLE: &str = "1
8 9
2
put o
object 1 class array type int rank 0 items 1 data follows
7
end
put p
object 1 class array type int rank 0 items 1 data follows
3
end
ok
read i
read j
trace run m:1/Import:1
trace keep m:1/Import:1 68
trace run m:1/Compute:1
trace drop m:1/Import:1
trace keep m:1/Compute:1 68
trace run m:1/Import:2
trace drop m:1/Compute:1
trace keep m:1/Import:2 68
3 runs, 1 links, 68 used
";

/// The read, the write or the put that fails, and what is seen of the execution.
type Cut = (Failing, &'static str);

const CUTS: [Cut; 7] = [
    (
        Failing { read: 1, ..NONE },
        "1
read fault
read i
0 runs, 1 links, 0 used
",
    ),
    (
        Failing { read: 2, ..NONE },
        "1
read fault
read i
read j
2 runs, 1 links, 0 used
",
    ),
    (
        Failing { write: 1, ..NONE },
        "write fault
0 runs, 1 links, 0 used
",
    ),
    (
        Failing { write: 2, ..NONE },
        "1
write fault
read i
read j
3 runs, 1 links, 0 used
",
    ),
    (
        Failing { write: 3, ..NONE },
        "1
8 9
write fault
read i
read j
3 runs, 1 links, 0 used
",
    ),
    (
        Failing { put: 1, ..NONE },
        "1
8 9
2
export fault
read i
read j
3 runs, 1 links, 0 used
",
    ),
    (
        Failing { put: 2, ..NONE },
        "1
8 9
2
put o
object 1 class array type int rank 0 items 1 data follows
7
end
export fault
read i
read j
3 runs, 1 links, 0 used
",
    ),
];

/// Whether this is seen of an execution.
fn is_seen(
    alloc: Global,
    statement: &str,
    fail: Failing,
    state: &mut State,
    expected: &str,
) -> Result<bool, AllocError>
    requires { StateFits state.old }
    ensures { StateFits state.new }
{
    let mut shown = Vec::new(alloc);
    execute_text(alloc, MACRO, statement, fail, state, &mut shown)?;
    Ok(shown.as_slice() == expected.as_bytes())
}

/// Whether this is seen of the execution, and of the same behind it, with all devices in order, what is seen of it alone.
fn goes_on(alloc: Global, cut: Cut, state: &mut State) -> Result<bool, AllocError>
    requires { StateFits state.old }
    ensures { StateFits state.new }
{
    let linked = is_seen(alloc, BEFORE, NONE, state, LINKED)?;
    let seen = is_seen(alloc, "m();", cut.0, state, cut.1)?;
    let whole = is_seen(alloc, "m();", NONE, state, WHOLE)?;
    Ok(linked && seen && whole)
}

fn is_so(alloc: Global, cut: Cut) -> Result<bool, AllocError> {
    let mut state = State::new(alloc, 68);
    goes_on(alloc, cut, &mut state)
}

fn first_miss(alloc: Global, cuts: &[Cut]) -> Result<Option<&'static str>, AllocError> {
    for cut in cuts {
        if !is_so(alloc, *cut)? {
            return Ok(Some(cut.1));
        }
    }
    Ok(None)
}

#[test]
fn each_call_of_a_device_fails_in_turn(rt: HostRuntime) -> Result<(), Fail> {
    match first_miss(rt.alloc(), &CUTS)? {
        None => Ok(()),
        Some(shown) => Err(Fail::from(shown)),
    }
}

/// Whether this is seen of an execution, or of the same behind it where memory ran out in the first.
fn is_seen_in_the_end(
    alloc: Global,
    statement: &str,
    state: &mut State,
    expected: &str,
) -> Result<bool, AllocError>
    requires { StateFits state.old }
    ensures { StateFits state.new }
{
    if is_seen(alloc, statement, NONE, state, expected)? {
        return Ok(true);
    }
    is_seen(alloc, statement, NONE, state, expected)
}

/// Whether the execution is seen whole in the end, behind one that links a number.
fn is_whole_in_the_end(alloc: Global, state: &mut State) -> Result<bool, AllocError>
    requires { StateFits state.old }
    ensures { StateFits state.new }
{
    let linked = is_seen_in_the_end(alloc, BEFORE, state, LINKED)?;
    let seen = is_seen_in_the_end(alloc, "m();", state, WHOLE)?;
    Ok(linked && seen)
}

// Each allocation can be made to fail in turn (`rt try --test --fail-alloc N`). Where memory runs out in an execution, the links
// are those before it, nothing stays cached, and the same execution goes on from there.
#[test]
fn executions_behind_those_without_memory(rt: HostRuntime) -> Result<(), Fail> {
    let mut state = State::new(rt.alloc(), 68);
    let whole = is_whole_in_the_end(rt.alloc(), &mut state)?;
    assert!(rt; whole);
    Ok(())
}
