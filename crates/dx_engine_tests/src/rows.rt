//! Tables of statements that are executed one after the other, and what is seen of them.
ghost use Rattle.dx_engine.specs.Keeping.{StateFits};

use crate::executed::{Failing, NONE, execute};
use crate::script::graph_of;
use dx_engine::State;
use std::alloc::{AllocError, Global};
use std::test::Fail;

/// The budget, the macros and definitions, the statements that are executed, and what is seen of them.
pub type Row = (u64, &'static str, &'static [&'static str], &'static str);

/// Executes a statement by the macros and definitions before it, and writes what is seen of it. These calls of the devices fail.
pub fn execute_text(
    alloc: Global,
    before: &str,
    statement: &str,
    fail: Failing,
    state: &mut State,
    shown: &mut Vec<u8>,
) -> Result<(), AllocError>
    requires { StateFits state.old }
    ensures { StateFits state.new }
{
    match graph_of(alloc, before.as_bytes(), statement.as_bytes())? {
        Some(g) => execute(alloc, &g, fail, state, shown),
        None => shown.extend_from_slice(b"no call\n"),
    }
}

/// Executes statements one after the other, and writes what is seen of them.
pub fn execute_each(
    alloc: Global,
    before: &str,
    statements: &[&str],
    state: &mut State,
    shown: &mut Vec<u8>,
) -> Result<(), AllocError>
    requires { StateFits state.old }
    ensures { StateFits state.new }
{
    'each: for statement in statements {
        execute_text(alloc, before, statement, NONE, state, shown)?;
    }
    Ok(())
}

fn execute_row(alloc: Global, row: Row, shown: &mut Vec<u8>) -> Result<(), AllocError> {
    let mut state = State::new(alloc, row.0);
    execute_each(alloc, row.1, row.2, &mut state, shown)
}

/// Whether a row is what is seen of its statements where nothing is kept before.
fn is_so(alloc: Global, row: Row) -> Result<bool, AllocError> {
    let mut shown = Vec::new(alloc);
    execute_row(alloc, row, &mut shown)?;
    Ok(shown.as_slice() == row.3.as_bytes())
}

/// What is expected of the first row that isn't so.
fn first_miss(alloc: Global, rows: &[Row]) -> Result<Option<&'static str>, AllocError> {
    for row in rows {
        if !is_so(alloc, *row)? {
            return Ok(Some(row.3));
        }
    }
    Ok(None)
}

/// The first row that isn't so is the failure.
pub fn all_are_so(alloc: Global, rows: &[Row]) -> Result<(), Fail> {
    match first_miss(alloc, rows)? {
        None => Ok(()),
        Some(shown) => Err(Fail::from(shown)),
    }
}
