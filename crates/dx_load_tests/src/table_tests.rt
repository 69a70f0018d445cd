//! The table of functions, called once for each column.

use dx_ast::{function, more, name, named, param, params, results, row_of};
use dx_base::{Effect, Function};
use std::test::Fail;

#[test]
fn table(rt: HostRuntime) -> Result<(), Fail> {
    let print = Function::Effect(Effect::Print);
    let echo = Function::Effect(Effect::Echo);
    assert!(rt; function(b"Print") == Some(print));
    assert!(rt; function(b"Echo") == Some(echo));
    assert!(rt; function(b"print") == None);
    assert!(rt; named(print) == 3);
    assert!(rt; param(print, 2) == b"component".as_slice());
    assert!(rt; param(echo, 0) == b"string".as_slice());
    assert!(rt; more(echo) == 63);
    assert!(rt; results(print) == 0);
    assert!(rt; name(Function::Route) == b"Route".as_slice());
    assert!(rt; params(Function::Switch).len() == 2);
    assert!(rt; row_of(Function::Route).results == 64);
    Ok(())
}
