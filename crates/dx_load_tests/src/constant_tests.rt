//! Constants are shared, and compared by what they say, wherever their lists stand.

use dx_ast::{Const, Ints};
use std::alloc::Global;
use std::test::Fail;

fn list(alloc: Global, numbers: &[i32]) -> Result<Const, Fail> {
    Ok(Const::Ints(Ints::from_vec(alloc, Vec::from_slice(alloc, numbers)?)?))
}

#[test]
fn constants_are_equal_by_content(rt: HostRuntime) -> Result<(), Fail> {
    let alloc = rt.alloc();
    let first = list(alloc, &[1, 2])?;
    assert!(rt; first.share()? == first);
    assert!(rt; first == list(alloc, &[1, 2])?);
    assert!(rt; first != list(alloc, &[1, 3])?);
    assert!(rt; first != Const::Int(1));
    Ok(())
}
