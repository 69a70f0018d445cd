//! How many terms may stay.
use dx_ending::is_full;
use dx_tags::{Tags, Term};
use std::test::Fail;

#[test]
fn more_terms_than_may_stay(rt: HostRuntime) -> Result<(), Fail> {
    let mut tags = Tags::new(rt.alloc());
    for n in 0..65536 {
        tags.intern(Term::Held(n))?;
    }
    assert!(rt; !is_full(&tags));
    tags.intern(Term::Held(65536))?;
    assert!(rt; is_full(&tags));
    Ok(())
}
