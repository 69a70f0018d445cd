//! Links that change in place with their values by their terms, and that are emptied.
ghost use Rattle.std.specs.Prelude.{OnOk};
ghost use Rattle.dx_getting.specs.Bound.{IsBound};

use dx_base::Bytes;
use dx_ending::{change_in_place, prepare_in_place};
use dx_getting::Bound;
use dx_links::{Change, Changes, Held, Key, Links};
use dx_objects::{Object, Parts};
use dx_tags::ValueTag;
use std::alloc::Global;
use std::rc::Rc;
use std::test::Fail;

// A global key with a text, which is that of a term, or with nothing any more.
#[derive(Clone, Copy)]
struct Row {
    name: &'static [u8],
    held: Option<(&'static [u8], u64)>,
}

const fn tag(tag: u64) -> ValueTag {
    ValueTag { tag, result: 0 }
}

fn change(alloc: Global, row: Row) -> Result<Change, Fail> {
    let key = Key::Global(Bytes::copy_of(alloc, row.name)?);
    match row.held {
        None => Ok(Change { key, held: None }),
        Some((text, number)) => {
            let object = Object::text(Bytes::copy_of(alloc, text)?, Parts::new(alloc))?;
            let held = Held::new(Rc::new(alloc, object)?, tag(number));
            Ok(Change {
                key,
                held: Some(held),
            })
        }
    }
}

fn changes(alloc: Global, rows: &[Row]) -> Result<Changes, Fail> {
    let mut changes = Changes::new(alloc);
    for row in rows {
        changes.push(change(alloc, *row)?)?;
    }
    Ok(changes)
}

// No links, and no values.
fn nothing(alloc: Global) -> (Links, Bound)
    ensures { IsBound result.0.links result.1 }
{
    (Links::new(alloc), Bound::new(alloc))
}

// Changes links where they are, with their values.
fn change_both(
    alloc: Global,
    links: &mut Links,
    bound: &mut Bound,
    rows: &[Row],
) -> Result<(), Fail>
    requires bound { IsBound links.old.links bound.old }
    ensures bound { OnOk result (IsBound links.new.links bound.new) }
{
    let changes = changes(alloc, rows)?;
    let ready = prepare_in_place(alloc, links, bound, changes)?;
    change_in_place(links, bound, ready);
    Ok(())
}

// Changes links and empties them: their values are held by number, and none by its term.
fn empty_both(alloc: Global, links: &mut Links, bound: &mut Bound, rows: &[Row]) -> Result<(), Fail>
    ensures bound { OnOk result (IsBound links.new.links bound.new) }
{
    let changes = changes(alloc, rows)?;
    links.reserve_emptying(changes.len())?;
    links.empty(changes);
    bound.empty(links.len() as u64);
    Ok(())
}

// Whether a term has this text.
fn is(bound: &Bound, number: u64, text: &[u8]) -> bool {
    match bound.get(tag(number)) {
        None => false,
        Some(object) => object.as_text() == Some(text),
    }
}

const FIRST: [Row; 3] = [
    Row {
        name: b"b",
        held: Some((b"one", 1)),
    },
    Row {
        name: b"a",
        held: Some((b"one", 1)),
    },
    Row {
        name: b"c",
        held: Some((b"two", 2)),
    },
];

const THEN: [Row; 2] = [
    Row {
        name: b"c",
        held: None,
    },
    Row {
        name: b"a",
        held: Some((b"three", 3)),
    },
];

#[test]
fn values_are_found_by_their_terms(rt: HostRuntime) -> Result<(), Fail> {
    let alloc = rt.alloc();
    let (mut links, mut bound) = nothing(alloc);
    change_both(alloc, &mut links, &mut bound, &FIRST)?;
    assert!(rt; is(&bound, 1, b"one") && is(&bound, 2, b"two") && bound.get(tag(3)).is_none());
    change_both(alloc, &mut links, &mut bound, &THEN)?;
    assert!(rt; is(&bound, 1, b"one") && is(&bound, 3, b"three") && bound.get(tag(2)).is_none());
    Ok(())
}

#[test]
fn what_is_prepared_changes_nothing(rt: HostRuntime) -> Result<(), Fail> {
    let alloc = rt.alloc();
    let (mut links, mut bound) = nothing(alloc);
    change_both(alloc, &mut links, &mut bound, &FIRST)?;
    let ready = prepare_in_place(alloc, &mut links, &mut bound, changes(alloc, &THEN)?)?;
    assert!(rt; links.len() == 3 && is(&bound, 2, b"two") && bound.get(tag(3)).is_none());
    change_in_place(&mut links, &mut bound, ready);
    assert!(rt; links.len() == 2 && is(&bound, 3, b"three") && bound.get(tag(2)).is_none());
    Ok(())
}

const REPLACED: [Row; 2] = [
    Row {
        name: b"a",
        held: Some((b"three", 3)),
    },
    Row {
        name: b"d",
        held: Some((b"two", 2)),
    },
];

const TAKEN: [Row; 2] = [
    Row {
        name: b"b",
        held: None,
    },
    Row {
        name: b"c",
        held: None,
    },
];

#[test]
fn links_and_values_change_in_place(rt: HostRuntime) -> Result<(), Fail> {
    let alloc = rt.alloc();
    let (mut links, mut bound) = nothing(alloc);
    change_both(alloc, &mut links, &mut bound, &FIRST)?;
    change_both(alloc, &mut links, &mut bound, &REPLACED)?;
    assert!(rt;
        links.len() == 4
            && is(&bound, 1, b"one")
            && is(&bound, 2, b"two")
            && is(&bound, 3, b"three")
    );
    change_both(alloc, &mut links, &mut bound, &TAKEN)?;
    assert!(rt;
        links.len() == 2
            && is(&bound, 2, b"two")
            && is(&bound, 3, b"three")
            && bound.get(tag(1)).is_none()
    );
    Ok(())
}

// Three changes of one key, and one of another with the text of the first.
const AGAIN: [Row; 4] = [
    Row {
        name: b"a",
        held: Some((b"four", 4)),
    },
    Row {
        name: b"a",
        held: None,
    },
    Row {
        name: b"b",
        held: Some((b"four", 4)),
    },
    Row {
        name: b"a",
        held: Some((b"two", 2)),
    },
];

const ALL_GONE: [Row; 3] = [
    Row {
        name: b"c",
        held: None,
    },
    Row {
        name: b"a",
        held: None,
    },
    Row {
        name: b"b",
        held: None,
    },
];

#[test]
fn a_key_may_change_several_times(rt: HostRuntime) -> Result<(), Fail> {
    let alloc = rt.alloc();
    let (mut links, mut bound) = nothing(alloc);
    change_both(alloc, &mut links, &mut bound, &FIRST)?;
    change_both(alloc, &mut links, &mut bound, &AGAIN)?;
    assert!(rt; links.len() == 3 && is(&bound, 2, b"two") && is(&bound, 4, b"four"));
    assert!(rt; bound.get(tag(1)).is_none() && bound.get(tag(3)).is_none());
    change_both(alloc, &mut links, &mut bound, &ALL_GONE)?;
    assert!(rt; links.len() == 0 && bound.get(tag(2)).is_none() && bound.get(tag(4)).is_none());
    Ok(())
}

// One value more, and one of a term of a held value.
const BEHIND: [Row; 2] = [
    Row {
        name: b"c",
        held: Some((b"two", 7)),
    },
    Row {
        name: b"d",
        held: Some((b"one", 1)),
    },
];

// The number of the term that a link has.
fn term_of(alloc: Global, links: &Links, name: &[u8]) -> Result<Option<u64>, Fail> {
    let key = Key::Global(Bytes::copy_of(alloc, name)?);
    match links.get(&key) {
        None => Ok(None),
        Some(held) => Ok(Some(held.tag.tag)),
    }
}

#[test]
fn held_values_are_not_kept_by_their_terms(rt: HostRuntime) -> Result<(), Fail> {
    let alloc = rt.alloc();
    let (mut links, mut bound) = nothing(alloc);
    change_both(alloc, &mut links, &mut bound, &FIRST)?;
    empty_both(alloc, &mut links, &mut bound, &THEN)?;
    assert!(rt; links.len() == 2 && bound.from() == 2);
    assert!(rt;
        term_of(alloc, &links, b"a")? == Some(0) && term_of(alloc, &links, b"b")? == Some(1)
    );
    assert!(rt;
        bound.get(tag(0)).is_none() && bound.get(tag(1)).is_none() && bound.get(tag(3)).is_none()
    );
    change_both(alloc, &mut links, &mut bound, &BEHIND)?;
    assert!(rt; links.len() == 4 && is(&bound, 7, b"two") && bound.get(tag(1)).is_none());
    assert!(rt;
        term_of(alloc, &links, b"c")? == Some(7) && term_of(alloc, &links, b"d")? == Some(1)
    );
    change_both(alloc, &mut links, &mut bound, &TAKEN)?;
    assert!(rt; links.len() == 2 && bound.get(tag(7)).is_none() && bound.get(tag(1)).is_none());
    Ok(())
}
