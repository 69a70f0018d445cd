//! Links after commits of a few changes and after emptyings, in the order of their keys.
use dx_base::Bytes;
use dx_links::{Change, Changes, Held, HeldRef, Key, Links};
use dx_objects::{Object, Parts};
use dx_tags::ValueTag;
use std::alloc::{AllocError, Global};
use std::rc::Rc;
use std::test::Fail;

// The path and the name of a key, which is global where there is no path, with the tag of what it holds; 0 stands for
// nothing.
type Row = (Option<&'static [u8]>, &'static [u8], u64);

fn key(alloc: Global, row: &Row) -> Result<Key, AllocError> {
    let (path, name, _) = row;
    let name = Bytes::copy_of(alloc, name)?;
    match path {
        None => Ok(Key::Global(name)),
        Some(path) => Ok(Key::Local(Bytes::copy_of(alloc, path)?, name)),
    }
}

fn text(alloc: Global, bytes: &[u8]) -> Result<Rc<Object>, Fail> {
    let text = Object::text(Bytes::copy_of(alloc, bytes)?, Parts::new(alloc))?;
    Ok(Rc::new(alloc, text)?)
}

// A text of the name, or nothing.
fn held(alloc: Global, row: &Row) -> Result<Option<Held>, Fail> {
    let (_, name, tag) = row;
    if *tag == 0 {
        return Ok(None);
    }
    let tag = ValueTag {
        tag: *tag,
        result: 0,
    };
    Ok(Some(Held::new(text(alloc, name)?, tag)))
}

fn change(alloc: Global, row: &Row) -> Result<Change, Fail> {
    let key = key(alloc, row)?;
    Ok(Change {
        key,
        held: held(alloc, row)?,
    })
}

fn changes(alloc: Global, rows: &[Row]) -> Result<Changes, Fail> {
    let mut changes = Changes::new(alloc);
    for row in rows {
        changes.push(change(alloc, row)?)?;
    }
    Ok(changes)
}

// Makes these changes in one commit.
fn commit(alloc: Global, links: &mut Links, rows: &[Row]) -> Result<(), Fail> {
    let changes = changes(alloc, rows)?;
    links.reserve(changes.len())?;
    links.commit(changes);
    Ok(())
}

// Makes these changes at an emptying.
fn empty(alloc: Global, links: &mut Links, rows: &[Row]) -> Result<(), Fail> {
    let changes = changes(alloc, rows)?;
    links.reserve_emptying(changes.len())?;
    links.empty(changes);
    Ok(())
}

// Whether a key of the row with its tag and its own text stands there.
fn is(alloc: Global, found: (&Key, HeldRef<'_>), row: &Row) -> Result<bool, AllocError> {
    let (found, held) = found;
    let key = key(alloc, row)?;
    Ok(*found == key && held.tag.tag == row.2 && held.value.as_text() == Some(row.1))
}

// Whether these links stand there, in this order, and no others.
fn are(alloc: Global, links: &Links, rows: &[Row]) -> Result<bool, AllocError> {
    let mut same = links.len() == rows.len();
    for (i, row) in rows.iter().enumerate() {
        same = i < links.len() && is(alloc, links.at(i), row)? && same;
    }
    Ok(same)
}

fn tag_of(alloc: Global, links: &Links, row: &Row) -> Result<u64, AllocError> {
    let key = key(alloc, row)?;
    Ok(match links.get(&key) {
        None => 0,
        Some(held) => held.tag.tag,
    })
}

// Whether each key holds what its row says.
fn hold(alloc: Global, links: &Links, rows: &[Row]) -> Result<bool, AllocError> {
    let mut same = true;
    for row in rows {
        same = tag_of(alloc, links, row)? == row.2 && same;
    }
    Ok(same)
}

const CHANGES: &[Row] = &[
    (Some(b"a"), b"x", 1),
    (None, b"b", 2),
    (Some(b"a"), b"w", 3),
    (None, b"a", 4),
    (None, b"b", 5),
    (None, b"c", 6),
    (None, b"c", 0),
    (None, b"d", 0),
    (None, b"e", 0),
    (None, b"e", 7),
];

const CHANGED: &[Row] = &[
    (None, b"a", 4),
    (None, b"b", 5),
    (None, b"e", 7),
    (Some(b"a"), b"w", 3),
    (Some(b"a"), b"x", 1),
];

#[test]
fn the_last_change_of_a_key_counts(rt: HostRuntime) -> Result<(), Fail> {
    let mut links = Links::new(rt.alloc());
    commit(rt.alloc(), &mut links, CHANGES)?;
    assert!(rt; are(rt.alloc(), &links, CHANGED)?);
    Ok(())
}

// Global keys stand before local ones, and local ones by their paths and then by their names, byte by byte.
const IN_ORDER: &[Row] = &[
    (None, b"", 1),
    (None, b"Z", 2),
    (None, b"a", 3),
    (None, b"ab", 4),
    (None, b"z", 5),
    (Some(b""), b"a", 6),
    (Some(b"a"), b"z", 7),
    (Some(b"ab"), b"", 8),
    (Some(b"ab"), b"a", 9),
    (Some(b"b"), b"Z", 10),
    (Some(b"b"), b"a", 11),
];

const OTHERS: &[Row] = &[
    (None, b"b", 0),
    (Some(b""), b"", 0),
    (Some(b"a"), b"a", 0),
    (Some(b"abc"), b"a", 0),
    (Some(b"z"), b"z", 0),
];

// Each of these rows in a commit of its own.
fn committed(alloc: Global, rows: &[Row], places: &[usize]) -> Result<Links, Fail> {
    let mut links = Links::new(alloc);
    for place in places {
        if let Some(row) = rows.get(*place) {
            commit(alloc, &mut links, &[*row])?;
        }
    }
    Ok(links)
}

#[test]
fn keys_stand_in_their_order(rt: HostRuntime) -> Result<(), Fail> {
    let links = committed(rt.alloc(), IN_ORDER, &[7, 2, 10, 0, 5, 9, 1, 8, 3, 6, 4])?;
    assert!(rt; are(rt.alloc(), &links, IN_ORDER)?);
    assert!(rt; hold(rt.alloc(), &links, IN_ORDER)?);
    assert!(rt; hold(rt.alloc(), &links, OTHERS)?);
    Ok(())
}

// Whether a value is held by this number, and is this text.
fn is_held(links: &Links, k: usize, text: &[u8]) -> bool {
    match links.value_held(k) {
        None => false,
        Some(value) => value.as_text() == Some(text),
    }
}

// Whether these texts are held by their numbers, and no others.
fn are_held(links: &Links, texts: &[&[u8]]) -> bool {
    let mut same = links.value_held(texts.len()).is_none();
    for (k, text) in texts.iter().enumerate() {
        same = is_held(links, k, text) && same;
    }
    same
}

const BEFORE: &[Row] = &[(None, b"a", 1), (None, b"b", 2), (Some(b"m:1"), b"d", 3)];

const LATER: &[Row] = &[(None, b"b", 0), (Some(b"m:1"), b"d", 4), (None, b"c", 5)];

const EMPTIED: &[Row] = &[(None, b"a", 0), (None, b"c", 1), (Some(b"m:1"), b"d", 2)];

const EMPTIED_HELD: &[&[u8]] = &[b"a", b"c", b"d"];

#[test]
fn at_an_emptying_a_link_gets_the_term_of_its_place(rt: HostRuntime) -> Result<(), Fail> {
    let mut links = Links::new(rt.alloc());
    commit(rt.alloc(), &mut links, BEFORE)?;
    assert!(rt; are(rt.alloc(), &links, BEFORE)? && are_held(&links, &[]));
    empty(rt.alloc(), &mut links, LATER)?;
    assert!(rt; are(rt.alloc(), &links, EMPTIED)? && hold(rt.alloc(), &links, EMPTIED)?);
    assert!(rt; are_held(&links, EMPTIED_HELD));
    Ok(())
}

#[test]
fn a_copy_stays_as_it_was(rt: HostRuntime) -> Result<(), Fail> {
    let mut links = Links::new(rt.alloc());
    commit(rt.alloc(), &mut links, BEFORE)?;
    let copy = links.copy(rt.alloc())?;
    empty(rt.alloc(), &mut links, LATER)?;
    let behind = links.copy(rt.alloc())?;
    empty(rt.alloc(), &mut links, BEHIND)?;
    assert!(rt; are(rt.alloc(), &copy, BEFORE)? && are(rt.alloc(), &behind, EMPTIED)?);
    assert!(rt; are_held(&copy, &[]) && are_held(&behind, EMPTIED_HELD));
    Ok(())
}

#[test]
fn a_copy_has_the_values_held_before_its_links_changed(rt: HostRuntime) -> Result<(), Fail> {
    let mut links = Links::new(rt.alloc());
    commit(rt.alloc(), &mut links, BEFORE)?;
    empty(rt.alloc(), &mut links, LATER)?;
    commit(rt.alloc(), &mut links, BEHIND)?;
    let copy = links.copy(rt.alloc())?;
    empty(rt.alloc(), &mut links, &[])?;
    assert!(rt; are(rt.alloc(), &copy, CHANGED_BEHIND)? && are_held(&copy, EMPTIED_HELD));
    Ok(())
}

// A key before the others, and one that is taken away.
const BEHIND: &[Row] = &[(None, b"A", 7), (Some(b"m:1"), b"d", 0)];

const CHANGED_BEHIND: &[Row] = &[(None, b"A", 7), (None, b"a", 0), (None, b"c", 1)];

#[test]
fn links_keep_their_terms_behind_an_emptying(rt: HostRuntime) -> Result<(), Fail> {
    let mut links = Links::new(rt.alloc());
    commit(rt.alloc(), &mut links, BEFORE)?;
    empty(rt.alloc(), &mut links, LATER)?;
    links.reserve(1)?;
    assert!(rt; are(rt.alloc(), &links, EMPTIED)? && are_held(&links, EMPTIED_HELD));
    commit(rt.alloc(), &mut links, BEHIND)?;
    assert!(rt; are(rt.alloc(), &links, CHANGED_BEHIND)? && are_held(&links, EMPTIED_HELD));
    Ok(())
}

const EMPTIED_AGAIN: &[Row] = &[(None, b"A", 0), (None, b"a", 1), (None, b"c", 2)];

#[test]
fn an_emptying_without_changes_counts_the_places_again(rt: HostRuntime) -> Result<(), Fail> {
    let mut links = Links::new(rt.alloc());
    commit(rt.alloc(), &mut links, BEFORE)?;
    empty(rt.alloc(), &mut links, LATER)?;
    commit(rt.alloc(), &mut links, BEHIND)?;
    empty(rt.alloc(), &mut links, &[])?;
    assert!(rt; are(rt.alloc(), &links, EMPTIED_AGAIN)? && are_held(&links, &[b"A", b"a", b"c"]));
    // And again where the links are settled.
    empty(rt.alloc(), &mut links, &[(None, b"0", 9)])?;
    assert!(rt; are_held(&links, &[b"0", b"A", b"a", b"c"]));
    Ok(())
}
