//! Links whose values have terms.
ghost use Rattle.std.specs.Prelude.{◌≡◌, ◌∷◌, [], length, IfOk, OnOk};
ghost use Rattle.dx_tags.specs.declared.term.Term.TheVariants as term;
ghost use Rattle.dx_tags.specs.Closed.{HasMore, IsFormed, NamesHead, head_of, heads_of};
ghost use Rattle.dx_tags.specs.Whole.{IsWhole};
ghost use Rattle.dx_links.specs.LinkMap.{after};
ghost use Rattle.dx_demand.specs.Terms.{AreExact, IsValue};
ghost use Rattle.dx_demand_tests.specs.Linked.{AreLinked};

use dx_base::{Bytes, Module};
use dx_links::{Change, Changes, Held, Key, Links};
use dx_objects::{Object, Parts};
use dx_tags::{Tag, Tags, Term, ValueTag, ValueTags};
use std::alloc::{AllocError, Global};
use std::rc::Rc;

fn named(tags: &mut Tags, t: Term) -> Result<Tag, AllocError>
    requires exact { AreExact tags.old }
    requires formed { IsFormed (heads_of tags.old) (length tags.old) t }
    requires whole { IsWhole (heads_of tags.old) t }
    ensures exact { AreExact tags.new }
    ensures has_more { OnOk result (HasMore tags.old tags.new) }
    ensures named { IfOk result (λ tag. NamesHead tags.new tag (head_of (heads_of tags.old) t)) }
{
    tags.intern(t)
}

/// The term of a value that is held.
fn held_term(tags: &mut Tags, n: u64) -> Result<ValueTag, AllocError>
    requires exact { AreExact tags.old }
    ensures exact { AreExact tags.new }
    ensures has_more { OnOk result (HasMore tags.old tags.new) }
    ensures value { IfOk result (λ t. IsValue tags.new t) }
{
    let tag = named(tags, Term::Held(n))?;
    Ok(ValueTag { tag, result: 0 })
}

/// A call of Collect on one argument.
fn call_term(alloc: Global, tags: &mut Tags, argument: ValueTag) -> Result<ValueTag, AllocError>
    requires exact { AreExact tags.old }
    requires value { IsValue tags.old argument }
    ensures exact { AreExact tags.new }
    ensures has_more { OnOk result (HasMore tags.old tags.new) }
    ensures value { IfOk result (λ t. IsValue tags.new t) }
{
    let mut arguments = ValueTags::new(alloc);
    arguments.push(argument)?;
    let tag = named(tags, Term::Call(Module::Collect, arguments))?;
    Ok(ValueTag { tag, result: 0 })
}

/// The value that a link holds doesn't matter to looking.
fn held(alloc: Global, tag: ValueTag) -> Result<Held, AllocError>
    ensures { IfOk result (λ h. h.tag ≡ tag) }
{
    match Object::text(Bytes::copy_of(alloc, b"")?, Parts::new(alloc)) {
        Ok(object) => Ok(Held::new(Rc::new(alloc, object)?, tag)),
        Err(_) => Err(AllocError),
    }
}

fn put(links: &mut Links, changes: Changes) -> Result<(), AllocError>
    ensures { OnOk result (links.new.links ≡ after links.old.links changes) }
{
    links.reserve(changes.len())?;
    links.commit(changes);
    Ok(())
}

fn link(
    alloc: Global,
    links: &mut Links,
    tags: &Tags,
    key: Key,
    tag: ValueTag,
) -> Result<(), AllocError>
    requires linked { AreLinked tags.now links.old.links }
    requires value { IsValue tags.now tag }
    ensures { OnOk result (AreLinked tags.now links.new.links) }
{
    let held = held(alloc, tag)?;
    let mut changes = Changes::new(alloc);
    changes.push(Change {
        key,
        held: Some(held),
    })?;
    put(links, changes)
}

/// The keys of links whose values are held, in the order of their numbers; a global one has no path.
const HELD: [(Option<&str>, &str); 5] = [
    (None, "k"),
    (Some(""), "k"),
    (Some("m:1"), "k"),
    (None, "#x/GetGlobal:1"),
    (Some(""), "#GetLocal:1"),
];

fn key(alloc: Global, path: Option<&str>, name: &str) -> Result<Key, AllocError> {
    let name = Bytes::copy_of(alloc, name.as_bytes())?;
    match path {
        None => Ok(Key::Global(name)),
        Some(path) => Ok(Key::Local(Bytes::copy_of(alloc, path.as_bytes())?, name)),
    }
}

/// A link whose value is held.
fn link_held(alloc: Global, links: &mut Links, tags: &mut Tags, key: Key) -> Result<(), AllocError>
    requires { AreLinked tags.old links.old.links }
    ensures { OnOk result (AreLinked tags.new links.new.links) }
{
    let number = tags.count();
    let tag = held_term(tags, number)?;
    link(alloc, links, tags, key, tag)
}

/// A link whose value is a result of a call.
fn link_call(alloc: Global, links: &mut Links, tags: &mut Tags, key: Key) -> Result<(), AllocError>
    requires { AreLinked tags.old links.old.links }
    ensures { OnOk result (AreLinked tags.new links.new.links) }
{
    let number = tags.count();
    let argument = held_term(tags, number)?;
    let tag = call_term(alloc, tags, argument)?;
    link(alloc, links, tags, key, tag)
}

/// Links to held values under these keys, and one to a call, whose terms are the first.
pub fn linked(alloc: Global, tags: &mut Tags) -> Result<Links, AllocError>
    requires { AreExact tags.old }
    ensures { IfOk result (λ links. AreLinked tags.new links.links) }
{
    let mut links = Links::new(alloc);
    'keys: for (path, name) in &HELD {
        link_held(alloc, &mut links, tags, key(alloc, *path, name)?)?;
    }
    link_call(alloc, &mut links, tags, key(alloc, None, "c")?)?;
    Ok(links)
}
