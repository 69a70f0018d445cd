//! References, attributes, and the parts of fields, groups and series.

ghost use Rattle.std.specs.Prelude.{◌≡◌, ◌||◌, length, pos, false, IfOk, codes};
ghost use Rattle.std.specs.Ordering.{int_eq};
ghost use Rattle.dx_native_lex.specs.Token.{Reads, sees};
ghost use Rattle.dx_native_grammar.specs.Names.{has_attribute, has_label};
ghost use Rattle.dx_native_grammar.specs.Grammar as spec;
ghost use Rattle.dx_native_grammar.specs.Words as words;

use crate::tables::{AttributeTable, ListedSoFar, PartTable};
use dx_base::{Items, NativeKind};
use dx_native_grammar::{Attribute, Body, Content, Given, Label, ListClass, Part};
use dx_native_head::{int, refused};
use dx_native_lex::{
    Cursor, Kind, Named, NativeError, NativeFail, number_misfit, number_of, unquoted,
};
use std::alloc::Global;

#[tactic(auto, unfolding(dx_native_grammar::specs::Grammar::value_reference))]
fn value_reference(alloc: Global, cursor: &mut Cursor<'_>) -> Result<Named, NativeFail>
    ensures { Reads (spec.value_reference.read cursor.old) result cursor.new }
{
    cursor.key(b"value")?;
    if cursor.sees(b"file") {
        return Err(refused(NativeKind::OtherFile, cursor.peek().at));
    }
    cursor.named(alloc)
}

#[tactic(auto, unfolding(dx_native_grammar::specs::Grammar::reference))]
fn reference(alloc: Global, cursor: &mut Cursor<'_>) -> Result<Named, NativeFail>
    ensures { Reads (spec.reference.read cursor.old) result cursor.new }
{
    if cursor.sees(b"value") {
        value_reference(alloc, cursor)
    } else {
        cursor.named(alloc)
    }
}

#[tactic(auto, unfolding(dx_native_grammar::specs::Grammar::text_value))]
fn text_value(alloc: Global, cursor: &mut Cursor<'_>) -> Result<Given, NativeFail>
    ensures { Reads (spec.text_value.read cursor.old) result cursor.new }
{
    cursor.key(b"string")?;
    let t = cursor.quoted(alloc)?;
    Ok(Given::Text(t.text))
}

#[tactic(auto, unfolding(dx_native_grammar::specs::Grammar::number_value))]
fn number_value(cursor: &mut Cursor<'_>) -> Result<Given, NativeFail>
    ensures { Reads (spec.number_value.read cursor.old) result cursor.new }
{
    cursor.key(b"number")?;
    let n = int(cursor)?;
    Ok(Given::Number(n))
}

#[tactic(auto, unfolding(dx_native_grammar::specs::Grammar::object_value))]
fn object_value(alloc: Global, cursor: &mut Cursor<'_>) -> Result<Given, NativeFail>
    ensures { Reads (spec.object_value.read cursor.old) result cursor.new }
{
    let r = reference(alloc, cursor)?;
    Ok(Given::Object(r))
}

#[tactic(auto, unfolding(dx_native_grammar::specs::Grammar::attribute_value))]
fn attribute_value(alloc: Global, cursor: &mut Cursor<'_>) -> Result<Given, NativeFail>
    ensures { Reads (spec.attribute_value.read cursor.old) result cursor.new }
{
    if cursor.sees(b"string") {
        text_value(alloc, cursor)
    } else if cursor.sees(b"number") {
        number_value(cursor)
    } else {
        object_value(alloc, cursor)
    }
}

pub fn repeated(stands: bool, at: u64) -> Option<NativeError>
    ensures { result ≡ words.repeated stands at }
{
    if stands {
        return Some(NativeError {
            kind: NativeKind::Syntax,
            at,
        });
    }
    None
}

#[tactic(auto, unfolding(dx_native_grammar::specs::Grammar::attribute))]
fn attribute(
    alloc: Global,
    cursor: &mut Cursor<'_>,
    found: &AttributeTable,
) -> Result<Attribute, NativeFail>
    ensures read { Reads ((spec.attribute found.now).read cursor.old) result cursor.new }
    ensures fresh { IfOk result (λ a. has_attribute a.name found.now ≡ false) }
{
    cursor.key(b"attribute")?;
    let n = cursor.quoted(alloc)?;
    if let Some(fault) = repeated(found.has(&n.text), n.at) {
        return Err(NativeFail::Refused(fault));
    }
    let value = attribute_value(alloc, cursor)?;
    Ok(Attribute {
        name: n.text,
        value,
    })
}

#[tactic(auto, unfolding(dx_native_grammar::specs::Grammar::next_attribute))]
fn next_attribute(
    alloc: Global,
    cursor: &mut Cursor<'_>,
    found: AttributeTable,
) -> Result<AttributeTable, NativeFail>
    ensures { Reads ((spec.next_attribute found).read cursor.old) result cursor.new }
{
    let a = attribute(alloc, cursor, &found)?;
    Ok(found.with(alloc, a)?)
}

fn attribute_table(alloc: Global, cursor: &mut Cursor<'_>) -> Result<AttributeTable, NativeFail>
    ensures { Reads (spec.attributes.read cursor.old) result cursor.new }
{
    let mut found = AttributeTable::new(alloc);
    while cursor.sees(b"attribute") {
        found = next_attribute(alloc, cursor, found)?;
    }
    Ok(found)
}

/// Attributes, as many as there are.
pub fn attributes(alloc: Global, cursor: &mut Cursor<'_>) -> Result<Items<Attribute>, NativeFail>
    ensures { Reads (spec.attributes.read cursor.old) result cursor.new }
{
    Ok(attribute_table(alloc, cursor)?.into_items())
}

#[tactic(auto, unfolding(dx_native_grammar::specs::Grammar::component))]
fn component(alloc: Global, cursor: &mut Cursor<'_>, found: &PartTable) -> Result<Part, NativeFail>
    ensures read { Reads ((spec.component found.now).read cursor.old) result cursor.new }
    ensures fresh { IfOk result (λ p. has_label p.name found.now ≡ false) }
{
    cursor.key(b"component")?;
    let n = cursor.quoted(alloc)?;
    if let Some(fault) = repeated(found.has(&n.text), n.at) {
        return Err(NativeFail::Refused(fault));
    }
    let target = reference(alloc, cursor)?;
    Ok(Part {
        name: Some(n.text),
        position: 0,
        target,
    })
}

fn is_index(z: i64, count: usize) -> bool
    ensures { result ≡ int_eq z (pos count) }
{
    z as i128 == count as i128
}

/// A token that is the index of the next part.
#[tactic(auto, unfolding(dx_native_grammar::specs::Grammar::index))]
fn index(cursor: &mut Cursor<'_>, count: usize) -> Result<Label, NativeFail>
    ensures { Reads ((spec.index count).read cursor.old) result cursor.new }
{
    let next = cursor.peek();
    match next.kind {
        Kind::Word => match number_of(next.content) {
            Some(z) if is_index(z, count) => {
                cursor.pass(&next);
                Ok(Label {
                    name: None,
                    at: next.at,
                })
            }
            _ => Err(NativeFail::Refused(number_misfit(&next))),
        },
        _ => Err(NativeFail::Refused(number_misfit(&next))),
    }
}

/// A token that is a name, or the index of the next part.
#[tactic(auto, unfolding(dx_native_grammar::specs::Grammar::label, dx_native_grammar::specs::Grammar::index))]
fn label(alloc: Global, cursor: &mut Cursor<'_>, count: usize) -> Result<Label, NativeFail>
    ensures { Reads ((spec.label count).read cursor.old) result cursor.new }
{
    let next = cursor.peek();
    match next.kind {
        Kind::Quoted => {
            let name = unquoted(alloc, next.content)?;
            cursor.pass(&next);
            Ok(Label {
                name: Some(name),
                at: next.at,
            })
        }
        _ => index(cursor, count),
    }
}

#[tactic(auto, unfolding(dx_native_grammar::specs::Grammar::member))]
fn member(alloc: Global, cursor: &mut Cursor<'_>, found: &PartTable) -> Result<Part, NativeFail>
    ensures read { Reads ((spec.member found.now).read cursor.old) result cursor.new }
    ensures fresh { IfOk result (λ p. has_label p.name found.now ≡ false) }
{
    cursor.key(b"member")?;
    let l = label(alloc, cursor, found.len())?;
    if let Some(fault) = repeated(found.has_label(&l.name), l.at) {
        return Err(NativeFail::Refused(fault));
    }
    let target = reference(alloc, cursor)?;
    Ok(Part {
        name: l.name,
        position: 0,
        target,
    })
}

#[tactic(auto, unfolding(dx_native_grammar::specs::Grammar::placed))]
fn placed(alloc: Global, cursor: &mut Cursor<'_>, found: &PartTable) -> Result<Part, NativeFail>
    ensures read { Reads ((spec.placed found.now).read cursor.old) result cursor.new }
    ensures fresh { IfOk result (λ p. has_label p.name found.now ≡ false) }
{
    cursor.key(b"member")?;
    index(cursor, found.len())?;
    cursor.key(b"position")?;
    let position = int(cursor)?;
    let target = reference(alloc, cursor)?;
    Ok(Part {
        name: None,
        position,
        target,
    })
}

fn part(
    alloc: Global,
    cursor: &mut Cursor<'_>,
    listing: ListClass,
    found: &PartTable,
) -> Result<Part, NativeFail>
    ensures read { Reads ((spec.part_of listing found.now).read cursor.old) result cursor.new }
    ensures fresh { IfOk result (λ p. has_label p.name found.now ≡ false) }
{
    match listing {
        ListClass::Field => component(alloc, cursor, found),
        ListClass::Group | ListClass::Composite => member(alloc, cursor, found),
        ListClass::Series => placed(alloc, cursor, found),
    }
}

#[tactic(auto, unfolding(dx_native_grammar::specs::Grammar::listed_part))]
fn listed_part(
    alloc: Global,
    cursor: &mut Cursor<'_>,
    listing: ListClass,
    found: ListedSoFar,
) -> Result<ListedSoFar, NativeFail>
    ensures { Reads ((spec.listed_part listing found).read cursor.old) result cursor.new }
{
    let ListedSoFar { parts, attributes } = found;
    let p = part(alloc, cursor, listing, &parts)?;
    let parts = parts.with(alloc, p)?;
    Ok(ListedSoFar { parts, attributes })
}

#[tactic(auto, unfolding(dx_native_grammar::specs::Grammar::listed_attribute))]
fn listed_attribute(
    alloc: Global,
    cursor: &mut Cursor<'_>,
    found: ListedSoFar,
) -> Result<ListedSoFar, NativeFail>
    ensures { Reads ((spec.listed_attribute found).read cursor.old) result cursor.new }
{
    let ListedSoFar { parts, attributes } = found;
    let a = attribute(alloc, cursor, &attributes)?;
    let attributes = attributes.with(alloc, a)?;
    Ok(ListedSoFar { parts, attributes })
}

fn part_word(listing: ListClass) -> &'static [u8]
    ensures { result.now ≡ words.part_word listing }
{
    match listing {
        ListClass::Field => b"component",
        ListClass::Group | ListClass::Composite | ListClass::Series => b"member",
    }
}

#[tactic(auto, unfolding(dx_native_grammar::specs::Grammar::listed_next))]
fn listed_next(
    alloc: Global,
    cursor: &mut Cursor<'_>,
    listing: ListClass,
    found: ListedSoFar,
) -> Result<ListedSoFar, NativeFail>
    ensures { Reads ((spec.listed_next listing found).read cursor.old) result cursor.new }
{
    if cursor.sees(part_word(listing)) {
        listed_part(alloc, cursor, listing, found)
    } else {
        listed_attribute(alloc, cursor, found)
    }
}

fn sees_listed(cursor: &Cursor<'_>, listing: ListClass) -> bool
    ensures { result ≡ sees (words.part_word listing) cursor.now || sees (codes "attribute") cursor.now }
{
    cursor.sees(part_word(listing)) || cursor.sees(b"attribute")
}

fn listed(
    alloc: Global,
    cursor: &mut Cursor<'_>,
    listing: ListClass,
) -> Result<ListedSoFar, NativeFail>
    ensures { Reads ((spec.listed listing).read cursor.old) result cursor.new }
{
    let mut found = ListedSoFar {
        parts: PartTable::new(alloc),
        attributes: AttributeTable::new(alloc),
    };
    while sees_listed(cursor, listing) {
        found = listed_next(alloc, cursor, listing, found)?;
    }
    Ok(found)
}

fn class_word(listing: ListClass) -> &'static [u8]
    ensures { result.now ≡ spec.class_word listing }
{
    match listing {
        ListClass::Field => b"field",
        ListClass::Group => b"group",
        ListClass::Composite => b"compositefield",
        ListClass::Series => b"series",
    }
}

/// A field, a group, a composite group or a series from its class word on.
#[tactic(auto, unfolding(dx_native_grammar::specs::Grammar::listing_content))]
pub fn listing_content(
    alloc: Global,
    cursor: &mut Cursor<'_>,
    listing: ListClass,
) -> Result<Content, NativeFail>
    ensures { Reads ((spec.listing_content listing).read cursor.old) result cursor.new }
{
    cursor.key(class_word(listing))?;
    let l = listed(alloc, cursor, listing)?;
    Ok(Content {
        body: Body::Parts(listing, l.parts.into_items()),
        attributes: l.attributes.into_items(),
    })
}

/// A text from its class word on.
#[tactic(auto, unfolding(dx_native_grammar::specs::Grammar::text))]
pub fn text(alloc: Global, cursor: &mut Cursor<'_>) -> Result<Content, NativeFail>
    ensures { Reads (spec.text.read cursor.old) result cursor.new }
{
    cursor.key(b"string")?;
    let t = cursor.quoted(alloc)?;
    let attributes = attributes(alloc, cursor)?;
    Ok(Content {
        body: Body::Text(t.text),
        attributes,
    })
}
