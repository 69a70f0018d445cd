//! Constants.

ghost use Rattle.std.specs.Prelude.{◌≡◌, ◌∷◌, ◌≤◌, ◌<◌, [], IfOk, OnOk, length, false};
ghost use Rattle.dx_ast.specs.Values as values;
ghost use Rattle.dx_script_grammar.specs.Reading as reading;
ghost use Rattle.dx_cursor.specs.Answers.{Reads};
ghost use Rattle.dx_lists.specs.Lists.{IsShort};

use crate::cursor::{Cursor, fault};
use crate::fail::ParseFail;
use dx_ast::Const;
use dx_base::{Items, Place, SyntaxKind};
use dx_lists::{
    Element, Growing, Numbers, agrees, into_const, ints_const, join, list_of, one, range,
    range_count, text_const, vector_const,
};
use std::alloc::Global;

/// The numbers that a vector may have.
const MAX_NUMBERS: usize = 256;

/// The elements that a list may have.
const MAX_ELEMENTS: usize = 65536;

#[tactic(auto, unfolding(dx_script_grammar::specs::Reading::number))]
fn number(alloc: Global, cursor: &mut Cursor<'_>, found: &Numbers) -> Result<i32, ParseFail>
    requires { length found.now ≤ 256 }
    ensures reads { Reads (reading.number found.now cursor.old) result cursor.new }
    ensures room { OnOk result (length found.now < 256) }
{
    cursor.comma(alloc)?;
    let (place, n) = cursor.int(alloc)?;
    if found.len() == MAX_NUMBERS {
        return Err(ParseFail::Refused(fault(SyntaxKind::Syntax, place)));
    }
    Ok(n)
}

fn numbers(alloc: Global, cursor: &mut Cursor<'_>, first: i32) -> Result<Numbers, ParseFail>
    ensures reads { Reads (reading.numbers (first ∷ []) cursor.old) result cursor.new }
    ensures short { IfOk result (λ numbers. length numbers ≤ 256) }
{
    let mut found = one(alloc, first)?;
    'each: while !cursor.sees(b"]") {
        let n = number(alloc, cursor, &found)?;
        found.push(n)?;
    }
    Ok(found)
}

#[tactic(auto, unfolding(dx_script_grammar::specs::Reading::vector))]
fn vector(alloc: Global, cursor: &mut Cursor<'_>) -> Result<(Place, Numbers), ParseFail>
    ensures reads { Reads (reading.vector cursor.old) result cursor.new }
    ensures short { IfOk result (λ found. length found.1 ≤ 256) }
{
    let place = cursor.sign(alloc, b"[")?;
    let (_, first) = cursor.int(alloc)?;
    let numbers = numbers(alloc, cursor, first)?;
    cursor.sign(alloc, b"]")?;
    Ok((place, numbers))
}

#[tactic(auto, unfolding(dx_script_grammar::specs::Reading::other_element))]
fn other_element(alloc: Global, cursor: &mut Cursor<'_>) -> Result<(Place, Element), ParseFail>
    ensures reads { Reads (reading.other_element cursor.old) result cursor.new }
    ensures short { IfOk result (λ found. IsShort found.1) }
{
    if cursor.sees_text() {
        let (place, text) = cursor.text(alloc)?;
        Ok((place, Element::text(text)))
    } else {
        let (place, numbers) = vector(alloc, cursor)?;
        Ok((place, Element::vector(numbers)))
    }
}

#[tactic(auto, unfolding(dx_script_grammar::specs::Reading::element))]
fn element(alloc: Global, cursor: &mut Cursor<'_>) -> Result<(Place, Element), ParseFail>
    ensures reads { Reads (reading.element cursor.old) result cursor.new }
    ensures short { IfOk result (λ found. IsShort found.1) }
{
    if cursor.sees_int() {
        let (place, n) = cursor.int(alloc)?;
        Ok((place, Element::int(n)))
    } else {
        other_element(alloc, cursor)
    }
}

/// An element more, where so many are found and make this list.
#[tactic(auto, unfolding(dx_script_grammar::specs::Reading::next_element))]
fn next_element(
    alloc: Global,
    cursor: &mut Cursor<'_>,
    count: usize,
    list: &Growing,
) -> Result<Element, ParseFail>
    requires { count ≤ 65536 }
    ensures reads { Reads (reading.next_element (count, list.now) cursor.old) result cursor.new }
    ensures room { OnOk result (count < 65536) }
{
    cursor.comma(alloc)?;
    let (place, e) = element(alloc, cursor)?;
    if !agrees(list, &e) {
        return Err(ParseFail::Refused(fault(SyntaxKind::MixedList, place)));
    }
    if count == MAX_ELEMENTS {
        return Err(ParseFail::Refused(fault(SyntaxKind::ListTooLong, place)));
    }
    Ok(e)
}

/// The elements up to the bracket that closes them: how many, and the list that they make.
fn elements(
    alloc: Global,
    cursor: &mut Cursor<'_>,
    first: Element,
) -> Result<(usize, Growing), ParseFail>
    requires { IsShort first }
    ensures { Reads (reading.more_elements (1, values.list_of first) cursor.old) result cursor.new }
{
    let mut count = 1;
    let mut list = list_of(alloc, first)?;
    'each: while !cursor.sees(b"}") {
        let e = next_element(alloc, cursor, count, &list)?;
        join(&mut list, e)?;
        count += 1;
    }
    Ok((count, list))
}

#[tactic(auto, unfolding(dx_script_grammar::specs::Reading::elements_after))]
fn elements_after(
    alloc: Global,
    cursor: &mut Cursor<'_>,
    first: Element,
) -> Result<Const, ParseFail>
    requires { IsShort first }
    ensures { Reads (reading.elements_after first cursor.old) result cursor.new }
{
    let (_, list) = elements(alloc, cursor, first)?;
    cursor.sign(alloc, b"}")?;
    let list = into_const(alloc, list)?;
    Ok(list)
}

#[tactic(auto, unfolding(dx_script_grammar::specs::Reading::step))]
fn step(alloc: Global, cursor: &mut Cursor<'_>, last: Place) -> Result<(Place, i32), ParseFail>
    ensures reads { Reads (reading.step last cursor.old) result cursor.new }
    ensures moves { IfOk result (λ found. values.is_zero found.1 ≡ false) }
{
    if !cursor.sees(b":") {
        return Ok((last, 1));
    }
    cursor.sign(alloc, b":")?;
    let (place, d) = cursor.int(alloc)?;
    if d == 0 {
        return Err(ParseFail::Refused(fault(SyntaxKind::NumberRange, place)));
    }
    Ok((place, d))
}

#[tactic(auto, unfolding(dx_script_grammar::specs::Reading::range_after))]
fn range_after(alloc: Global, cursor: &mut Cursor<'_>, a: i32) -> Result<Const, ParseFail>
    ensures { Reads (reading.range_after a cursor.old) result cursor.new }
{
    cursor.sign(alloc, b"..")?;
    let (place, b) = cursor.int(alloc)?;
    let (place, d) = step(alloc, cursor, place)?;
    cursor.sign(alloc, b"}")?;
    if range_count(a, b, d) > MAX_ELEMENTS as u64 {
        return Err(ParseFail::Refused(fault(SyntaxKind::ListTooLong, place)));
    }
    let numbers = range(alloc, a, b, d)?;
    let list = ints_const(alloc, numbers)?;
    Ok(list)
}

#[tactic(auto, unfolding(dx_script_grammar::specs::Reading::after_int))]
fn after_int(alloc: Global, cursor: &mut Cursor<'_>, n: i32) -> Result<Const, ParseFail>
    ensures { Reads (reading.after_int n cursor.old) result cursor.new }
{
    if cursor.sees(b"..") {
        range_after(alloc, cursor, n)
    } else {
        elements_after(alloc, cursor, Element::int(n))
    }
}

#[tactic(auto, unfolding(dx_script_grammar::specs::Reading::list))]
fn list(alloc: Global, cursor: &mut Cursor<'_>) -> Result<Const, ParseFail>
    ensures { Reads (reading.list cursor.old) result cursor.new }
{
    cursor.sign(alloc, b"{")?;
    if cursor.sees(b"}") {
        cursor.sign(alloc, b"}")?;
        let empty = ints_const(alloc, Items::new(alloc))?;
        Ok(empty)
    } else if cursor.sees_int() {
        let (_, n) = cursor.int(alloc)?;
        after_int(alloc, cursor, n)
    } else {
        let (_, e) = other_element(alloc, cursor)?;
        elements_after(alloc, cursor, e)
    }
}

#[tactic(auto, unfolding(dx_script_grammar::specs::Reading::constant))]
pub fn constant(alloc: Global, cursor: &mut Cursor<'_>) -> Result<Const, ParseFail>
    ensures { Reads (reading.constant cursor.old) result cursor.new }
{
    if cursor.sees_key(b"NULL") {
        cursor.key(alloc, b"NULL")?;
        Ok(Const::Null)
    } else if cursor.sees_int() {
        let (_, n) = cursor.int(alloc)?;
        Ok(Const::Int(n))
    } else if cursor.sees_text() {
        let (_, text) = cursor.text(alloc)?;
        let c = text_const(alloc, text)?;
        Ok(c)
    } else if cursor.sees(b"[") {
        let (_, numbers) = vector(alloc, cursor)?;
        let c = vector_const(alloc, numbers)?;
        Ok(c)
    } else {
        list(alloc, cursor)
    }
}
