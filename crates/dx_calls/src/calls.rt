//! Attributes, expressions and calls.

ghost use Rattle.std.specs.Prelude.{◌≡◌, ◌∷◌, []};
ghost use Rattle.dx_ast.specs.Values as values;
ghost use Rattle.dx_script_grammar.specs.Reading as reading;
ghost use Rattle.dx_cursor.specs.Answers.{Reads};

use dx_ast::{Arg, Args, Boxed, Call, Const, Expr};
use dx_base::{Bytes, Items, Place, SyntaxKind};
use dx_cursor::{Cursor, ParseFail, constant, fault, is_word};
use dx_lists::{one_of, text_const};
use std::alloc::Global;

/// What a call without the attribute `cache` has: all its results are kept.
const DEFAULT_CACHE: u8 = 1;

/// How many arguments get room at first, where there is more than one: as many as Import has inputs.
const SOME_ARGS: usize = 6;

/// The value of an attribute `cache`, if it is one.
fn cache_value(value: Const) -> Option<u8>
    ensures { result ≡ values.cache_value value }
{
    match value {
        Const::Int(n) => { if n >= 0 && n < 3 { Some(n as u8) } else { None } }
        _ => None,
    }
}

/// The last cache counts.
fn with_cache(cache: u8, new: Option<u8>) -> u8
    ensures { result ≡ values.with_cache cache new }
{
    match new {
        Some(new) => new,
        None => cache,
    }
}

#[tactic(auto, unfolding(dx_script_grammar::specs::Reading::attribute_value))]
fn attribute_value(alloc: Global, cursor: &mut Cursor<'_>) -> Result<(Place, Const), ParseFail>
    ensures { Reads (reading.attribute_value cursor.old) result cursor.new }
{
    if cursor.sees_int() {
        let (place, n) = cursor.int(alloc)?;
        Ok((place, Const::Int(n)))
    } else {
        let (place, text) = cursor.text(alloc)?;
        let value = text_const(alloc, text)?;
        Ok((place, value))
    }
}

/// What an attribute says of the cache, if it is one of that name.
#[tactic(auto, unfolding(dx_script_grammar::specs::Reading::attribute))]
fn attribute(alloc: Global, cursor: &mut Cursor<'_>) -> Result<Option<u8>, ParseFail>
    ensures { Reads (reading.attribute cursor.old) result cursor.new }
{
    let is_cache = {
        let (_, name) = cursor.name(alloc)?;
        is_word(name.bytes(), b"cache")
    };
    cursor.sign(alloc, b":")?;
    let (place, value) = attribute_value(alloc, cursor)?;
    let cache = cache_value(value);
    if !is_cache {
        return Ok(None);
    }
    match cache {
        Some(cache) => Ok(Some(cache)),
        None => Err(ParseFail::Refused(fault(SyntaxKind::NumberRange, place))),
    }
}

#[tactic(auto, unfolding(dx_script_grammar::specs::Reading::next_attribute))]
fn next_attribute(alloc: Global, cursor: &mut Cursor<'_>) -> Result<Option<u8>, ParseFail>
    ensures { Reads (reading.next_attribute cursor.old) result cursor.new }
{
    cursor.sign(alloc, b",")?;
    attribute(alloc, cursor)
}

fn more_attributes(alloc: Global, cursor: &mut Cursor<'_>, first: u8) -> Result<u8, ParseFail>
    ensures { Reads (reading.more_attributes first cursor.old) result cursor.new }
{
    let mut cache = first;
    'each: while cursor.sees(b",") {
        let found = next_attribute(alloc, cursor)?;
        cache = with_cache(cache, found);
    }
    Ok(cache)
}

#[tactic(auto, unfolding(dx_script_grammar::specs::Reading::some_attributes))]
fn some_attributes(alloc: Global, cursor: &mut Cursor<'_>) -> Result<u8, ParseFail>
    ensures { Reads (reading.some_attributes cursor.old) result cursor.new }
{
    cursor.sign(alloc, b"[")?;
    let found = attribute(alloc, cursor)?;
    let first = with_cache(DEFAULT_CACHE, found);
    let cache = more_attributes(alloc, cursor, first)?;
    cursor.sign(alloc, b"]")?;
    Ok(cache)
}

#[tactic(auto, unfolding(dx_script_grammar::specs::Reading::attributes))]
fn attributes(alloc: Global, cursor: &mut Cursor<'_>) -> Result<u8, ParseFail>
    ensures { Reads (reading.attributes cursor.old) result cursor.new }
{
    if cursor.sees(b"[") {
        some_attributes(alloc, cursor)
    } else {
        Ok(DEFAULT_CACHE)
    }
}

/// An expression that begins with no name.
#[tactic(auto, unfolding(dx_script_grammar::specs::Reading::nameless))]
fn nameless(alloc: Global, cursor: &mut Cursor<'_>) -> Result<Expr, ParseFail>
    ensures { Reads (reading.nameless cursor.old) result cursor.new }
{
    if cursor.sees_frame() {
        let (_, frame) = cursor.frame(alloc)?;
        Ok(Expr::Frame(frame))
    } else {
        let c = constant(alloc, cursor)?;
        Ok(Expr::Constant(c))
    }
}

#[cycle(parser)]
fn named_arg(
    alloc: Global,
    cursor: &mut Cursor<'_>,
    calls: u8,
    name: Bytes,
) -> Result<Arg, ParseFail>
    ensures { Reads (reading.named_arg (reading.expression calls) name cursor.old) result cursor.new }
{
    cursor.sign(alloc, b"=")?;
    let value = expression(alloc, cursor, calls)?;
    Ok(Arg {
        name: Some(name),
        value,
    })
}

#[cycle(parser)]
#[tactic(auto, unfolding(dx_script_grammar::specs::Reading::arg_by))]
fn arg(alloc: Global, cursor: &mut Cursor<'_>, calls: u8, named: bool) -> Result<Arg, ParseFail>
    ensures { Reads (reading.arg_by (reading.expression calls) (reading.primary calls) named cursor.old) result cursor.new }
{
    if named {
        let (_, name) = cursor.name(alloc)?;
        named_arg(alloc, cursor, calls, name)
    } else if cursor.sees_name() {
        let (_, name) = cursor.name(alloc)?;
        if cursor.sees(b"=") {
            named_arg(alloc, cursor, calls, name)
        } else {
            let value = primary(alloc, cursor, calls, name)?;
            Ok(Arg { name: None, value })
        }
    } else {
        let value = nameless(alloc, cursor)?;
        Ok(Arg { name: None, value })
    }
}

#[cycle(parser)]
#[tactic(auto, unfolding(dx_script_grammar::specs::Reading::next_arg))]
fn next_arg(
    alloc: Global,
    cursor: &mut Cursor<'_>,
    calls: u8,
    named: bool,
) -> Result<Arg, ParseFail>
    ensures { Reads (reading.next_arg (reading.expression calls) (reading.primary calls) named cursor.old) result cursor.new }
{
    cursor.sign(alloc, b",")?;
    arg(alloc, cursor, calls, named)
}

/// How many arguments get room at first, by whether more than one stand.
fn room(more: bool) -> usize {
    if more { SOME_ARGS } else { 1 }
}

#[cycle(parser)]
fn more_args(
    alloc: Global,
    cursor: &mut Cursor<'_>,
    calls: u8,
    first: Arg,
) -> Result<Args, ParseFail>
    ensures { Reads (reading.more_args (reading.expression calls) (reading.primary calls) (first ∷ []) cursor.old) result cursor.new }
{
    let mut named = first.name.is_some();
    let mut found = one_of(alloc, first, room(cursor.sees(b",")))?;
    'each: while cursor.sees(b",") {
        let next = next_arg(alloc, cursor, calls, named)?;
        named = next.name.is_some();
        found.push(next)?;
    }
    Ok(found)
}

#[cycle(parser)]
#[tactic(auto, unfolding(dx_script_grammar::specs::Reading::some_args))]
fn some_args(alloc: Global, cursor: &mut Cursor<'_>, calls: u8) -> Result<Args, ParseFail>
    ensures { Reads (reading.some_args (reading.expression calls) (reading.primary calls) cursor.old) result cursor.new }
{
    let first = arg(alloc, cursor, calls, false)?;
    more_args(alloc, cursor, calls, first)
}

#[cycle(parser)]
#[tactic(auto, unfolding(dx_script_grammar::specs::Reading::args))]
fn args(alloc: Global, cursor: &mut Cursor<'_>, calls: u8) -> Result<Args, ParseFail>
    ensures { Reads (reading.args (reading.expression calls) (reading.primary calls) cursor.old) result cursor.new }
{
    if cursor.sees(b")") {
        return Ok(Items::new(alloc));
    }
    some_args(alloc, cursor, calls)
}

/// What follows the name of a call, where so many calls may still open.
#[cycle(parser)]
#[tactic(auto, unfolding(dx_script_grammar::specs::Reading::call_after, dx_script_grammar::specs::Reading::call_of))]
pub fn call_after(
    alloc: Global,
    cursor: &mut Cursor<'_>,
    calls: u8,
    name: Bytes,
) -> Result<Call, ParseFail>
    ensures { Reads (reading.call_after calls name cursor.old) result cursor.new }
{
    if calls == 0 {
        let place = cursor.sign(alloc, b"(")?;
        return Err(ParseFail::Refused(fault(SyntaxKind::Syntax, place)));
    }
    cursor.sign(alloc, b"(")?;
    let args = args(alloc, cursor, calls - 1)?;
    cursor.sign(alloc, b")")?;
    let cache = attributes(alloc, cursor)?;
    Ok(Call { name, args, cache })
}

/// A call or the value of a name, which is read already.
#[cycle(parser)]
#[tactic(auto, unfolding(dx_script_grammar::specs::Reading::primary_by))]
fn primary(
    alloc: Global,
    cursor: &mut Cursor<'_>,
    calls: u8,
    name: Bytes,
) -> Result<Expr, ParseFail>
    ensures { Reads (reading.primary calls name cursor.old) result cursor.new }
{
    if cursor.sees(b"(") {
        let call = call_after(alloc, cursor, calls, name)?;
        Ok(Expr::Call(Boxed::new(alloc, call)?))
    } else {
        Ok(Expr::Name(name))
    }
}

/// An expression in which so many calls may still open.
#[cycle(parser)]
#[tactic(auto, unfolding(dx_script_grammar::specs::Reading::expr_by))]
pub fn expression(alloc: Global, cursor: &mut Cursor<'_>, calls: u8) -> Result<Expr, ParseFail>
    ensures { Reads (reading.expression calls cursor.old) result cursor.new }
{
    if cursor.sees_name() {
        let (_, name) = cursor.name(alloc)?;
        primary(alloc, cursor, calls, name)
    } else {
        nameless(alloc, cursor)
    }
}
