//! Definitions of macros.

ghost use Rattle.std.specs.Prelude.{◌≡◌, ◌∷◌, [], map, OnOk};
ghost use Rattle.dx_ast.specs.Values as values;
ghost use Rattle.dx_script_grammar.specs.Reading as reading;
ghost use Rattle.dx_cursor.specs.Answers.{Reads};

use crate::statements::statement;
use dx_ast::{Boxed, MacroDef, Param, Params, Stmt, Stmts, TextList};
use dx_base::{Bytes, Items, SyntaxKind};
use dx_cursor::{Cursor, ParseFail, constant, fault, is_word};
use dx_lists::one;
use std::alloc::{AllocError, Global};

/// The parameters that a macro may have, and the results.
const MAX_NAMES: usize = 64;

#[tactic(auto, unfolding(dx_ast::specs::Values::has_name))]
fn has_param(name: &Bytes, params: &[Param]) -> bool
    ensures { result ≡ values.has_name name.now (map values.param_name params.now) }
{
    let mut rest = params;
    'each: while let [first, others @ ..] = rest {
        if is_word(name.bytes(), first.name.bytes()) {
            return true;
        }
        rest = others;
    }
    false
}

#[tactic(auto, unfolding(dx_ast::specs::Values::has_name))]
fn has_name(name: &Bytes, names: &[Bytes]) -> bool
    ensures { result ≡ values.has_name name.now names.now }
{
    let mut rest = names;
    'each: while let [first, others @ ..] = rest {
        if is_word(name.bytes(), first.bytes()) {
            return true;
        }
        rest = others;
    }
    false
}

#[tactic(auto, unfolding(dx_script_grammar::specs::Reading::param))]
fn param(alloc: Global, cursor: &mut Cursor<'_>, found: &Params) -> Result<Param, ParseFail>
    ensures { Reads (reading.param found.now cursor.old) result cursor.new }
{
    let (place, name) = cursor.name(alloc)?;
    if found.len() == MAX_NAMES || has_param(&name, found.as_slice()) {
        return Err(ParseFail::Refused(fault(SyntaxKind::Syntax, place)));
    }
    if !cursor.sees(b"=") {
        return Ok(Param {
            name,
            default: None,
        });
    }
    cursor.sign(alloc, b"=")?;
    let c = constant(alloc, cursor)?;
    Ok(Param {
        name,
        default: Some(c),
    })
}

#[tactic(auto, unfolding(dx_script_grammar::specs::Reading::next_param))]
fn next_param(alloc: Global, cursor: &mut Cursor<'_>, found: &Params) -> Result<Param, ParseFail>
    ensures { Reads (reading.next_param found.now cursor.old) result cursor.new }
{
    cursor.sign(alloc, b",")?;
    param(alloc, cursor, found)
}

fn more_params(alloc: Global, cursor: &mut Cursor<'_>, first: Param) -> Result<Params, ParseFail>
    ensures { Reads (reading.more_params (first ∷ []) cursor.old) result cursor.new }
{
    let mut found = one(alloc, first)?;
    'each: while cursor.sees(b",") {
        let next = next_param(alloc, cursor, &found)?;
        found.push(next)?;
    }
    Ok(found)
}

#[tactic(auto, unfolding(dx_script_grammar::specs::Reading::params))]
fn params(alloc: Global, cursor: &mut Cursor<'_>) -> Result<Params, ParseFail>
    ensures { Reads (reading.params cursor.old) result cursor.new }
{
    let none = Items::new(alloc);
    if !cursor.sees_name() {
        return Ok(none);
    }
    let first = param(alloc, cursor, &none)?;
    more_params(alloc, cursor, first)
}

#[tactic(auto, unfolding(dx_script_grammar::specs::Reading::result))]
fn result_name(alloc: Global, cursor: &mut Cursor<'_>, found: &TextList) -> Result<Bytes, ParseFail>
    ensures { Reads (reading.result found.now cursor.old) result cursor.new }
{
    let (place, name) = cursor.name(alloc)?;
    if found.len() == MAX_NAMES || has_name(&name, found.as_slice()) {
        return Err(ParseFail::Refused(fault(SyntaxKind::Syntax, place)));
    }
    Ok(name)
}

#[tactic(auto, unfolding(dx_script_grammar::specs::Reading::next_result))]
fn next_result(alloc: Global, cursor: &mut Cursor<'_>, found: &TextList) -> Result<Bytes, ParseFail>
    ensures { Reads (reading.next_result found.now cursor.old) result cursor.new }
{
    cursor.sign(alloc, b",")?;
    result_name(alloc, cursor, found)
}

fn more_results(alloc: Global, cursor: &mut Cursor<'_>, first: Bytes) -> Result<TextList, ParseFail>
    ensures { Reads (reading.more_results (first ∷ []) cursor.old) result cursor.new }
{
    let mut found = TextList::one(alloc, first);
    'each: while cursor.sees(b",") {
        let next = next_result(alloc, cursor, &found)?;
        found.push(next)?;
    }
    Ok(found)
}

#[tactic(auto, unfolding(dx_script_grammar::specs::Reading::names))]
fn names(alloc: Global, cursor: &mut Cursor<'_>) -> Result<TextList, ParseFail>
    ensures { Reads (reading.names cursor.old) result cursor.new }
{
    let none = TextList::new(alloc);
    if !cursor.sees_name() {
        return Ok(none);
    }
    let first = result_name(alloc, cursor, &none)?;
    more_results(alloc, cursor, first)
}

#[tactic(auto, unfolding(dx_script_grammar::specs::Reading::results, dx_script_grammar::specs::Reading::some_results))]
fn results(alloc: Global, cursor: &mut Cursor<'_>) -> Result<TextList, ParseFail>
    ensures { Reads (reading.results cursor.old) result cursor.new }
{
    if !cursor.sees(b"->") {
        return Ok(TextList::new(alloc));
    }
    cursor.sign(alloc, b"->")?;
    cursor.sign(alloc, b"(")?;
    let all = names(alloc, cursor)?;
    cursor.sign(alloc, b")")?;
    Ok(all)
}

/// Puts a statement at the end, where there is one.
pub fn add(found: &mut Stmts, item: Option<Stmt>) -> Result<(), AllocError>
    ensures { OnOk result (found.new ≡ values.with_statement found.old item) }
{
    match item {
        None => Ok(()),
        Some(statement) => found.push(statement),
    }
}

#[tactic(auto, unfolding(dx_script_grammar::specs::Reading::body_item))]
fn body_item(alloc: Global, cursor: &mut Cursor<'_>) -> Result<Option<Stmt>, ParseFail>
    ensures { Reads (reading.body_item cursor.old) result cursor.new }
{
    if cursor.sees(b";") {
        cursor.sign(alloc, b";")?;
        return Ok(None);
    }
    statement(alloc, cursor)
}

fn body_items(alloc: Global, cursor: &mut Cursor<'_>) -> Result<Stmts, ParseFail>
    ensures { Reads (reading.body_items [] cursor.old) result cursor.new }
{
    let mut found = Items::new(alloc);
    'each: while !cursor.sees(b"}") {
        let item = body_item(alloc, cursor)?;
        add(&mut found, item)?;
    }
    Ok(found)
}

#[tactic(auto, unfolding(dx_script_grammar::specs::Reading::body))]
fn body(alloc: Global, cursor: &mut Cursor<'_>) -> Result<Stmts, ParseFail>
    ensures { Reads (reading.body cursor.old) result cursor.new }
{
    cursor.sign(alloc, b"{")?;
    let found = body_items(alloc, cursor)?;
    cursor.sign(alloc, b"}")?;
    Ok(found)
}

/// A definition of a macro, from its key word on.
#[tactic(auto, unfolding(dx_script_grammar::specs::Reading::definition))]
pub fn definition(alloc: Global, cursor: &mut Cursor<'_>) -> Result<Option<Stmt>, ParseFail>
    ensures { Reads (reading.definition cursor.old) result cursor.new }
{
    cursor.key(alloc, b"macro")?;
    let (_, name) = cursor.name(alloc)?;
    cursor.sign(alloc, b"(")?;
    let params = params(alloc, cursor)?;
    cursor.sign(alloc, b")")?;
    let results = results(alloc, cursor)?;
    let body = body(alloc, cursor)?;
    let defined = Boxed::new(
        alloc,
        MacroDef {
            name,
            params,
            results,
            body,
        },
    )?;
    Ok(Some(Stmt::Macro(defined)))
}
