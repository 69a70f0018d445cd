//! Clauses, one after the other.

ghost use Rattle.std.specs.Prelude.{◌≡◌, ◌||◌, false, IfOk, IfErr};
ghost use Rattle.dx_native_lex.specs.declared.fault.NativeError.{NativeError};
ghost use Rattle.dx_native_lex.specs.Token.{Reads, is_key};
ghost use Rattle.dx_native_grammar.specs.Grammar as spec;
ghost use Rattle.dx_native_grammar.specs.Grammar.{File};
ghost use Rattle.dx_native_grammar.specs.Names.{has_clause};
ghost use Rattle.dx_native_grammar.specs.Words as words;
ghost use Rattle.dx_native_clauses.specs.Answer.{IsOnly, OnRefused, beginning};
ghost use Rattle.dx_places.specs.Grammar.{At};

use crate::table::{ClauseTable, FileClauses};
use dx_base::NativeKind;
use dx_native_arrays::{
    constant_array_content, grid_cells_content, grid_points_content, plain_array_content,
    regular_array_content,
};
use dx_native_grammar::{Clause, Content, ListClass};
use dx_native_lex::{Cursor, Kind, Lexeme, NativeError, NativeFail, misfit};
use dx_native_listing::{listing_content, repeated, text};
use std::alloc::Global;

fn class_fault(token: &Lexeme<'_>) -> NativeError
    ensures { result ≡ words.class_fault_by token.now.kind token.now.at }
{
    let kind = match token.kind {
        Kind::End => NativeKind::Truncated,
        Kind::Word => NativeKind::UnknownClass,
        _ => NativeKind::Syntax,
    };
    NativeError { kind, at: token.at }
}

fn is_word(token: &Lexeme<'_>, word: &[u8]) -> bool
    ensures { result ≡ is_key word.now token.now.kind token.now.content.now }
{
    match token.kind {
        Kind::Word => token.content == word,
        _ => false,
    }
}

/// What follows `class`.
#[tactic(auto, unfolding(dx_native_grammar::specs::Grammar::content, dx_native_grammar::specs::Grammar::place, dx_native_grammar::specs::Grammar::content_at))]
fn content(alloc: Global, cursor: &mut Cursor<'_>) -> Result<Content, NativeFail>
    ensures { Reads (spec.content.read cursor.old) result cursor.new }
{
    let next = cursor.peek();
    let at = next.at;
    if is_word(&next, b"array") {
        return plain_array_content(alloc, cursor, at);
    }
    if is_word(&next, b"constantarray") {
        return constant_array_content(alloc, cursor, at);
    }
    if is_word(&next, b"regulararray") {
        return regular_array_content(alloc, cursor, at);
    }
    if is_word(&next, b"gridpositions") {
        return grid_points_content(alloc, cursor, at);
    }
    if is_word(&next, b"gridconnections") {
        return grid_cells_content(alloc, cursor, at);
    }
    if is_word(&next, b"string") {
        return text(alloc, cursor);
    }
    if is_word(&next, b"field") {
        return listing_content(alloc, cursor, ListClass::Field);
    }
    if is_word(&next, b"group") {
        return listing_content(alloc, cursor, ListClass::Group);
    }
    if is_word(&next, b"compositefield") {
        return listing_content(alloc, cursor, ListClass::Composite);
    }
    if is_word(&next, b"series") {
        return listing_content(alloc, cursor, ListClass::Series);
    }
    Err(NativeFail::Refused(class_fault(&next)))
}

#[tactic(auto, unfolding(dx_native_grammar::specs::Grammar::clause))]
fn clause(alloc: Global, cursor: &mut Cursor<'_>, found: &ClauseTable) -> Result<Clause, NativeFail>
    ensures read { Reads ((spec.clause found.now).read cursor.old) result cursor.new }
    ensures fresh { IfOk result (λ c. has_clause c.name.text found.now ≡ false) }
{
    cursor.key(b"object")?;
    let name = cursor.named(alloc)?;
    if let Some(fault) = repeated(found.has(&name.text), name.at) {
        return Err(NativeFail::Refused(fault));
    }
    cursor.key(b"class")?;
    let content = content(alloc, cursor)?;
    Ok(Clause { name, content })
}

#[tactic(auto, unfolding(dx_native_grammar::specs::Grammar::file_clause))]
fn file_clause(
    alloc: Global,
    cursor: &mut Cursor<'_>,
    found: FileClauses,
) -> Result<FileClauses, NativeFail>
    ensures { Reads ((spec.file_clause found).read cursor.old) result cursor.new }
{
    let FileClauses { clauses, default } = found;
    let c = clause(alloc, cursor, &clauses)?;
    let clauses = clauses.with(alloc, c)?;
    Ok(FileClauses { clauses, default })
}

#[tactic(auto, unfolding(dx_native_grammar::specs::Grammar::file_default))]
fn file_default(
    alloc: Global,
    cursor: &mut Cursor<'_>,
    found: FileClauses,
) -> Result<FileClauses, NativeFail>
    ensures { Reads ((spec.file_default found).read cursor.old) result cursor.new }
{
    cursor.key(b"default")?;
    let n = cursor.named(alloc)?;
    Ok(FileClauses {
        clauses: found.clauses,
        default: Some(n),
    })
}

#[tactic(auto, unfolding(dx_native_grammar::specs::Grammar::file_next))]
fn file_next(
    alloc: Global,
    cursor: &mut Cursor<'_>,
    found: FileClauses,
) -> Result<FileClauses, NativeFail>
    ensures { Reads ((spec.file_next found).read cursor.old) result cursor.new }
{
    if cursor.sees(b"object") {
        file_clause(alloc, cursor, found)
    } else {
        file_default(alloc, cursor, found)
    }
}

fn sees_next(cursor: &Cursor<'_>) -> bool
    ensures { result ≡ spec.sees_object cursor.now || spec.sees_default cursor.now }
{
    cursor.sees(b"object") || cursor.sees(b"default")
}

fn file_clauses(alloc: Global, cursor: &mut Cursor<'_>) -> Result<FileClauses, NativeFail>
    ensures { Reads (spec.file_clauses.read cursor.old) result cursor.new }
{
    let mut found = FileClauses {
        clauses: ClauseTable::new(alloc),
        default: None,
    };
    while sees_next(cursor) {
        found = file_next(alloc, cursor, found)?;
    }
    Ok(found)
}

#[tactic(auto, unfolding(dx_native_grammar::specs::Grammar::ending))]
fn ending(cursor: &mut Cursor<'_>) -> Result<(), NativeFail>
    ensures { Reads (spec.ending.read cursor.old) result cursor.new }
{
    let next = cursor.peek();
    if let Kind::End = next.kind {
        return Ok(());
    }
    if cursor.sees(b"end") {
        return Ok(());
    }
    Err(NativeFail::Refused(misfit(&next)))
}

#[tactic(auto, unfolding(dx_native_grammar::specs::Grammar::file))]
fn file(alloc: Global, cursor: &mut Cursor<'_>) -> Result<FileClauses, NativeFail>
    ensures { Reads (spec.file.read cursor.old) result cursor.new }
{
    let found = file_clauses(alloc, cursor)?;
    ending(cursor)?;
    Ok(found)
}

/// The clauses of a file.
pub fn read_clauses(alloc: Global, bytes: &[u8]) -> Result<FileClauses, NativeFail>
    // What is read stands there.
    ensures found { IfOk result (λ f. (e : At) × spec.file.is (beginning bytes.now) f e) }
    // What stands there is read, as that, unless memory runs out.
    ensures only { (f : File) (e : At) → spec.file.is (beginning bytes.now) f e → IsOnly f result }
    // What is refused is refused by the grammar, at that place and with that kind.
    ensures refused { IfErr result (OnRefused (spec.file.fails (beginning bytes.now))) }
{
    let mut cursor = Cursor::new(bytes);
    file(alloc, &mut cursor)
}
