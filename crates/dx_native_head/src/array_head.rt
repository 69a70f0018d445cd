//! What is said of an array before its data.

ghost use Rattle.std.specs.Prelude.{◌≡◌, ◌*◌, ◌≤◌, true, IfOk, if◌then◌else◌, bytes_eq};
ghost use Rattle.dx_native_lex.specs.Shown.{shown};
ghost use Rattle.dx_native_lex.specs.Token as token_spec;
ghost use Rattle.dx_native_lex.specs.Token.{Reads, Shows, one};
ghost use Rattle.dx_native_grammar.specs.Grammar as spec;
ghost use Rattle.dx_native_grammar.specs.Words as words;
ghost use Rattle.dx_native_head.specs.Head.{IsWidth, Counts};

use crate::bounds::natural;
use dx_arrays::{ElemType, MAX_ITEMS, MAX_VALUES, Shape};
use dx_base::{Items, NativeKind};
use dx_native_grammar::{Head, TypeWord};
use dx_native_lex::{Cursor, Kind, Lexeme, NativeError, NativeFail, Number, misfit};
use std::alloc::Global;

pub fn is_word(a: &[u8], b: &[u8]) -> bool
    ensures { result ≡ bytes_eq a.now b.now }
{
    a == b
}

fn type_of_word(word: &[u8]) -> Option<TypeWord>
    ensures { result ≡ words.type_of_word word.now }
{
    if is_word(word, b"signed") {
        return Some(TypeWord::Signed);
    }
    if is_word(word, b"unsigned") {
        return Some(TypeWord::Unsigned);
    }
    if is_word(word, b"byte") {
        return Some(TypeWord::Whole(ElemType::UByte));
    }
    if is_word(word, b"ubyte") {
        return Some(TypeWord::Whole(ElemType::UByte));
    }
    if is_word(word, b"short") {
        return Some(TypeWord::Whole(ElemType::Short));
    }
    if is_word(word, b"ushort") {
        return Some(TypeWord::Whole(ElemType::UShort));
    }
    if is_word(word, b"int") {
        return Some(TypeWord::Whole(ElemType::Int));
    }
    if is_word(word, b"uint") {
        return Some(TypeWord::Whole(ElemType::UInt));
    }
    None
}

fn signed_type(word: &[u8]) -> Option<ElemType>
    ensures { result ≡ words.signed_type word.now }
{
    if is_word(word, b"byte") {
        return Some(ElemType::Byte);
    }
    if is_word(word, b"short") {
        return Some(ElemType::Short);
    }
    if is_word(word, b"int") {
        return Some(ElemType::Int);
    }
    None
}

fn unsigned_type(word: &[u8]) -> Option<ElemType>
    ensures { result ≡ words.unsigned_type word.now }
{
    if is_word(word, b"byte") {
        return Some(ElemType::UByte);
    }
    if is_word(word, b"short") {
        return Some(ElemType::UShort);
    }
    if is_word(word, b"int") {
        return Some(ElemType::UInt);
    }
    None
}

fn no_type(token: &Lexeme<'_>) -> NativeError
    ensures { result ≡ words.any_word_fault token.now.kind token.now.at }
{
    let kind = match token.kind {
        Kind::End => NativeKind::Truncated,
        Kind::Word => NativeKind::FloatType,
        _ => NativeKind::Syntax,
    };
    NativeError { kind, at: token.at }
}

fn is_float_type(token: &Lexeme<'_>) -> bool
    ensures { result ≡ words.is_float_type token.now.kind token.now.content.now }
{
    match token.kind {
        Kind::Word => is_word(token.content, b"float") || is_word(token.content, b"double"),
        _ => false,
    }
}

fn type_misfit(token: &Lexeme<'_>) -> NativeError
    ensures { result ≡ words.type_misfit (shown token.now) }
{
    if is_float_type(token) {
        return NativeError {
            kind: NativeKind::FloatType,
            at: token.at,
        };
    }
    misfit(token)
}

#[tactic(auto, unfolding(dx_native_grammar::specs::Grammar::type_key))]
fn type_key(cursor: &mut Cursor<'_>) -> Result<(), NativeFail>
    ensures { Reads (spec.type_key.read cursor.old) result cursor.new }
{
    let next = cursor.peek();
    match next.kind {
        Kind::Word if is_word(next.content, b"type") => {
            cursor.pass(&next);
            Ok(())
        }
        _ => Err(NativeFail::Refused(no_type(&next))),
    }
}

#[tactic(auto, unfolding(dx_native_grammar::specs::Grammar::type_word))]
fn type_word(cursor: &mut Cursor<'_>) -> Result<TypeWord, NativeFail>
    ensures { Reads (spec.type_word.read cursor.old) result cursor.new }
{
    let next = cursor.peek();
    match next.kind {
        Kind::Word => match type_of_word(next.content) {
            Some(word) => {
                cursor.pass(&next);
                Ok(word)
            }
            None => Err(NativeFail::Refused(type_misfit(&next))),
        },
        _ => Err(NativeFail::Refused(type_misfit(&next))),
    }
}

/// A word that names a type behind `signed`, or else behind `unsigned`.
fn sized_type(cursor: &mut Cursor<'_>, signed: bool) -> Result<ElemType, NativeFail>
    ensures { Reads ((one token_spec.misfit (if signed then spec.signed_at else spec.unsigned_at) token_spec.none_of).read cursor.old) result cursor.new }
{
    let next = cursor.peek();
    let found = match next.kind {
        Kind::Word if signed => signed_type(next.content),
        Kind::Word => unsigned_type(next.content),
        _ => None,
    };
    match found {
        Some(t) => {
            cursor.pass(&next);
            Ok(t)
        }
        None => Err(NativeFail::Refused(misfit(&next))),
    }
}

#[tactic(auto, unfolding(dx_native_grammar::specs::Grammar::type_rest))]
fn type_rest(cursor: &mut Cursor<'_>, word: TypeWord) -> Result<ElemType, NativeFail>
    ensures { Reads ((spec.type_rest word).read cursor.old) result cursor.new }
{
    match word {
        TypeWord::Whole(t) => Ok(t),
        TypeWord::Signed => sized_type(cursor, true),
        TypeWord::Unsigned => sized_type(cursor, false),
    }
}

#[tactic(auto, unfolding(dx_native_grammar::specs::Grammar::elem_type))]
fn elem_type(cursor: &mut Cursor<'_>) -> Result<ElemType, NativeFail>
    ensures { Reads (spec.elem_type.read cursor.old) result cursor.new }
{
    type_key(cursor)?;
    let word = type_word(cursor)?;
    type_rest(cursor, word)
}

#[tactic(auto, unfolding(dx_native_grammar::specs::Grammar::category))]
fn category(cursor: &mut Cursor<'_>) -> Result<(), NativeFail>
    ensures { Reads (spec.category.read cursor.old) result cursor.new }
{
    if cursor.sees(b"category") {
        cursor.key(b"category")?;
        return cursor.key(b"real");
    }
    Ok(())
}

/// The extents of a rank, and how many values an item has.
#[tactic(auto, unfolding(dx_native_grammar::specs::Grammar::shape_of, dx_native_grammar::specs::Grammar::counted))]
fn shape_of(alloc: Global, cursor: &mut Cursor<'_>, r: u32) -> Result<(Shape, u64), NativeFail>
    requires { r ≤ 2 }
    ensures read { Shows (λ x. x.0) ((spec.shape_of r).read cursor.old) result cursor.new }
    ensures width { IfOk result (λ x. IsWidth x.0 x.1) }
{
    let mut extents = Items::new(alloc);
    if r == 0 {
        return Ok((extents, 1));
    }
    cursor.key(b"shape")?;
    let first = natural(cursor, 1, 256)?;
    extents.push(first)?;
    if r == 1 {
        return Ok((extents, u64::from(first)));
    }
    let second = natural(cursor, 1, 256)?;
    extents.push(second)?;
    Ok((extents, u64::from(first) * u64::from(second)))
}

#[tactic(auto, unfolding(dx_native_grammar::specs::Grammar::shape, dx_native_grammar::specs::Grammar::ranked, dx_native_grammar::specs::Grammar::shape_of))]
fn shape(alloc: Global, cursor: &mut Cursor<'_>) -> Result<(Shape, u64), NativeFail>
    ensures read { Shows (λ x. x.0) (spec.shape.read cursor.old) result cursor.new }
    ensures width { IfOk result (λ x. IsWidth x.0 x.1) }
{
    if cursor.sees(b"rank") {
        cursor.key(b"rank")?;
        let r = natural(cursor, 0, 2)?;
        return shape_of(alloc, cursor, r);
    }
    Ok((Items::new(alloc), 1))
}

fn has_items_room(w: u64, n: u64) -> bool
    requires { w ≤ 65536 }
    ensures value { result ≡ words.has_items_room w n }
    ensures items { result ≡ true → n ≤ 16777216 }
    ensures values { result ≡ true → n * w ≤ 134217728 }
{
    n <= MAX_ITEMS && n * w <= MAX_VALUES
}

/// The number of items, unless it is too large or none.
fn item_count(w: u64, n: Number) -> Result<u64, NativeError>
    requires { w ≤ 65536 }
    ensures { Counts w n result }
{
    if n.value < 0 {
        return Err(NativeError {
            kind: NativeKind::ValueRange,
            at: n.at,
        });
    }
    let items = n.value as u64;
    if has_items_room(w, items) {
        return Ok(items);
    }
    Err(NativeError {
        kind: NativeKind::TooManyItems,
        at: n.at,
    })
}

#[tactic(auto, unfolding(dx_native_grammar::specs::Grammar::items))]
fn items(cursor: &mut Cursor<'_>, w: u64) -> Result<u64, NativeFail>
    requires { w ≤ 65536 }
    ensures read { Reads ((spec.items w).read cursor.old) result cursor.new }
    ensures items { IfOk result (λ n. n ≤ 16777216) }
    ensures values { IfOk result (λ n. n * w ≤ 134217728) }
{
    cursor.key(b"items")?;
    let n = cursor.number()?;
    match item_count(w, n) {
        Ok(items) => Ok(items),
        Err(e) => Err(NativeFail::Refused(e)),
    }
}

#[tactic(auto, unfolding(dx_native_grammar::specs::Grammar::head))]
pub fn head(alloc: Global, cursor: &mut Cursor<'_>) -> Result<(Head, u64), NativeFail>
    ensures read { Shows (λ x. x.0) (spec.head.read cursor.old) result cursor.new }
    ensures width { IfOk result (λ x. IsWidth x.0.extents x.1) }
    ensures items { IfOk result (λ x. x.0.items ≤ 16777216) }
    ensures values { IfOk result (λ x. x.0.items * x.1 ≤ 134217728) }
{
    let elem = elem_type(cursor)?;
    category(cursor)?;
    let (extents, width) = shape(alloc, cursor)?;
    let items = items(cursor, width)?;
    Ok((
        Head {
            elem,
            extents,
            items,
        },
        width,
    ))
}
