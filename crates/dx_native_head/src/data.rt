//! The data of an array, as text or as raw bytes.

ghost use Rattle.std.specs.Prelude.{◌≡◌, ◌*◌, ◌<◌, ◌≤◌, [], length, IfOk};
ghost use Rattle.dx_base.specs.Elem.{byte_count};
ghost use Rattle.dx_base.specs.declared.elem.ElemType.TheVariants.{Int};
ghost use Rattle.dx_native_lex.specs.Token.{Reads};
ghost use Rattle.dx_native_grammar.specs.Grammar as spec;
ghost use Rattle.dx_native_grammar.specs.Words as words;
ghost use Rattle.dx_native_head.specs.Many.{IsInt};

use crate::array_head::is_word;
use crate::bounds::refused;
use crate::ints::int_numbers;
use crate::many::numbers;
use dx_arrays::ElemType;
use dx_base::{Items, NativeKind};
use dx_native_lex::{Cursor, Kind, Lexeme, NativeFail, number_of};
use std::alloc::{AllocError, Global};

#[tactic(auto, unfolding(dx_native_grammar::specs::Grammar::order))]
fn order(cursor: &mut Cursor<'_>) -> Result<bool, NativeFail>
    ensures { Reads (spec.order.read cursor.old) result cursor.new }
{
    if cursor.sees(b"msb") {
        cursor.key(b"msb")?;
        return Ok(true);
    }
    if cursor.sees(b"lsb") {
        cursor.key(b"lsb")?;
        return Ok(false);
    }
    Ok(true)
}

#[tactic(auto, unfolding(dx_native_grammar::specs::Grammar::form))]
fn form(cursor: &mut Cursor<'_>) -> Result<bool, NativeFail>
    ensures { Reads (spec.form.read cursor.old) result cursor.new }
{
    if cursor.sees(b"text") {
        cursor.key(b"text")?;
        return Ok(false);
    }
    if cursor.sees(b"ascii") {
        cursor.key(b"ascii")?;
        return Ok(false);
    }
    if cursor.sees(b"binary") {
        cursor.key(b"binary")?;
        return Ok(true);
    }
    if cursor.sees(b"ieee") {
        cursor.key(b"ieee")?;
        return Ok(true);
    }
    Ok(false)
}

fn is_elsewhere(token: &Lexeme<'_>) -> bool
    ensures { result ≡ words.is_elsewhere token.now.kind token.now.content.now }
{
    match token.kind {
        Kind::Word => is_word(token.content, b"file") || number_of(token.content).is_some(),
        _ => false,
    }
}

#[tactic(auto, unfolding(dx_native_grammar::specs::Grammar::data_follows))]
fn data_follows(cursor: &mut Cursor<'_>) -> Result<(), NativeFail>
    ensures { Reads (spec.data_follows.read cursor.old) result cursor.new }
{
    cursor.key(b"data")?;
    let next = cursor.peek();
    if is_elsewhere(&next) {
        return Err(refused(NativeKind::OtherFile, next.at));
    }
    cursor.key(b"follows")
}

fn two_bytes(msb: bool, bytes: &[u8]) -> u64
    requires { length bytes.now ≡ 2 }
    ensures value { result ≡ words.two_bytes msb bytes.now }
    ensures bound { result < 65536 }
{
    if msb {
        u64::from(bytes[1]) + 256 * u64::from(bytes[0])
    } else {
        u64::from(bytes[0]) + 256 * u64::from(bytes[1])
    }
}

fn four_bytes(msb: bool, bytes: &[u8]) -> u64
    requires { length bytes.now ≡ 4 }
    ensures value { result ≡ words.four_bytes msb bytes.now }
    ensures bound { result < 4294967296 }
{
    if msb {
        u64::from(bytes[3])
            + 256 * u64::from(bytes[2])
            + 65536 * u64::from(bytes[1])
            + 16_777_216 * u64::from(bytes[0])
    } else {
        u64::from(bytes[0])
            + 256 * u64::from(bytes[1])
            + 65536 * u64::from(bytes[2])
            + 16_777_216 * u64::from(bytes[3])
    }
}

fn joined(t: ElemType, msb: bool, bytes: &[u8]) -> u64
    requires { length bytes.now ≡ byte_count t }
    ensures value { result ≡ words.joined t msb bytes.now }
    ensures bound { result < 4294967296 }
{
    match t {
        ElemType::Byte | ElemType::UByte => u64::from(bytes[0]),
        ElemType::Short | ElemType::UShort => two_bytes(msb, bytes),
        ElemType::Int | ElemType::UInt => four_bytes(msb, bytes),
    }
}

fn complement(t: ElemType, n: u64) -> i64
    requires { n < 4294967296 }
    ensures value { result ≡ words.complement t n }
    ensures int { t ≡ Int → IsInt result }
{
    let n_signed = n as i64;
    match t {
        ElemType::Byte => { if n < 128 { n_signed } else { n_signed - 256 } }
        ElemType::Short => {
            if n < 32768 {
                n_signed
            } else {
                n_signed - 65536
            }
        }
        ElemType::Int => {
            if n < 2_147_483_648 {
                n_signed
            } else {
                n_signed - 4_294_967_296
            }
        }
        ElemType::UByte | ElemType::UShort | ElemType::UInt => n_signed,
    }
}

fn decoded(
    alloc: Global,
    t: ElemType,
    msb: bool,
    n: usize,
    bytes: &[u8],
) -> Result<Items<i64>, AllocError>
    requires { length bytes.now ≡ n * byte_count t }
    ensures { IfOk result (λ vs. vs ≡ words.decoded t msb n bytes.now) }
{
    let mut found = Items::from_vec(Vec::with_capacity(alloc, n)?);
    let mut rest = bytes;
    let width = t.byte_count() as usize;
    for _i in 0..n {
        let (one, more) = rest.split_at(width);
        found.push(complement(t, joined(t, msb, one)))?;
        rest = more;
    }
    Ok(found)
}

/// The int that four bytes stand for.
fn int_of(msb: bool, bytes: &[u8]) -> i32
    requires { length bytes.now ≡ 4 }
    ensures { result ≡ words.complement Int (words.joined Int msb bytes.now) }
{
    complement(ElemType::Int, four_bytes(msb, bytes)) as i32
}

fn decoded_ints(alloc: Global, msb: bool, n: usize, bytes: &[u8]) -> Result<Items<i32>, AllocError>
    requires { length bytes.now ≡ n * byte_count Int }
    ensures { IfOk result (λ vs. vs ≡ words.decoded Int msb n bytes.now) }
{
    let mut found = Items::from_vec(Vec::with_capacity(alloc, n)?);
    let mut rest = bytes;
    for _i in 0..n {
        let (one, more) = rest.split_at(4);
        found.push(int_of(msb, one))?;
        rest = more;
    }
    Ok(found)
}

#[tactic(auto, using(crate::proofs::Decode::few_bytes), unfolding(dx_native_grammar::specs::Grammar::raw_values))]
fn raw_values(
    alloc: Global,
    cursor: &mut Cursor<'_>,
    t: ElemType,
    msb: bool,
    n: usize,
) -> Result<Items<i64>, NativeFail>
    requires { n ≤ 134217728 }
    ensures { Reads ((spec.raw_values t msb n).read cursor.old) result cursor.new }
{
    let bytes = cursor.raw(n * t.byte_count() as usize)?;
    Ok(decoded(alloc, t, msb, n, bytes)?)
}

#[tactic(auto, unfolding(dx_native_grammar::specs::Grammar::raw_values))]
fn raw_ints(
    alloc: Global,
    cursor: &mut Cursor<'_>,
    msb: bool,
    n: usize,
) -> Result<Items<i32>, NativeFail>
    requires { n ≤ 134217728 }
    ensures { Reads ((spec.raw_values Int msb n).read cursor.old) result cursor.new }
{
    let bytes = cursor.raw(n * 4)?;
    Ok(decoded_ints(alloc, msb, n, bytes)?)
}

/// For how many of so many values there is to be room, as far as the bytes that are left may hold them: a value has a byte at
/// least, and one between it and the next.
fn room_for(cursor: &Cursor<'_>, n: usize) -> usize {
    n.min(cursor.left() / 2 + 1)
}

fn data_values(
    alloc: Global,
    cursor: &mut Cursor<'_>,
    binary: bool,
    t: ElemType,
    msb: bool,
    n: usize,
) -> Result<Items<i64>, NativeFail>
    requires { n ≤ 134217728 }
    ensures { Reads ((spec.data_values binary t msb n).read cursor.old) result cursor.new }
{
    if binary {
        raw_values(alloc, cursor, t, msb, n)
    } else {
        let found = Items::from_vec(Vec::with_capacity(alloc, room_for(cursor, n))?);
        numbers(cursor, t, n, found)
    }
}

fn data_ints(
    alloc: Global,
    cursor: &mut Cursor<'_>,
    binary: bool,
    msb: bool,
    n: usize,
) -> Result<Items<i32>, NativeFail>
    requires { n ≤ 134217728 }
    ensures { Reads ((spec.data_values binary Int msb n).read cursor.old) result cursor.new }
{
    if binary {
        raw_ints(alloc, cursor, msb, n)
    } else {
        let found = Items::from_vec(Vec::with_capacity(alloc, room_for(cursor, n))?);
        int_numbers(alloc, cursor, n, found)
    }
}

/// The mode and so many values of a type.
#[tactic(auto, unfolding(dx_native_grammar::specs::Grammar::values))]
pub fn values(
    alloc: Global,
    cursor: &mut Cursor<'_>,
    t: ElemType,
    n: u64,
) -> Result<Items<i64>, NativeFail>
    requires { n ≤ 134217728 }
    ensures { Reads ((spec.values t n).read cursor.old) result cursor.new }
{
    let msb = order(cursor)?;
    let binary = form(cursor)?;
    data_follows(cursor)?;
    data_values(alloc, cursor, binary, t, msb, n as usize)
}

/// The mode and so many ints, which are kept in 4 bytes each.
#[tactic(auto, unfolding(dx_native_grammar::specs::Grammar::values))]
pub fn int_values(alloc: Global, cursor: &mut Cursor<'_>, n: u64) -> Result<Items<i32>, NativeFail>
    requires { n ≤ 134217728 }
    ensures { Reads ((spec.values Int n).read cursor.old) result cursor.new }
{
    let msb = order(cursor)?;
    let binary = form(cursor)?;
    data_follows(cursor)?;
    data_ints(alloc, cursor, binary, msb, n as usize)
}
