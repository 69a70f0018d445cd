//! Arrays of each class, from the class word on.

ghost use Rattle.std.specs.Prelude.{◌≡◌, ◌<◌, ◌≤◌, [], length, IfOk};
ghost use Rattle.dx_base.specs.Array.{plain, constant, regular};
ghost use Rattle.dx_base.specs.declared.elem.ElemType.TheVariants.{Int};
ghost use Rattle.dx_native_lex.specs.Token.{Reads};
ghost use Rattle.dx_native_grammar.specs.Grammar as spec;
ghost use Rattle.dx_native_grammar.specs.Words as words;
ghost use Rattle.dx_native_arrays.specs.Made.{MadeAt};

use dx_arrays::{Array, ArrayError, has_room, point_count};
use dx_base::{ElemType, Items, NativeKind};
use dx_native_grammar::{Body, Content, Head};
use dx_native_head::{head, int_values, natural, numbers, values};
use dx_native_lex::{Cursor, Kind, Lexeme, NativeError, NativeFail, is_float, number_of};
use dx_native_listing::attributes;
use std::alloc::Global;

fn array_error(at: u64, e: ArrayError) -> NativeError
    ensures { result ≡ words.array_error_kind at e }
{
    let kind = match e {
        ArrayError::RangeOfType => NativeKind::ValueRange,
        ArrayError::TooManyItems => NativeKind::TooManyItems,
        ArrayError::ItemCount | ArrayError::BadShape => NativeKind::Syntax,
    };
    NativeError { kind, at }
}

#[tactic(auto, unfolding(dx_native_grammar::specs::Words::array_fault))]
fn plain_of(at: u64, head: Head, values: Items<i64>) -> Result<Array, NativeError>
    ensures { MadeAt at (words.array_of head (plain values)) result }
{
    match Array::plain(head.elem, head.extents, values.into_vec()) {
        Ok(array) => Ok(array),
        Err(e) => Err(array_error(at, e)),
    }
}

/// The same of ints, which are kept in 4 bytes each.
#[tactic(auto, unfolding(dx_native_grammar::specs::Words::array_fault))]
fn ints_of(at: u64, head: Head, values: Items<i32>) -> Result<Array, NativeError>
    requires { head.elem ≡ Int }
    ensures { MadeAt at (words.array_of head (plain values)) result }
{
    match Array::ints(head.extents, values.into_vec()) {
        Ok(array) => Ok(array),
        Err(e) => Err(array_error(at, e)),
    }
}

#[tactic(auto, unfolding(dx_native_grammar::specs::Words::array_fault))]
fn constant_of(at: u64, head: Head, item: Items<i64>) -> Result<Array, NativeError>
    ensures { MadeAt at (words.array_of head (constant head.items item)) result }
{
    match Array::constant(head.elem, head.extents, head.items, item.into_vec()) {
        Ok(array) => Ok(array),
        Err(e) => Err(array_error(at, e)),
    }
}

#[tactic(auto, unfolding(dx_native_grammar::specs::Words::array_fault))]
fn regular_of(
    at: u64,
    head: Head,
    origin: Items<i64>,
    delta: Items<i64>,
) -> Result<Array, NativeError>
    ensures { MadeAt at (words.array_of head (regular head.items origin delta)) result }
{
    match Array::regular(
        head.elem,
        head.extents,
        head.items,
        origin.into_vec(),
        delta.into_vec(),
    ) {
        Ok(array) => Ok(array),
        Err(e) => Err(array_error(at, e)),
    }
}

#[tactic(auto, unfolding(dx_native_grammar::specs::Words::array_fault))]
fn points_of(
    at: u64,
    counts: Items<u32>,
    origin: Items<i64>,
    deltas: Items<i64>,
) -> Result<Array, NativeError>
    ensures { MadeAt at (words.points_of counts origin deltas) result }
{
    match Array::grid_positions(counts.into_vec(), origin.into_vec(), deltas.into_vec()) {
        Ok(array) => Ok(array),
        Err(e) => Err(array_error(at, e)),
    }
}

#[tactic(auto, unfolding(dx_native_grammar::specs::Words::array_fault))]
fn cells_of(at: u64, counts: Items<u32>) -> Result<Array, NativeError>
    ensures { MadeAt at (words.cells_of counts) result }
{
    match Array::grid_connections(counts.into_vec()) {
        Ok(array) => Ok(array),
        Err(e) => Err(array_error(at, e)),
    }
}

#[tactic(auto, unfolding(dx_native_grammar::specs::Grammar::plain_array, dx_native_grammar::specs::Grammar::made))]
fn plain_array(alloc: Global, cursor: &mut Cursor<'_>, at: u64) -> Result<Array, NativeFail>
    ensures { Reads ((spec.plain_array at).read cursor.old) result cursor.new }
{
    cursor.key(b"array")?;
    let (head, width) = head(alloc, cursor)?;
    let count = head.items * width;
    let made = match head.elem {
        ElemType::Int => {
            let values = int_values(alloc, cursor, count)?;
            ints_of(at, head, values)
        }
        t => {
            let values = values(alloc, cursor, t, count)?;
            plain_of(at, head, values)
        }
    };
    match made {
        Ok(array) => Ok(array),
        Err(e) => Err(NativeFail::Refused(e)),
    }
}

#[tactic(auto, unfolding(dx_native_grammar::specs::Grammar::constant_array, dx_native_grammar::specs::Grammar::made))]
fn constant_array(alloc: Global, cursor: &mut Cursor<'_>, at: u64) -> Result<Array, NativeFail>
    ensures { Reads ((spec.constant_array at).read cursor.old) result cursor.new }
{
    cursor.key(b"constantarray")?;
    let (head, width) = head(alloc, cursor)?;
    let item = values(alloc, cursor, head.elem, width)?;
    match constant_of(at, head, item) {
        Ok(array) => Ok(array),
        Err(e) => Err(NativeFail::Refused(e)),
    }
}

/// So many ints more.
fn ints(cursor: &mut Cursor<'_>, n: usize, found: Items<i64>) -> Result<Items<i64>, NativeFail>
    ensures { Reads ((spec.counted spec.int n found).read cursor.old) result cursor.new }
{
    numbers(cursor, ElemType::Int, n, found)
}

#[tactic(auto, unfolding(dx_native_grammar::specs::Grammar::regular_array, dx_native_grammar::specs::Grammar::made))]
fn regular_array(alloc: Global, cursor: &mut Cursor<'_>, at: u64) -> Result<Array, NativeFail>
    ensures { Reads ((spec.regular_array at).read cursor.old) result cursor.new }
{
    cursor.key(b"regulararray")?;
    let (head, width) = head(alloc, cursor)?;
    cursor.key(b"origin")?;
    let origin = ints(cursor, width as usize, Items::new(alloc))?;
    cursor.key(b"delta")?;
    let delta = ints(cursor, width as usize, Items::new(alloc))?;
    match regular_of(at, head, origin, delta) {
        Ok(array) => Ok(array),
        Err(e) => Err(NativeFail::Refused(e)),
    }
}

fn is_number_word(token: &Lexeme<'_>) -> bool
    ensures { result ≡ words.is_number_word token.now.kind token.now.content.now }
{
    match token.kind {
        Kind::Word => number_of(token.content).is_some() || is_float(token.content),
        _ => false,
    }
}

fn sees_number(cursor: &Cursor<'_>) -> bool
    ensures { result ≡ words.sees_number cursor.now }
{
    is_number_word(&cursor.peek())
}

fn count(cursor: &mut Cursor<'_>) -> Result<u32, NativeFail>
    ensures read { Reads ((spec.natural 1 4294967295).read cursor.old) result cursor.new }
    ensures some { IfOk result (λ n. 0 < n) }
{
    natural(cursor, 1, u32::MAX)
}

#[tactic(auto, unfolding(dx_native_grammar::specs::Grammar::counts, dx_native_grammar::specs::Grammar::more_counts))]
fn counts(alloc: Global, cursor: &mut Cursor<'_>) -> Result<Items<u32>, NativeFail>
    ensures read { Reads (spec.counts.read cursor.old) result cursor.new }
    ensures some { IfOk result (λ cs. 0 < length cs) }
    ensures few { IfOk result (λ cs. length cs ≤ 3) }
{
    cursor.key(b"counts")?;
    let mut found = Items::new(alloc);
    found.push(count(cursor)?)?;
    if sees_number(cursor) {
        found.push(count(cursor)?)?;
        if sees_number(cursor) {
            found.push(count(cursor)?)?;
        }
    }
    Ok(found)
}

/// The fault of a grid of points, where it has too many.
#[tactic(auto, unfolding(dx_native_grammar::specs::Words::room_fault))]
fn room_fault(at: u64, counts: &[u32]) -> Option<NativeError>
    requires some { 0 < length counts.now }
    requires few { length counts.now ≤ 3 }
    ensures { result ≡ words.room_fault at (words.points_of counts.now [] []) }
{
    if has_room(point_count(counts), counts.len() as u64) {
        return None;
    }
    Some(NativeError {
        kind: NativeKind::TooManyItems,
        at,
    })
}

/// So many lines of n numbers each.
fn deltas(
    cursor: &mut Cursor<'_>,
    n: usize,
    lines: usize,
    mut found: Items<i64>,
) -> Result<Items<i64>, NativeFail>
    ensures { Reads ((spec.deltas n lines found).read cursor.old) result cursor.new }
{
    for _i in 0..lines {
        found = delta(cursor, n, found)?;
    }
    Ok(found)
}

/// One line of n numbers.
#[tactic(auto, unfolding(dx_native_grammar::specs::Grammar::delta))]
fn delta(cursor: &mut Cursor<'_>, n: usize, found: Items<i64>) -> Result<Items<i64>, NativeFail>
    ensures { Reads ((spec.delta n found).read cursor.old) result cursor.new }
{
    cursor.key(b"delta")?;
    ints(cursor, n, found)
}

#[tactic(auto, unfolding(dx_native_grammar::specs::Grammar::grid_points, dx_native_grammar::specs::Grammar::made))]
fn grid_points(alloc: Global, cursor: &mut Cursor<'_>, at: u64) -> Result<Array, NativeFail>
    ensures { Reads ((spec.grid_points at).read cursor.old) result cursor.new }
{
    cursor.key(b"gridpositions")?;
    let counts = counts(alloc, cursor)?;
    if let Some(fault) = room_fault(at, counts.as_slice()) {
        return Err(NativeFail::Refused(fault));
    }
    let n = counts.len();
    cursor.key(b"origin")?;
    let origin = ints(cursor, n, Items::new(alloc))?;
    let deltas = deltas(cursor, n, n, Items::new(alloc))?;
    match points_of(at, counts, origin, deltas) {
        Ok(array) => Ok(array),
        Err(e) => Err(NativeFail::Refused(e)),
    }
}

#[tactic(auto, unfolding(dx_native_grammar::specs::Grammar::grid_cells, dx_native_grammar::specs::Grammar::made))]
fn grid_cells(alloc: Global, cursor: &mut Cursor<'_>, at: u64) -> Result<Array, NativeFail>
    ensures { Reads ((spec.grid_cells at).read cursor.old) result cursor.new }
{
    cursor.key(b"gridconnections")?;
    let counts = counts(alloc, cursor)?;
    match cells_of(at, counts) {
        Ok(array) => Ok(array),
        Err(e) => Err(NativeFail::Refused(e)),
    }
}

/// A plain array and its attributes.
#[tactic(auto, unfolding(dx_native_grammar::specs::Grammar::array_content))]
pub fn plain_array_content(
    alloc: Global,
    cursor: &mut Cursor<'_>,
    at: u64,
) -> Result<Content, NativeFail>
    ensures { Reads ((spec.array_content (spec.plain_array at)).read cursor.old) result cursor.new }
{
    let array = plain_array(alloc, cursor, at)?;
    let attributes = attributes(alloc, cursor)?;
    Ok(Content {
        body: Body::Array(array),
        attributes,
    })
}

/// A constant array and its attributes.
#[tactic(auto, unfolding(dx_native_grammar::specs::Grammar::array_content))]
pub fn constant_array_content(
    alloc: Global,
    cursor: &mut Cursor<'_>,
    at: u64,
) -> Result<Content, NativeFail>
    ensures { Reads ((spec.array_content (spec.constant_array at)).read cursor.old) result cursor.new }
{
    let array = constant_array(alloc, cursor, at)?;
    let attributes = attributes(alloc, cursor)?;
    Ok(Content {
        body: Body::Array(array),
        attributes,
    })
}

/// A regular array and its attributes.
#[tactic(auto, unfolding(dx_native_grammar::specs::Grammar::array_content))]
pub fn regular_array_content(
    alloc: Global,
    cursor: &mut Cursor<'_>,
    at: u64,
) -> Result<Content, NativeFail>
    ensures { Reads ((spec.array_content (spec.regular_array at)).read cursor.old) result cursor.new }
{
    let array = regular_array(alloc, cursor, at)?;
    let attributes = attributes(alloc, cursor)?;
    Ok(Content {
        body: Body::Array(array),
        attributes,
    })
}

/// The points of a grid and its attributes.
#[tactic(auto, unfolding(dx_native_grammar::specs::Grammar::array_content))]
pub fn grid_points_content(
    alloc: Global,
    cursor: &mut Cursor<'_>,
    at: u64,
) -> Result<Content, NativeFail>
    ensures { Reads ((spec.array_content (spec.grid_points at)).read cursor.old) result cursor.new }
{
    let array = grid_points(alloc, cursor, at)?;
    let attributes = attributes(alloc, cursor)?;
    Ok(Content {
        body: Body::Array(array),
        attributes,
    })
}

/// The cells of a grid and its attributes.
#[tactic(auto, unfolding(dx_native_grammar::specs::Grammar::array_content))]
pub fn grid_cells_content(
    alloc: Global,
    cursor: &mut Cursor<'_>,
    at: u64,
) -> Result<Content, NativeFail>
    ensures { Reads ((spec.array_content (spec.grid_cells at)).read cursor.old) result cursor.new }
{
    let array = grid_cells(alloc, cursor, at)?;
    let attributes = attributes(alloc, cursor)?;
    Ok(Content {
        body: Body::Array(array),
        attributes,
    })
}
