//! Reading a native file.

ghost use Rattle.std.specs.Prelude.{◌≡◌, IfOk, Some, None, Ok, Err, Result, length, option_map, slice_get, true};
ghost use Rattle.dx_base.specs.Object.{Tree};
ghost use Rattle.dx_base.specs.ObjectLimits.{IsLawful};
ghost use Rattle.dx_base.specs.ObjectNumbers.{steps_by_ints};
ghost use Rattle.dx_native_lex.specs.declared.fault.NativeError.{NativeError as Fault};
ghost use Rattle.dx_native_grammar.specs.Meaning as spec;
ghost use Rattle.dx_native_grammar.specs.Native.{IsNative};
ghost use Rattle.dx_native_clauses.specs.Outline.{clause_arrays};
ghost use Rattle.dx_native_sound.specs.Sound.{Every, IsSound};
ghost use Rattle.dx_native_fields.specs.Good.{good_fields};
ghost use Rattle.dx_native_read.specs.Answer.{Means, Answers, native_of};
ghost use Rattle.dx_native_walk.specs.Answer.{IsKnown};
ghost use Rattle.dx_objects.specs.Kinds.{array_of};
ghost use Rattle.dx_native_read.specs.Found.{IsFound, read_tree, checked_object};

use dx_base::{Bytes, NativeKind};
use dx_native_clauses::{ClauseTable, FileClauses, OutlineTable, read_clauses};
use dx_native_fields::has_good_fields;
use dx_native_levels::object_levels;
use dx_native_lex::{NativeError, NativeFail};
use dx_native_references::references_fault;
use dx_native_walk::{BuildFail, Memo, clause_object, nothing_built};
use dx_objects::{Array, Object};
use std::alloc::{AllocError, Global};

/// An object of a file, the place of its clause, the file's clauses, and the objects that were built for it.
#[derive(Drop)]
pub(crate) struct Contents {
    object: Object,
    place: usize,
    clauses: OutlineTable,
    memo: Memo,
}

/// An object of a file, and whether it is no field with a fault, nor any object that its parts reach, attributes aside.
#[derive(Drop)]
pub struct Checked {
    pub object: Object,
    pub good_fields: bool,
}

/// The clause that is asked for, else that of the last `default`, else the last one.
fn wanted(file: &FileClauses, which: Option<&Bytes>) -> Option<usize>
    ensures { result ≡ spec.wanted file.now (option_map (λ b. b.now) which.entry) }
{
    if let Some(name) = which {
        return file.clauses.place(name);
    }
    match &file.default {
        Some(name) => file.clauses.place(&name.text),
        None => file.clauses.as_slice().len().checked_sub(1),
    }
}

fn refused(kind: NativeKind, at: u64) -> NativeFail
    ensures { result ≡ NativeFail.Refused (record { kind = kind; at = at }) }
{
    NativeFail::Refused(NativeError { kind, at })
}

/// The offset of the name of clause number i.
fn name_place(clauses: &ClauseTable, i: usize) -> u64
    ensures { result ≡ spec.name_place (slice_get clauses.now i) }
{
    match clauses.as_slice().get(i) {
        Some(clause) => clause.name.at,
        None => 0,
    }
}

/// The same object, which is within the limits as each is.
fn within_limits(object: Object) -> Object
    ensures same { result ≡ object }
    ensures lawful { IsLawful result }
{
    let _size = object.size();
    object
}

/// The object of clause number i, or why it is none. The offset is that of the clause's name.
fn object_at(alloc: Global, clauses: ClauseTable, i: usize, at: u64) -> Result<Contents, NativeFail>
    requires sound { Every IsSound clauses }
    requires references { spec.clauses_fault clauses clauses ≡ None }
    ensures means { Means (spec.object_or (spec.tree_at clauses 64 i) at) (read_tree result) }
    ensures ints { IfOk result (λ contents. steps_by_ints contents.object ≡ true) }
    ensures found { IfOk result (λ contents. IsFound contents) }
{
    match object_levels(alloc, &clauses, i)? {
        None => Err(refused(NativeKind::TooDeep, at)),
        Some(_) => object_within(alloc, clauses, i, at),
    }
}

/// The object of clause number i, which has at most 64 levels, or why it is none.
fn object_within(
    alloc: Global,
    clauses: ClauseTable,
    i: usize,
    at: u64,
) -> Result<Contents, NativeFail>
    requires sound { Every IsSound clauses }
    requires references { spec.clauses_fault clauses clauses ≡ None }
    requires levels { spec.tree_at clauses 64 i ≡ None → ⊥ }
    ensures means { Means (spec.object_or (spec.tree_at clauses 64 i) at) (read_tree result) }
    ensures ints { IfOk result (λ contents. steps_by_ints contents.object ≡ true) }
    ensures found { IfOk result (λ contents. IsFound contents) }
{
    let lifted = clauses.lifted(alloc)?;
    object_from(alloc, lifted.outlines, lifted.arrays, i, at)
}

/// The same, where the arrays of the clauses stand apart.
fn object_from(
    alloc: Global,
    clauses: OutlineTable,
    arrays: Vec<Option<Array>>,
    i: usize,
    at: u64,
) -> Result<Contents, NativeFail>
    requires arrays { arrays.items ≡ clause_arrays clauses }
    requires sound { Every IsSound clauses }
    requires references { spec.clauses_fault clauses clauses ≡ None }
    requires levels { spec.tree_at clauses 64 i ≡ None → ⊥ }
    ensures means { Means (spec.object_or (spec.tree_at clauses 64 i) at) (read_tree result) }
    ensures ints { IfOk result (λ contents. steps_by_ints contents.object ≡ true) }
    ensures found { IfOk result (λ contents. IsFound contents) }
{
    let mut memo = nothing_built(alloc, arrays)?;
    match clause_object(alloc, &clauses, &mut memo, i) {
        Ok(object) => Ok(Contents {
            object: within_limits(object),
            place: i,
            clauses,
            memo,
        }),
        Err(fail) => Err(native_fail(fail, at)),
    }
}

/// Why the object of a clause is none, where its name has this offset.
fn native_fail(fail: BuildFail, at: u64) -> NativeFail
    ensures { result ≡ native_of fail at }
{
    match fail {
        BuildFail::Deep => refused(NativeKind::TooDeep, at),
        BuildFail::Broken => refused(NativeKind::TooLarge, at),
        BuildFail::Memory => NativeFail::Memory,
    }
}

/// What the clauses of a text of this length mean.
#[tactic(auto, unfolding(dx_native_grammar::specs::Meaning::meant))]
fn object_of_file(
    alloc: Global,
    file: FileClauses,
    which: Option<&Bytes>,
    len: u64,
) -> Result<Contents, NativeFail>
    requires sound { Every IsSound file.clauses }
    ensures means { Means (spec.meant file (option_map (λ b. b.now) which.entry) len) (read_tree result) }
    ensures ints { IfOk result (λ contents. steps_by_ints contents.object ≡ true) }
    ensures found { IfOk result (λ contents. IsFound contents) }
{
    if let Some(fault) = references_fault(&file) {
        return Err(NativeFail::Refused(fault));
    }
    match wanted(&file, which) {
        None => Err(refused(NativeKind::NoVariable, len)),
        Some(i) => {
            let at = name_place(&file.clauses, i);
            object_at(alloc, file.clauses, i, at)
        }
    }
}

/// The object that a native file means: the one named by `which`, or without `which` the one named by the last `default`,
/// or without a `default` the last one. In it stands, for each reference, the object that the reference names. A clause is
/// made into one object, which all that refer to it share.
///
/// A file that means none is refused with a kind and an offset in bytes from 0:
/// - `Syntax` at a token or byte that doesn't fit, and at a name that stands twice.
/// - `FloatType` at a word that begins as a number and is none where a number may stand, at the types `float` and
///   `double`, and at a word in the place of `type`.
/// - `UnknownClass` at a word behind `class` that is none of the ten classes.
/// - `ValueRange` at a number that is outside its range, and at the class word of a grid or a regular array with an item
///   outside its type.
/// - `TooManyItems` at a number of items above the limits, and at the class word of a grid with more.
/// - `Truncated` at the end of the text, where a clause wants more.
/// - `OtherFile` at `file` behind `value` or `data`, and at a number behind `data`.
/// - `NoObject` at a reference, the last `default` included, that names no object.
/// - `BadPart` at a component that is no array, and, in a composite group, at a member that is no field.
/// - `NoVariable` at the end of the text, where no object has the name that is asked for, or there is no object.
/// - `TooDeep` at the name of the object in its clause, where it has more than 64 levels, as in a cycle.
/// - `TooLarge` there, where it is beyond another limit of objects.
///
/// The first seven are looked for first, and the first of them in the file counts; then the next two, and the first in the
/// file of these; then the last three in this order.
pub fn read_object(alloc: Global, bytes: &[u8], which: Option<&Bytes>) -> Result<Object, NativeFail>
    // What is answered is what the text means: an object, or the kind and the offset of its refusal.
    ensures answers { Answers bytes.now (option_map (λ b. b.now) which.entry) result }
    // What the text means is answered, unless memory runs out.
    ensures only { (r : Result Tree Fault) → IsNative bytes.now (option_map (λ b. b.now) which.entry) r → Means r result }
    // The origins and deltas of regular arrays and of grids' points are ints.
    ensures ints { IfOk result (λ t. steps_by_ints t ≡ true) }
{
    match read(alloc, bytes, which) {
        Err(fail) => Err(fail),
        Ok(contents) => Ok(object_of(contents)),
    }
}

/// What a file means, as `read_object` has it, and whether the fields within are good. Each clause is looked at once for
/// that, so a part that many refer to costs no more than one that stands alone.
pub fn read_checked(
    alloc: Global,
    bytes: &[u8],
    which: Option<&Bytes>,
) -> Result<Checked, NativeFail>
    ensures answers { Answers bytes.now (option_map (λ b. b.now) which.entry) (checked_object result) }
    ensures only { (r : Result Tree Fault) → IsNative bytes.now (option_map (λ b. b.now) which.entry) r → Means r (checked_object result) }
    ensures ints { IfOk result (λ checked. steps_by_ints checked.object ≡ true) }
    ensures good { IfOk result (λ checked. checked.good_fields ≡ good_fields checked.object) }
{
    match read(alloc, bytes, which) {
        Err(fail) => Err(fail),
        Ok(contents) => Ok(with_check(alloc, contents)?),
    }
}

fn object_of(contents: Contents) -> Object
    ensures { result ≡ contents.object }
{
    let Contents {
        object,
        place: _,
        clauses: _,
        memo: _,
    } = contents;
    object
}

fn with_check(alloc: Global, contents: Contents) -> Result<Checked, AllocError>
    requires { IsFound contents }
    ensures object { IfOk result (λ checked. checked.object ≡ contents.object) }
    ensures good { IfOk result (λ checked. checked.good_fields ≡ good_fields contents.object) }
{
    let Contents {
        object,
        place,
        clauses,
        mut memo,
    } = contents;
    let good_fields = are_fields_good(alloc, &clauses, &mut memo, place, &object)?;
    Ok(Checked {
        object,
        good_fields,
    })
}

/// Whether the fields of this object, which clause number i means, are good. An array has none.
fn are_fields_good(
    alloc: Global,
    clauses: &OutlineTable,
    memo: &mut Memo,
    i: usize,
    object: &Object,
) -> Result<bool, AllocError>
    requires known { array_of object.now ≡ None → IsKnown clauses.now memo.old }
    requires means { spec.tree_at clauses.now 64 i ≡ Some object.now }
    ensures { IfOk result (λ good. good ≡ good_fields object.now) }
{
    match object.as_array() {
        Some(_) => Ok(true),
        None => has_good_fields(alloc, clauses, memo, i, object),
    }
}

/// The clauses of a file, and the object that is asked for.
fn read(alloc: Global, bytes: &[u8], which: Option<&Bytes>) -> Result<Contents, NativeFail>
    ensures answers { Answers bytes.now (option_map (λ b. b.now) which.entry) (read_tree result) }
    ensures only { (r : Result Tree Fault) → IsNative bytes.now (option_map (λ b. b.now) which.entry) r → Means r (read_tree result) }
    ensures ints { IfOk result (λ contents. steps_by_ints contents.object ≡ true) }
    ensures found { IfOk result (λ contents. IsFound contents) }
{
    contents_of(alloc, bytes, which)
}

fn contents_of(alloc: Global, bytes: &[u8], which: Option<&Bytes>) -> Result<Contents, NativeFail>
    ensures answers { Answers bytes.now (option_map (λ b. b.now) which.entry) (read_tree result) }
    ensures ints { IfOk result (λ contents. steps_by_ints contents.object ≡ true) }
    ensures found { IfOk result (λ contents. IsFound contents) }
{
    let file = read_clauses(alloc, bytes)?;
    object_of_file(alloc, file, which, bytes.len() as u64)
}
