//! Statements, which begin with a name.

ghost use Rattle.std.specs.Prelude.{◌≡◌, ◌∷◌, []};
ghost use Rattle.dx_script_grammar.specs.Reading as reading;
ghost use Rattle.dx_cursor.specs.Answers.{Reads};

use dx_ast::{Assign, Boxed, Expr, Stmt, TextList, Word};
use dx_base::Bytes;
use dx_calls::{call_after, expression};
use dx_cursor::{Cursor, ParseFail, is_word, switch_named, word_named};
use std::alloc::Global;

/// Calls within the arguments of calls, the outermost counted.
const MAX_DEPTH: u8 = 64;

#[tactic(auto, unfolding(dx_script_grammar::specs::Reading::target))]
fn target(alloc: Global, cursor: &mut Cursor<'_>) -> Result<Bytes, ParseFail>
    ensures { Reads (reading.target cursor.old) result cursor.new }
{
    cursor.sign(alloc, b",")?;
    let (_, name) = cursor.name(alloc)?;
    Ok(name)
}

fn targets(
    alloc: Global,
    cursor: &mut Cursor<'_>,
    first: Bytes,
    second: Bytes,
) -> Result<TextList, ParseFail>
    ensures { Reads (reading.targets (first ∷ second ∷ []) cursor.old) result cursor.new }
{
    let mut found = TextList::one(alloc, first);
    found.push(second)?;
    'each: while cursor.sees(b",") {
        let name = target(alloc, cursor)?;
        found.push(name)?;
    }
    Ok(found)
}

/// A call of `Executive` is read and left out.
#[tactic(auto, unfolding(dx_script_grammar::specs::Reading::called))]
fn called(alloc: Global, cursor: &mut Cursor<'_>, name: Bytes) -> Result<Option<Stmt>, ParseFail>
    ensures { Reads (reading.called name cursor.old) result cursor.new }
{
    let is_left_out = is_word(name.bytes(), b"Executive");
    let call = call_after(alloc, cursor, MAX_DEPTH, name)?;
    cursor.sign(alloc, b";")?;
    if is_left_out {
        Ok(None)
    } else {
        Ok(Some(Stmt::Call(call)))
    }
}

#[tactic(auto, unfolding(dx_script_grammar::specs::Reading::single))]
fn single(alloc: Global, cursor: &mut Cursor<'_>, name: Bytes) -> Result<Option<Stmt>, ParseFail>
    ensures { Reads (reading.single name cursor.old) result cursor.new }
{
    let targets = TextList::one(alloc, name);
    cursor.sign(alloc, b"=")?;
    let value = expression(alloc, cursor, MAX_DEPTH)?;
    cursor.sign(alloc, b";")?;
    Ok(Some(Stmt::Assign(Assign { targets, value })))
}

#[tactic(auto, unfolding(dx_script_grammar::specs::Reading::several))]
pub fn several(
    alloc: Global,
    cursor: &mut Cursor<'_>,
    name: Bytes,
) -> Result<Option<Stmt>, ParseFail>
    ensures { Reads (reading.several name cursor.old) result cursor.new }
{
    let second = target(alloc, cursor)?;
    let targets = targets(alloc, cursor, name, second)?;
    cursor.sign(alloc, b"=")?;
    let (_, function) = cursor.name(alloc)?;
    let call = call_after(alloc, cursor, MAX_DEPTH, function)?;
    cursor.sign(alloc, b";")?;
    let value = Expr::Call(Boxed::new(alloc, call)?);
    Ok(Some(Stmt::Assign(Assign { targets, value })))
}

/// A call with its name, for each step of the sequencer.
#[tactic(auto, unfolding(dx_script_grammar::specs::Reading::sequenced))]
fn sequenced(alloc: Global, cursor: &mut Cursor<'_>) -> Result<Option<Stmt>, ParseFail>
    ensures { Reads (reading.sequenced cursor.old) result cursor.new }
{
    let (_, name) = cursor.name(alloc)?;
    let call = call_after(alloc, cursor, MAX_DEPTH, name)?;
    cursor.sign(alloc, b";")?;
    Ok(Some(Stmt::Sequence(call)))
}

#[tactic(auto, unfolding(dx_script_grammar::specs::Reading::alone))]
fn alone(alloc: Global, cursor: &mut Cursor<'_>, word: Word) -> Result<Option<Stmt>, ParseFail>
    ensures { Reads (reading.alone word cursor.old) result cursor.new }
{
    cursor.sign(alloc, b";")?;
    Ok(Some(Stmt::Word(word)))
}

#[tactic(auto, unfolding(dx_script_grammar::specs::Reading::switched))]
fn switched(
    alloc: Global,
    cursor: &mut Cursor<'_>,
    switch: (Word, Word),
) -> Result<Option<Stmt>, ParseFail>
    ensures { Reads (reading.switched switch cursor.old) result cursor.new }
{
    let (_, word) = cursor.state(alloc, switch)?;
    cursor.sign(alloc, b";")?;
    Ok(Some(Stmt::Word(word)))
}

#[tactic(auto, unfolding(dx_script_grammar::specs::Reading::sequence_or_several))]
fn sequence_or_several(
    alloc: Global,
    cursor: &mut Cursor<'_>,
    is_sequence: bool,
    name: Bytes,
) -> Result<Option<Stmt>, ParseFail>
    ensures { Reads (reading.sequence_or_several is_sequence name cursor.old) result cursor.new }
{
    if is_sequence && cursor.sees_name() {
        sequenced(alloc, cursor)
    } else {
        several(alloc, cursor, name)
    }
}

#[tactic(auto, unfolding(dx_script_grammar::specs::Reading::switch_or_several))]
fn switch_or_several(
    alloc: Global,
    cursor: &mut Cursor<'_>,
    switch: Option<(Word, Word)>,
    name: Bytes,
) -> Result<Option<Stmt>, ParseFail>
    ensures { Reads (reading.switch_or_several switch name cursor.old) result cursor.new }
{
    match switch {
        Some(switch) => {
            if cursor.sees_name() {
                switched(alloc, cursor, switch)
            } else {
                several(alloc, cursor, name)
            }
        }
        None => {
            let is_sequence = is_word(name.bytes(), b"sequence");
            sequence_or_several(alloc, cursor, is_sequence, name)
        }
    }
}

#[tactic(auto, unfolding(dx_script_grammar::specs::Reading::word_or_several))]
fn word_or_several(
    alloc: Global,
    cursor: &mut Cursor<'_>,
    word: Option<Word>,
    name: Bytes,
) -> Result<Option<Stmt>, ParseFail>
    ensures { Reads (reading.word_or_several word name cursor.old) result cursor.new }
{
    match word {
        Some(word) => {
            if cursor.sees(b";") {
                alone(alloc, cursor, word)
            } else {
                several(alloc, cursor, name)
            }
        }
        None => {
            let switch = switch_named(name.bytes());
            switch_or_several(alloc, cursor, switch, name)
        }
    }
}

/// A call or an assignment.
#[tactic(auto, unfolding(dx_script_grammar::specs::Reading::statement, dx_script_grammar::specs::Reading::after_name))]
pub fn statement(alloc: Global, cursor: &mut Cursor<'_>) -> Result<Option<Stmt>, ParseFail>
    ensures { Reads (reading.statement cursor.old) result cursor.new }
{
    let (_, name) = cursor.name(alloc)?;
    if cursor.sees(b"(") {
        called(alloc, cursor, name)
    } else if cursor.sees(b"=") {
        single(alloc, cursor, name)
    } else {
        several(alloc, cursor, name)
    }
}

/// A word of the sequencer, a call or an assignment.
#[tactic(auto, unfolding(dx_script_grammar::specs::Reading::named, dx_script_grammar::specs::Reading::after_name))]
pub fn word_or_statement(alloc: Global, cursor: &mut Cursor<'_>) -> Result<Option<Stmt>, ParseFail>
    ensures { Reads (reading.named cursor.old) result cursor.new }
{
    let (_, name) = cursor.name(alloc)?;
    if cursor.sees(b"(") {
        called(alloc, cursor, name)
    } else if cursor.sees(b"=") {
        single(alloc, cursor, name)
    } else {
        let word = word_named(name.bytes());
        word_or_several(alloc, cursor, word, name)
    }
}
