//! Items and whole scripts.

ghost use Rattle.std.specs.Prelude.{◌≡◌, ◌≤◌, [], List, length, IfOk, IfErr};
ghost use Rattle.dx_script_grammar.specs.Reading as reading;
ghost use Rattle.dx_base.specs.declared.token.SyntaxError.{SyntaxError};
ghost use Rattle.dx_ast.specs.declared.statements.Stmt.{Stmt};
ghost use Rattle.dx_ast.specs.Script.{IsScript, IsFirstError};
ghost use Rattle.dx_ast.specs.Plain.{plain_stmts};
ghost use Rattle.dx_ast.specs.Lawful.{AreLawful};
ghost use Rattle.dx_cursor.specs.Answers.{Reads};
ghost use Rattle.dx_parser.specs.Answers.{IsOnly, IsOnlyError, OnRefused};

use crate::macros::{add, definition};
use crate::statements::word_or_statement;
use dx_ast::{Const, Expr, Stmt, Stmts};
use dx_base::Items;
use dx_cursor::{Cursor, ParseFail};
use std::alloc::Global;

#[tactic(auto, unfolding(dx_script_grammar::specs::Reading::inclusion))]
fn inclusion(alloc: Global, cursor: &mut Cursor<'_>) -> Result<Option<Stmt>, ParseFail>
    ensures { Reads (reading.inclusion cursor.old) result cursor.new }
{
    cursor.key(alloc, b"include")?;
    let (_, name) = cursor.text(alloc)?;
    Ok(Some(Stmt::Include(name)))
}

#[tactic(auto, unfolding(dx_script_grammar::specs::Reading::frame_value))]
fn frame_value(alloc: Global, cursor: &mut Cursor<'_>) -> Result<Expr, ParseFail>
    ensures { Reads (reading.frame_value cursor.old) result cursor.new }
{
    if cursor.sees_int() {
        let (_, n) = cursor.int(alloc)?;
        Ok(Expr::Constant(Const::Int(n)))
    } else {
        let (_, frame) = cursor.frame(alloc)?;
        Ok(Expr::Frame(frame))
    }
}

#[tactic(auto, unfolding(dx_script_grammar::specs::Reading::frame_setting))]
fn frame_setting(alloc: Global, cursor: &mut Cursor<'_>) -> Result<Option<Stmt>, ParseFail>
    ensures { Reads (reading.frame_setting cursor.old) result cursor.new }
{
    let (_, frame) = cursor.frame(alloc)?;
    cursor.sign(alloc, b"=")?;
    let value = frame_value(alloc, cursor)?;
    cursor.sign(alloc, b";")?;
    Ok(Some(Stmt::SetFrame(frame, value)))
}

#[tactic(auto, unfolding(dx_script_grammar::specs::Reading::item))]
fn item(alloc: Global, cursor: &mut Cursor<'_>) -> Result<Option<Stmt>, ParseFail>
    ensures { Reads (reading.item cursor.old) result cursor.new }
{
    if cursor.sees(b";") {
        cursor.sign(alloc, b";")?;
        Ok(None)
    } else if cursor.sees_key(b"include") {
        inclusion(alloc, cursor)
    } else if cursor.sees_key(b"macro") {
        definition(alloc, cursor)
    } else if cursor.sees_frame() {
        frame_setting(alloc, cursor)
    } else {
        word_or_statement(alloc, cursor)
    }
}

fn items(alloc: Global, cursor: &mut Cursor<'_>) -> Result<Stmts, ParseFail>
    ensures { Reads (reading.items [] cursor.old) result cursor.new }
{
    let mut found = Items::new(alloc);
    'each: while !cursor.has_ended() {
        let item = item(alloc, cursor)?;
        add(&mut found, item)?;
    }
    Ok(found)
}

fn script(alloc: Global, cursor: &mut Cursor<'_>) -> Result<Stmts, ParseFail>
    ensures { Reads (reading.script cursor.old) result cursor.new }
{
    let found = items(alloc, cursor)?;
    cursor.end()?;
    Ok(found)
}

/// The statements of a text. A text that is no script is refused at its first error.
pub fn parse(alloc: Global, text: &[u8]) -> Result<Stmts, ParseFail>
    // What is answered are the statements of the text.
    ensures found { IfOk result (IsScript text.now) }
    // The statements of the text are answered, unless memory runs out.
    ensures only { (statements : List Stmt) → IsScript text.now statements → IsOnly statements result }
    // What is refused is refused at its first error.
    ensures refused { IfErr result (OnRefused (IsFirstError text.now)) }
    // The first error of the text is answered, unless memory runs out.
    ensures error { (f : SyntaxError) → IsFirstError text.now f → IsOnlyError f result }
    // The statements of a text that isn't too long are lawful.
    ensures lawful { length text.now ≤ 16777216 → IfOk result (λ statements. AreLawful (plain_stmts statements)) }
{
    let mut cursor = Cursor::new(alloc, text)?;
    script(alloc, &mut cursor)
}
