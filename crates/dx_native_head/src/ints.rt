//! Many ints, which are kept in 4 bytes each.

ghost use Rattle.std.specs.Prelude.{◌≡◌, ◌++◌, ◌-◌, OnOk, IfOk};
ghost use Rattle.std.specs.List.{All};
ghost use Rattle.dx_native_lex.specs.Token.{Reads};
ghost use Rattle.dx_native_grammar.specs.Grammar.{counted, int};
ghost use Rattle.dx_native_head.specs.Many.{Goes, IsInt};

use crate::many::numbers;
use dx_base::{ElemType, Items};
use dx_native_lex::{Cursor, NativeFail};
use std::alloc::{AllocError, Global};

/// How many are read before they join those found.
const CHUNK: usize = 1024;

/// Puts these numbers, each of which is an int, behind those found.
fn push_ints(values: &[i64], found: &mut Vec<i32>) -> Result<(), AllocError>
    requires { All IsInt values.now }
    ensures { OnOk result (found.new.items ≡ found.old.items ++ values.now) }
{
    found.reserve(values.len())?;
    for value in values {
        found.push_reserved(*value as i32);
    }
    Ok(())
}

/// Puts the next of so many ints behind those found: how many are left then.
fn some_ints(
    alloc: Global,
    cursor: &mut Cursor<'_>,
    n: usize,
    found: &mut Vec<i32>,
) -> Result<usize, NativeFail>
    ensures read { Goes int n found.old.items cursor.old result found.new.items cursor.new }
    ensures fewer { IfOk result (λ left. left ≡ n - 1024) }
{
    let count = n.min(CHUNK);
    let room = Items::from_vec(Vec::with_capacity(alloc, count)?);
    let values = numbers(cursor, ElemType::Int, count, room)?;
    push_ints(values.as_slice(), found)?;
    Ok(n - count)
}

/// So many more ints, behind those found.
#[tactic(auto, unfolding(dx_native_grammar::specs::Grammar::counted))]
pub fn int_numbers(
    alloc: Global,
    cursor: &mut Cursor<'_>,
    n: usize,
    found: Items<i32>,
) -> Result<Items<i32>, NativeFail>
    ensures { Reads ((counted int n found).read cursor.old) result cursor.new }
{
    let mut values = found.into_vec();
    let mut left = n;
    while left > 0 {
        left = some_ints(alloc, cursor, left, &mut values)?;
    }
    Ok(Items::from_vec(values))
}
