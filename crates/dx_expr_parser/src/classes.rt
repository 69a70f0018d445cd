//! Which signs are operators and functions.

ghost use Rattle.std.specs.Prelude.{◌≡◌, ◌==◌};
ghost use Rattle.dx_expr_grammar.specs.Words as words;

use dx_expr_grammar::{Binary, Level, Sign, Unary};

pub fn same_sign(a: Sign, b: Sign) -> bool
    ensures { result ≡ (words.code a == words.code b) }
{
    a as u8 == b as u8
}

fn same_level(a: Level, b: Level) -> bool
    ensures { result ≡ (words.rank a == words.rank b) }
{
    a as u8 == b as u8
}

/// The operator between two operands that a sign is, with its level.
fn operator(sign: Sign) -> Option<(Level, Binary)>
    ensures { result ≡ words.operator sign }
{
    match sign {
        Sign::Or => Some((Level::Or, Binary::Or)),
        Sign::And => Some((Level::And, Binary::And)),
        Sign::Equal => Some((Level::Equality, Binary::Equal)),
        Sign::NotEqual => Some((Level::Equality, Binary::NotEqual)),
        Sign::Less => Some((Level::Relation, Binary::Less)),
        Sign::LessEqual => Some((Level::Relation, Binary::LessEqual)),
        Sign::Greater => Some((Level::Relation, Binary::Greater)),
        Sign::GreaterEqual => Some((Level::Relation, Binary::GreaterEqual)),
        Sign::Plus => Some((Level::Sum, Binary::Add)),
        Sign::Minus => Some((Level::Sum, Binary::Subtract)),
        Sign::Times => Some((Level::Product, Binary::Multiply)),
        Sign::Over => Some((Level::Product, Binary::Divide)),
        Sign::Percent => Some((Level::Product, Binary::Remainder)),
        _ => None,
    }
}

/// The operator of this level that a sign is.
pub fn operator_at(level: Level, sign: Sign) -> Option<Binary>
    ensures { result ≡ words.operator_at level sign }
{
    match operator(sign) {
        None => None,
        Some((l, o)) => { if same_level(l, level) { Some(o) } else { None } }
    }
}

/// The operator before an operand that a sign is.
pub fn prefix(sign: Sign) -> Option<Unary>
    ensures { result ≡ words.prefix sign }
{
    match sign {
        Sign::Minus => Some(Unary::Negate),
        Sign::Not => Some(Unary::Not),
        _ => None,
    }
}

/// The function of one operand that a sign names.
pub fn one_operand(sign: Sign) -> Option<Unary>
    ensures { result ≡ words.one_operand sign }
{
    match sign {
        Sign::Abs => Some(Unary::Absolute),
        Sign::SignOf => Some(Unary::Sign),
        _ => None,
    }
}

/// The function of two operands that a sign names.
pub fn two_operands(sign: Sign) -> Option<Binary>
    ensures { result ≡ words.two_operands sign }
{
    match sign {
        Sign::Min => Some(Binary::Minimum),
        Sign::Max => Some(Binary::Maximum),
        Sign::DotProduct => Some(Binary::Dot),
        _ => None,
    }
}
