//! The numbers that options take: decimal digits, with no sign.
ghost use Rattle.std.specs.Prelude.{◌≡◌, ◌-◌, ◌^◌, min, option_map};
ghost use Rattle.std.specs.List.{list_all};
ghost use Rattle.dx_base.specs.Tokens.Classes.{is_digit};
ghost use Rattle.dx_base.specs.Tokens.Spelling.{value_of};
ghost use Rattle.dx_words.specs.Values.{budget_of, digits_of, executions_of, is_number};

/// The most digits that a budget has.
const BUDGET_DIGITS: usize = 13;

/// The largest budget.
const LARGEST_BUDGET: u64 = 1_099_511_627_776;

/// The most digits that a number of executions has.
const EXECUTION_DIGITS: usize = 6;

/// The largest number of executions.
const MOST_EXECUTIONS: u64 = 100_000;

/// The budget that a value says, in bytes of stated sizes; None where it is no budget.
pub(crate) fn budget(value: &[u8]) -> Option<u64>
    ensures { result ≡ budget_of value.now }
{
    let n = digits(value, BUDGET_DIGITS)?;
    if n <= LARGEST_BUDGET { Some(n) } else { None }
}

/// The number of executions that a value says; None where it is no such number.
pub(crate) fn executions(value: &[u8]) -> Option<u32>
    ensures { result ≡ executions_of value.now }
{
    let n = digits(value, EXECUTION_DIGITS)?;
    if 1 <= n && n <= MOST_EXECUTIONS {
        Some(n as u32)
    } else {
        None
    }
}

// The number of one to so many digits, or the greatest `u64` where it is above that; None where there is anything else.
fn digits(value: &[u8], most: usize) -> Option<u64>
    ensures { result ≡ option_map (λ n. min n (2 ^ 64 - 1)) (digits_of most value.now) }
{
    if are_digits(value, most) {
        Some(number(value))
    } else {
        None
    }
}

fn are_digits(value: &[u8], most: usize) -> bool
    ensures { result ≡ is_number most value.now }
{
    1 <= value.len() && value.len() <= most && all_digits(value)
}

fn all_digits(value: &[u8]) -> bool
    ensures { result ≡ list_all is_digit value.now }
{
    value.iter().all(|b| b.is_ascii_digit())
}

fn number(digits: &[u8]) -> u64
    ensures { result ≡ min (value_of digits.now) (2 ^ 64 - 1) }
{
    let mut n = 0u64;
    for b in digits {
        n = n
            .saturating_mul(10)
            .saturating_add(u64::from(b.saturating_sub(b'0')));
    }
    n
}
