//! Numbers of native files.
ghost use Rattle.std.specs.Prelude.{◌≡◌, ◌≤◌, ◌-◌, ◌^◌, length, min, option_map};
ghost use Rattle.std.specs.List.{list_all, prefix_len};
ghost use Rattle.dx_base.specs.Number as spec;
ghost use Rattle.dx_base.specs.NumberHeld.{held};
ghost use Rattle.dx_base.specs.Tokens.Classes.{is_digit, is_zero};
ghost use Rattle.dx_base.specs.Tokens.Spelling.{value_of as digits_value};

/// What is read of a number that is no `i64`.
#[derive(Clone, Copy, Debug, PartialEq, Eq)]
enum Beyond {
    Nothing,
    NearestEnd,
}

/// The number that a word of a native file spells: a sign or none, digits, and behind them a point with any number of
/// zeros, also none, or nothing. None where the word is no such number, or where the number is no `i64`.
pub fn read_int(s: &[u8]) -> Option<i64>
    ensures { result ≡ spec.as_i64 (spec.number_of s.now) }
{
    read(Beyond::Nothing, s)
}

/// The number that a word of a native file spells, or the end of the `i64` on its side where the number is beyond it.
/// None exactly where the word is no number.
pub fn read_number(s: &[u8]) -> Option<i64>
    ensures { result ≡ option_map spec.nearest_i64 (spec.number_of s.now) }
{
    read(Beyond::NearestEnd, s)
}

#[tactic(auto, unfolding(crate::specs::Number::number_of))]
fn read(beyond: Beyond, s: &[u8]) -> Option<i64>
    ensures { result ≡ held beyond (spec.number_of s.now) }
{
    match s {
        [b'-', rest @ ..] => read_behind(beyond, true, rest),
        [b'+', rest @ ..] => read_behind(beyond, false, rest),
        [] => None,
        _ => read_behind(beyond, false, s),
    }
}

#[tactic(auto, unfolding(crate::specs::Number::number_behind))]
fn read_behind(beyond: Beyond, negative: bool, s: &[u8]) -> Option<i64>
    ensures { result ≡ held beyond (spec.number_behind negative s.now) }
{
    let (digits, rest) = s.split_at(digit_len(s));
    read_with(beyond, negative, digits, rest)
}

fn read_with(beyond: Beyond, negative: bool, digits: &[u8], rest: &[u8]) -> Option<i64>
    ensures { result ≡ held beyond (spec.number_with negative digits.now rest.now) }
{
    match digits {
        [] => None,
        _ if is_fraction(rest) => signed(beyond, negative, value_of(digits)),
        _ => None,
    }
}

fn digit_len(s: &[u8]) -> usize
    ensures len { result ≡ prefix_len is_digit s.now }
    ensures within { result ≤ length s.now }
{
    s.iter().take_while(|b| b.is_ascii_digit()).count()
}

fn is_fraction(s: &[u8]) -> bool
    ensures { result ≡ spec.is_fraction s.now }
{
    match s {
        [] => true,
        [b, rest @ ..] => *b == b'.' && are_zeros(rest),
    }
}

fn are_zeros(s: &[u8]) -> bool
    ensures { result ≡ list_all is_zero s.now }
{
    s.iter().all(|b| *b == b'0')
}

/// The number of the digits, or the greatest `u64` where it is above that.
fn value_of(digits: &[u8]) -> u64
    ensures { result ≡ min (digits_value digits.now) (2 ^ 64 - 1) }
{
    let mut n = 0u64;
    for b in digits {
        n = n
            .saturating_mul(10)
            .saturating_add(u64::from(b.saturating_sub(b'0')));
    }
    n
}

fn signed(beyond: Beyond, negative: bool, n: u64) -> Option<i64>
    ensures { result ≡ held beyond (Some (spec.signed negative n)) }
{
    match beyond {
        Beyond::Nothing => exactly(negative, n),
        Beyond::NearestEnd => Some(nearest(negative, n)),
    }
}

fn exactly(negative: bool, n: u64) -> Option<i64>
    ensures { result ≡ spec.as_i64 (Some (spec.signed negative n)) }
{
    if negative {
        i64::try_from(-(n as i128)).ok()
    } else {
        i64::try_from(n).ok()
    }
}

fn nearest(negative: bool, n: u64) -> i64
    ensures { result ≡ spec.nearest_i64 (spec.signed negative n) }
{
    if negative {
        i64::try_from(-(n as i128)).unwrap_or(i64::MIN)
    } else {
        i64::try_from(n).unwrap_or(i64::MAX)
    }
}
