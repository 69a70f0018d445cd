//! Classes of bytes, and what a text begins with.

ghost use Rattle.std.specs.Prelude.{◌≡◌, ◌≤◌, length};
ghost use Rattle.std.specs.List.{prefix_len};
ghost use Rattle.dx_base.specs.Tokens.Classes as class;
ghost use Rattle.dx_base.specs.Tokens.Classes.{is_name_byte, is_digit};

pub fn is_white(b: u8) -> bool
    ensures { result ≡ class.is_white b }
{
    matches!(b, b' ' | b'\t' | b'\r' | b'\n')
}

pub fn is_name_start(b: u8) -> bool
    ensures { result ≡ class.is_name_start b }
{
    b.is_ascii_alphabetic() || b == b'_'
}

fn is_name_byte(b: u8) -> bool
    ensures { result ≡ is_name_byte b }
{
    is_name_start(b) || b.is_ascii_digit()
}

pub fn begins(c: u8, text: &[u8]) -> bool
    ensures { result ≡ class.begins c text.now }
{
    match text {
        [] => false,
        [b, ..] => *b == c,
    }
}

pub fn begins_two(c: u8, text: &[u8]) -> bool
    ensures { result ≡ class.begins_two c text.now }
{
    match text {
        [] => false,
        [b, rest @ ..] => *b == c && begins(c, rest),
    }
}

pub fn begins_digit(text: &[u8]) -> bool
    ensures { result ≡ class.begins_digit text.now }
{
    match text {
        [] => false,
        [b, ..] => b.is_ascii_digit(),
    }
}

fn begins_signed(text: &[u8]) -> bool
    ensures { result ≡ class.begins_signed text.now }
{
    match text {
        [] => false,
        [b, rest @ ..] => b.is_ascii_digit() || (*b == b'+' || *b == b'-') && begins_digit(rest),
    }
}

fn begins_exponent(text: &[u8]) -> bool
    ensures { result ≡ class.begins_exponent text.now }
{
    match text {
        [] => false,
        [b, rest @ ..] => (*b == b'e' || *b == b'E') && begins_signed(rest),
    }
}

/// Whether the digits before are no whole number: by a further digit, or by an exponent.
pub fn begins_float(rest: &[u8]) -> bool
    ensures { result ≡ class.begins_float rest.now }
{
    begins_digit(rest) || begins_exponent(rest)
}

/// How many bytes of a name a text begins with.
pub fn word_len(text: &[u8]) -> usize
    ensures len { result ≡ prefix_len is_name_byte text.now }
    ensures within { result ≤ length text.now }
{
    text.iter().take_while(|b| is_name_byte(**b)).count()
}

/// How many digits a text begins with.
pub fn digit_len(text: &[u8]) -> usize
    ensures len { result ≡ prefix_len is_digit text.now }
    ensures within { result ≤ length text.now }
{
    text.iter().take_while(|b| b.is_ascii_digit()).count()
}

/// How many zeros a text begins with.
pub fn zero_len(text: &[u8]) -> usize
    ensures len { result ≡ prefix_len class.is_zero text.now }
    ensures within { result ≤ length text.now }
{
    text.iter().take_while(|b| **b == b'0').count()
}
