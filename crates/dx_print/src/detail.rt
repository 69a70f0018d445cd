//! How much Print is asked to show.
ghost use Rattle.std.specs.Prelude.{◌≡◌};
ghost use Rattle.std.specs.List.{list_all};
ghost use Rattle.dx_objects.specs.Values.{value_of};
ghost use Rattle.dx_print.specs.Printed as spec;

use dx_base::Code;
use dx_objects::Value;

/// What is printed of an object.
#[derive(Clone, Copy)]
pub(crate) struct Detail {
    /// Its parts and attributes too.
    pub(crate) parts: bool,
    /// Which items of an array.
    pub(crate) items: Shown,
}

/// The items of an array that are printed.
#[derive(Clone, Copy)]
pub(crate) enum Shown {
    NoItems,
    /// All, or those at the ends where there are many.
    FewItems,
    AllItems,
}

/// What these options of Print ask for. NULL is taken as `o`, another kind than a text is BadArgument, and a text with a
/// byte that isn't one of `o`, `r`, `d` and `D` is Unsupported.
pub(crate) fn detail_of(options: &Value) -> Result<Detail, Code>
    ensures { result ≡ spec.detail_of (value_of options.now) }
{
    let Some(options) = options else {
        return Ok(Detail {
            parts: false,
            items: Shown::NoItems,
        });
    };
    match options.as_text() {
        None => Err(Code::BadArgument),
        Some(letters) => detail_of_letters(letters),
    }
}

fn detail_of_letters(letters: &[u8]) -> Result<Detail, Code>
    ensures { result ≡ spec.detail_of_letters letters.now }
{
    if !are_options(letters) {
        return Err(Code::Unsupported);
    }
    Ok(Detail {
        parts: has(letters, b'r'),
        items: shown_by(has(letters, b'D'), has(letters, b'd')),
    })
}

fn are_options(letters: &[u8]) -> bool
    ensures { result ≡ list_all spec.is_option letters.now }
{
    letters
        .iter()
        .all(|b| *b == b'o' || *b == b'r' || *b == b'd' || *b == b'D')
}

fn has(letters: &[u8], letter: u8) -> bool
    ensures { result ≡ spec.has letter letters.now }
{
    letters.iter().any(|b| *b == letter)
}

fn shown_by(all: bool, few: bool) -> Shown
    ensures { result ≡ spec.shown_by all few }
{
    if all {
        Shown::AllItems
    } else if few {
        Shown::FewItems
    } else {
        Shown::NoItems
    }
}
