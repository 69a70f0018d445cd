//! Gaps: white space, comments and skipped lines.

ghost use Rattle.std.specs.Prelude.{◌≡◌, length, ◌==◌, false};
ghost use Rattle.dx_base.specs.Tokens.Places.{behind, IsWithin};
ghost use Rattle.dx_base.specs.Tokens.Reading as reading;

use crate::bytes::{begins, is_white};
use dx_base::Place;

/// Where the gap of white space, comments and skipped lines ends that begins at a place, and what is left there.
#[tactic(auto, unfolding(dx_base::specs::Tokens::Reading::after_gap))]
pub fn after_gap(at: Place, text: &[u8]) -> (Place, &[u8])
    requires { IsWithin at (length text.now) }
    ensures place { (result.0, result.1.now) ≡ reading.after_gap (at.offset == 0) false at text.now }
    ensures within { IsWithin result.0 (length result.1.now) }
{
    let mut place = at;
    let mut rest = text;
    let mut fresh = at.offset == 0;
    let mut passing = false;
    while let [b, after @ ..] = rest {
        let b = *b;
        if passing {
            passing = b != b'\n';
            fresh = fresh || !passing;
        } else if is_white(b) {
            fresh = fresh || b == b'\n';
        } else if fresh && b == b'$' || b == b'/' && begins(b'/', after) {
            passing = true;
        } else {
            break;
        }
        place = behind(place, b);
        rest = after;
    }
    (place, rest)
}

fn behind(at: Place, b: u8) -> Place
    requires { IsWithin at 1 }
    ensures { result ≡ behind at b }
{
    if b == b'\n' {
        Place {
            offset: at.offset + 1,
            line: at.line + 1,
            column: 1,
        }
    } else {
        Place {
            offset: at.offset + 1,
            line: at.line,
            column: at.column + 1,
        }
    }
}
