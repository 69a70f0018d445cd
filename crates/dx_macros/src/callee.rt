//! What the name of a call means.
ghost use Rattle.std.specs.Prelude.{◌≡◌};
ghost use Rattle.dx_macros.specs.Dictionary.{callee};
ghost use Rattle.dx_macros.specs.DictionaryView.{dictionary_of};
ghost use Rattle.dx_signatures.specs.CalleeView.{plain_callee};

use crate::dictionary::Dictionary;
use dx_ast::function;
use dx_signatures::Callee;

/// What the name of a call means: the macro of that name, or else the function, or else nothing.
pub fn called<'a>(d: &'a Dictionary, name: &[u8]) -> Callee<'a>
    ensures { plain_callee result ≡ callee (dictionary_of d.now).macros name.now }
{
    match d.macro_of(name) {
        Some(m) => Callee::Macro(m),
        None => match function(name) {
            Some(f) => Callee::Function(f),
            None => Callee::Unknown,
        },
    }
}
