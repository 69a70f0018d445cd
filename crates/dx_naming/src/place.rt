//! Which input of a call is its selector.
ghost use Rattle.std.specs.Prelude.{◌≡◌};
ghost use Rattle.dx_meaning.specs.Picking.{selector_at};

use dx_base::Function;

/// The number of the input that is the selector, or 0.
pub(crate) fn place_of_selector(what: Function) -> usize
    ensures { result ≡ selector_at what }
{
    match what {
        Function::GetLocal | Function::GetGlobal => 1,
        Function::Switch | Function::Route => 0,
        Function::Module(_) => 0,
        Function::Effect(_) => 0,
    }
}
