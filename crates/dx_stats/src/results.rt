//! Results that are numbers.
ghost use Rattle.std.specs.Prelude.{◌≡◌, ◌++◌, ◌∷◌, [], OnOk, IfOk, IsTrue};
ghost use Rattle.dx_base.specs.Elem.{in_range};
ghost use Rattle.dx_base.specs.declared.elem.ElemType.TheVariants.{Int};
ghost use Rattle.dx_base.specs.ObjectNumbers.{number_value};
ghost use Rattle.dx_objects.specs.Values.{value_of};

use dx_objects::{ElemType, Object, Outs, Value, number};
use std::alloc::{AllocError, Global};
use std::rc::Rc;

/// Puts a number behind the results, or NULL where it is no int.
pub(crate) fn push_number(alloc: Global, results: &mut Outs, n: i128) -> Result<(), AllocError>
    ensures { OnOk result (results.new ≡ results.old ++ number_value n ∷ []) }
{
    results.push(wide_number(alloc, n)?)
}

fn wide_number(alloc: Global, n: i128) -> Result<Value, AllocError>
    ensures { IfOk result (λ v. value_of v ≡ number_value n) }
{
    if is_int(n) {
        number(alloc, narrowed(n))
    } else {
        Ok(None)
    }
}

fn is_int(n: i128) -> bool
    ensures { result ≡ in_range Int n }
{
    wide(ElemType::Int.lowest()) <= n && n <= wide(ElemType::Int.highest())
}

/// The same number in 128 bits.
pub(crate) fn wide(n: i64) -> i128
    ensures { result ≡ n }
{
    n as i128
}

#[tactic(auto, using(crate::proofs::Narrowed::int_fits))]
fn narrowed(n: i128) -> i64
    requires { IsTrue (in_range Int n) }
    ensures { result ≡ n }
{
    n as i64
}

/// The object, shared.
pub(crate) fn shared(alloc: Global, object: Object) -> Result<Rc<Object>, AllocError>
    ensures { IfOk result (λ shared. shared.value ≡ object) }
{
    Ok(Rc::new(alloc, object)?)
}
