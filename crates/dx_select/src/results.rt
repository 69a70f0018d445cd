//! Results of one object.
ghost use Rattle.std.specs.Prelude.{◌≡◌, ◌∷◌, [], Some, None, Ok, Err, IfOk};
ghost use Rattle.dx_objects.specs.Runs.{Gives};

use dx_objects::{Code, Object, Outs, RunFail};
use std::alloc::{AllocError, Global};
use std::rc::Rc;

/// The object, shared.
pub(crate) fn shared(alloc: Global, object: Object) -> Result<Rc<Object>, AllocError>
    ensures { IfOk result (λ o. o.value ≡ object) }
{
    Ok(Rc::new(alloc, object)?)
}

/// This object as the one result.
pub(crate) fn one(alloc: Global, object: Rc<Object>) -> Result<Outs, RunFail>
    ensures { Gives (Ok (Some object.value ∷ [])) result }
{
    let mut results = Outs::new(alloc);
    results.push(Some(object))?;
    Ok(results)
}

/// A new object as the one result.
pub(crate) fn new(alloc: Global, object: Object) -> Result<Outs, RunFail>
    ensures { Gives (Ok (Some object ∷ [])) result }
{
    one(alloc, shared(alloc, object)?)
}

/// No result, and this code.
pub(crate) fn refused(code: Code) -> Result<Outs, RunFail>
    ensures { Gives (Err code) result }
{
    Err(RunFail::Code(code))
}
