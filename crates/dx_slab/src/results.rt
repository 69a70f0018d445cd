//! Results of one object.
ghost use Rattle.std.specs.Prelude.{◌≡◌, ◌∷◌, [], Some, Ok, Err, IfOk};
ghost use Rattle.dx_objects.specs.Runs.{Gives};
ghost use Rattle.dx_slab.specs.Answered.{one_result};
ghost use Rattle.dx_slab.specs.Gives.{GivesTree};
ghost use Rattle.dx_slab.specs.Answered.{Answered};
ghost use Rattle.dx_base.specs.Object.{Tree};

use dx_objects::{Code, Object, Outs, RunFail};
use std::alloc::{AllocError, Global};
use std::rc::Rc;

/// The object, shared.
pub(crate) fn shared(alloc: Global, object: Object) -> Result<Rc<Object>, AllocError>
    ensures { IfOk result (λ o. o.value ≡ object) }
{
    Ok(Rc::new(alloc, object)?)
}

/// This object as the one result.
pub(crate) fn one(alloc: Global, object: Object) -> Result<Outs, RunFail>
    ensures { Gives (Ok (Some object ∷ [])) result }
{
    let mut results = Outs::new(alloc);
    results.push(Some(shared(alloc, object)?))?;
    Ok(results)
}

/// No result, and this code.
pub(crate) fn refused(code: Code) -> Result<Outs, RunFail>
    ensures { Gives (Err code) result }
{
    Err(RunFail::Code(code))
}
