//! The line of the error that an execution ends with.
ghost use Rattle.std.specs.Prelude.{◌≡◌, ◌++◌, OnOk};
ghost use Rattle.dx_print.specs.Errors.{code_text, error_line};
ghost use Rattle.dx_telling.specs.AtHand.{failing_line, failing_text};
ghost use Rattle.dx_telling.specs.Behind.{fault_text};

use dx_base::Code;
use dx_macros::StaticFault;
use dx_making::Failing;
use dx_print::{push_code, push_error_line};
use std::alloc::AllocError;

/// Appends the line of what is wrong with a call, and nothing where nothing is.
pub(crate) fn push_error(out: &mut Vec<u8>, failing: &Option<Failing>) -> Result<(), AllocError>
    ensures { OnOk result (out.new.items ≡ out.old.items ++ failing_text failing.now) }
{
    match failing {
        None => Ok(()),
        Some(failing) => push_failing(out, failing),
    }
}

fn push_failing(out: &mut Vec<u8>, failing: &Failing) -> Result<(), AllocError>
    ensures { OnOk result (out.new.items ≡ out.old.items ++ failing_line failing.now) }
{
    match failing {
        Failing::Faulty(site, fault) => push_error_line(out, site.bytes(), fault_word(*fault)),
        Failing::Refused(site, code) => push_refused(out, site.bytes(), *code),
    }
}

// The word of the code is written into the line.
fn push_refused(out: &mut Vec<u8>, site: &[u8], code: Code) -> Result<(), AllocError>
    ensures { OnOk result (out.new.items ≡ out.old.items ++ error_line site.now (code_text code)) }
{
    out.extend_from_slice(b"error ")?;
    out.extend_from_slice(site)?;
    out.extend_from_slice(b": ")?;
    push_code(out, code)?;
    Ok(out.push(b'\n')?)
}

fn fault_word(fault: StaticFault) -> &'static [u8]
    ensures { result.now ≡ fault_text fault }
{
    match fault {
        StaticFault::UnknownFunction => b"UnknownFunction",
        StaticFault::TooManyArguments => b"TooManyArguments",
        StaticFault::NoSuchParameter => b"NoSuchParameter",
        StaticFault::TooManyResults => b"TooManyResults",
        StaticFault::Nesting => b"Nesting",
        StaticFault::Calls => b"Calls",
    }
}
