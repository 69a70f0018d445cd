//! How an execution ended.
ghost use Rattle.std.specs.Prelude.{◌≡◌, is_some};
ghost use Rattle.dx_making.specs.Failing.{is_faulty as is_fault};
ghost use Rattle.dx_sessions.specs.Ended.{erred_of, is_error, is_faulty};

use dx_making::{End, Failing};

/// How an execution ended that wasn't cut short.
#[derive(Clone, Copy)]
pub(crate) enum Ended {
    /// Each of its effects was performed.
    Whole,
    /// A call refused its inputs.
    Refused,
    /// The statement has a static fault.
    Faulty,
}

impl Ended {
    /// Whether an error line was due.
    pub(crate) fn is_error(self) -> bool
        ensures { result ≡ is_error self }
    {
        match self {
            Ended::Whole => false,
            Ended::Refused | Ended::Faulty => true,
        }
    }

    /// Whether the statement has a static fault.
    pub(crate) fn is_faulty(self) -> bool
        ensures { result ≡ is_faulty self }
    {
        match self {
            Ended::Whole | Ended::Refused => false,
            Ended::Faulty => true,
        }
    }
}

/// How an execution ended, by what is wrong with a call, if anything is.
pub(crate) fn how(failing: &Option<Failing>) -> Ended
    ensures error { is_error result ≡ is_some failing.now }
    ensures fault { is_faulty result ≡ is_fault failing.now }
{
    match failing {
        None => Ended::Whole,
        Some(Failing::Refused(_, _)) => Ended::Refused,
        Some(Failing::Faulty(_, _)) => Ended::Faulty,
    }
}

/// Whether an error line was due, where the execution wasn't cut short.
pub(crate) fn erred(ended: Result<Ended, End>) -> Result<bool, End>
    ensures { result ≡ erred_of ended }
{
    match ended {
        Ok(ended) => Ok(ended.is_error()),
        Err(end) => Err(end),
    }
}
