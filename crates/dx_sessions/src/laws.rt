//! A law of sessions that are cut short.
ghost use Rattle.std.specs.Prelude.{Bool, List};
ghost use Rattle.dx_engine.specs.Executing.{Devices};
ghost use Rattle.dx_shown.specs.Made.{Coursed};
ghost use Rattle.dx_shown.specs.Session.{Shown};
ghost use Rattle.dx_telling.specs.declared.listings.Listings.{Listings};
ghost use Rattle.dx_sessions.specs.Does.{IsCutShort, IsFront};

/// Where a session is cut short, a front of what it shows was printed, a front put and a front of its runs made.
pub fn cuts_leave_fronts()
    ensures { (ahead : Bool) (listings : Listings) (shown : List (Shown Coursed)) (was now : Devices) → IsCutShort ahead listings shown was now → IsFront ahead listings shown was now }
{}
