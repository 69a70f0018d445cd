//! What is true of executions and their courses.
ghost use Rattle.dx_performing.specs.Alike.{GetAllAlike, GetsAlike};
ghost use Rattle.dx_performing.specs.Meant.{EffectsComeSo, LeavesWhatIsMeant, ScansAreMeant};
ghost use Rattle.dx_performing.specs.Resuming.{AllSelectorsGoOn, LookingResumes, ReadyStays, SelectorsGoOn};
ghost use Rattle.dx_performing.specs.Rows.{Examples};
ghost use Rattle.dx_performing.specs.SoundEntries.{EntriesStaySound};
ghost use Rattle.dx_performing.specs.SoundLinks.{LinksStayRight, SetsAreRight};

/// What an effect prints, puts, sets or refuses; what is passed over; where an execution ends; and which runs, hits and stored
/// results its course has: a few executions that the definitions compute.
pub fn examples_compute()
    ensures { Examples }
{}

/// The selectors that looking meets by what is told are the first that it meets by more: all of them, or those up to the first
/// that isn't told.
pub fn selectors_go_on()
    ensures one { SelectorsGoOn }
    ensures all { AllSelectorsGoOn }
{}

/// A term that was got needs nothing more, and so it is with all that needed nothing before.
pub fn ready_stays()
    ensures { ReadyStays }
{}

/// Where what is told was got, the first selector that isn't told is the next that is got, and looking may begin anew behind it;
/// where each is told, nothing is left to get.
pub fn looking_resumes()
    ensures { LookingResumes }
{}

/// Looking by all values comes to what the meaning says: a term where there is a value or a refusal, and else the same end; and
/// so an effect has its values, is passed over, or is refused.
pub fn looking_is_meant()
    ensures scans { ScansAreMeant }
    ensures effects { EffectsComeSo }
{}

/// Behind an execution the links hold, and there is written, what the meaning says.
pub fn executions_leave_what_is_meant()
    ensures { LeavesWhatIsMeant }
{}

/// A getting whose calls were formed is the same, whatever is formed behind them.
pub fn formed_calls_stay()
    ensures one { GetsAlike }
    ensures all { GetAllAlike }
{}

/// Behind an execution each entry has the results that its call denotes, no two have one call, and their stated sizes don't exceed
/// the budget.
pub fn entries_stay_sound()
    ensures { EntriesStaySound }
{}

/// Behind an execution each link's object is what its term denotes, and so is each object that was set.
pub fn links_stay_right()
    ensures links { LinksStayRight }
    ensures sets { SetsAreRight }
{}
