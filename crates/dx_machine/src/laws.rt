//! What is true of the cache machine.
ghost use Rattle.dx_machine.specs.Agree.{GettingAgrees, PlainAgrees};
ghost use Rattle.dx_machine.specs.Sound.{TellingKeeps, HitKeeps, StoringKeeps, EmptyingKeeps, GettingKeeps, GettingAllKeeps};

/// Each step of the machine keeps a state sound: a run, which is only told; a hit; results that are known and stored,
/// with all that is dropped for them; and an emptying.
pub fn steps_keep_soundness()
    ensures telling { TellingKeeps }
    ensures hit { HitKeeps }
    ensures storing { StoringKeeps }
    ensures emptying { EmptyingKeeps }
{}

/// Getting a term, or some in order, keeps a state sound, however it ends.
pub fn getting_keeps_soundness()
    ensures one { GettingKeeps }
    ensures all { GettingAllKeeps }
{}

/// Getting with entries and known calls agrees with getting without: both go well, or end at the same call with the same
/// code, and with entries and known calls some of the runs are made that are demanded without, in their order.
pub fn entries_change_no_answer()
    ensures with_entries { GettingAgrees }
    ensures without { PlainAgrees }
{}
