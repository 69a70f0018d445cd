//! Laws of what sessions print.
ghost use Rattle.std.specs.Prelude.{◌≡◌, ◌++◌, List, false};
ghost use Rattle.dx_shown.specs.Made.{Coursed};
ghost use Rattle.dx_shown.specs.Session.{Shown, Executes};
ghost use Rattle.dx_telling.specs.Shown.{shown_texts, text_of};
ghost use Rattle.dx_telling.specs.declared.listings.Listings.{Listings};

/// What is shown first is printed first.
pub fn texts_are_in_order()
    ensures { (asked : Listings) (first next : List (Shown Coursed)) → shown_texts asked (first ++ next) ≡ shown_texts asked first ++ shown_texts asked next }
{}

/// Where no trace is asked for, the text is that of the execution and of what it leaves, whatever happened in it.
pub fn only_traces_tell_events()
    ensures { (asked : Listings) (c d : Coursed) → asked.trace ≡ false → c.execution ≡ d.execution → c.behind ≡ d.behind → text_of asked (Executes c) ≡ text_of asked (Executes d) }
{}
