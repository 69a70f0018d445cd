//! What is true of errors and runs.
ghost use Rattle.dx_demanded.specs.Ended.{EffectsEndAsMeant};
ghost use Rattle.dx_demanded.specs.Found.{ErrorsAreFound, FirstIsOfAll, GettingsFind};
ghost use Rattle.dx_demanded.specs.Halted.{HaltedGettingsFind, HaltsAreFound};
ghost use Rattle.dx_demanded.specs.Last.{ArgumentsStopLast, SelectorsStopLast, TermsStopLast};
ghost use Rattle.dx_demanded.specs.Ordered.{ArgumentsInOrder, ExecutionsInOrder, SelectorsInOrder, TermsInOrder};
ghost use Rattle.dx_demanded.specs.Reads.{ReadsAreOfNamesNotPut, RunsHaveWhatWasPut};
ghost use Rattle.dx_demanded.specs.Used.{RunsAreDemanded, TermsUseDemand};

/// Each module that an execution runs is one that its meaning demands, on the same inputs; and so is each that the term of a
/// tree's value or error needs where nothing is kept.
pub fn runs_are_demanded()
    ensures executions { RunsAreDemanded }
    ensures trees { TermsUseDemand }
{}

/// They come in the order in which the meaning demands them. In any sound state getting the selectors of a tree runs some of its
/// uses of control in their order; where the names of Imports are ready, getting the tree's term, or those of all arguments of an
/// effect, runs some of the uses of data in their order; and so an execution runs some of all the uses that it demands.
pub fn runs_come_in_order()
    ensures selectors { SelectorsInOrder }
    ensures terms { TermsInOrder }
    ensures arguments { ArgumentsInOrder }
    ensures executions { ExecutionsInOrder }
{}

/// Each run of an execution has as the file of its own what earlier executions put under the name that it gives, where it is an Import
/// whose first input is a text, and else none. So the reads of an execution are the names that its Imports give, in order, but for
/// those under which earlier executions have put a file.
pub fn reads_are_of_names_not_put()
    ensures files { RunsHaveWhatWasPut }
    ensures reads { ReadsAreOfNamesNotPut }
{}

/// Where a tree or the arguments of an effect come to an error, getting their terms where nothing is kept refuses a call with the
/// error's code, and the first call with its term that the data meets stands at the error's site; where they have values, it runs
/// to its end, and each call met has results. In any sound state getting the arguments is stopped at the same call. It is found
/// in the first argument that meets it.
pub fn errors_are_found()
    ensures trees { ErrorsAreFound }
    ensures getting { GettingsFind }
    ensures arguments { FirstIsOfAll }
{}

/// Where a tree or all arguments of an effect together come to an error, getting their terms in any sound state, whatever it keeps
/// and knows, is refused with the error's code, and its last run is that of the last use in their data, which stands at the
/// error's site; where they have values, it runs to its end. Where a selector of an effect is refused, the last run is that of the last
/// use of its control, at the site where it halts.
pub fn refusals_run_last()
    ensures trees { TermsStopLast }
    ensures arguments { ArgumentsStopLast }
    ensures selectors { SelectorsStopLast }
{}

/// Where an execution ends as a selector is refused, getting the selector's term where nothing is kept refuses a call with the
/// error's code, and the first call with its term that the selector's data meets stands at the error's site. In any sound state
/// getting a selector of an effect that isn't told yet is stopped at the same call.
pub fn halts_are_found()
    ensures trees { HaltsAreFound }
    ensures getting { HaltedGettingsFind }
{}

/// What looking at an effect's arguments by what is told so far comes to, and getting them, or the selector that isn't told yet, in
/// any sound state, is what the meaning decides: the arguments' values, an error or a halt with its site, or nothing.
pub fn effects_end_as_meant()
    ensures { EffectsEndAsMeant }
{}
