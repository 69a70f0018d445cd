//! What is true of outcomes.
ghost use Rattle.dx_outcome.specs.Laws.{AllReadsAreOfNamesNotPut, EntriesStayWithin, OneOutcome, OnePlan, OutcomesAreMeant, ReadsAreOfNamesNotPut, RunsAreDemanded};

/// A line has one outcome, whatever the library answers, and there is one.
pub fn one_outcome()
    ensures plan { OnePlan }
    ensures outcome { OneOutcome }
{}

/// What a line puts, its status and, without a trace, its text are those of the language's meaning, evaluated afresh at each
/// execution: no budget and nothing that a cache keeps makes a difference.
pub fn outcomes_are_meant()
    ensures { OutcomesAreMeant }
{}

/// The runs of modules of each execution are some of the uses that the meaning of this execution demands, in their order.
pub fn runs_are_demanded()
    ensures { RunsAreDemanded }
{}

/// Each execution reads the files that its Imports name, in order, but for the names under which earlier executions have put a file;
/// and so it is of all that the line's runs read.
pub fn reads_are_of_names_not_put()
    ensures each { ReadsAreOfNamesNotPut }
    ensures all { AllReadsAreOfNamesNotPut }
{}

/// Behind each execution the stated sizes of the results that the cache keeps come to at most the budget.
pub fn entries_stay_within()
    ensures { EntriesStayWithin }
{}
