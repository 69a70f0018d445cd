//! What is true of looking, breaking off and getting.
ghost use Rattle.dx_resuming.specs.Covering.{AllClosedCover, ClosedCovers};
ghost use Rattle.dx_resuming.specs.Formed.{FormedSame};
ghost use Rattle.dx_resuming.specs.Halting.{AllHaltsAlike, HaltsAlike};
ghost use Rattle.dx_resuming.specs.Links.{AllCoveredAlike, AllLinksAlike, CoveredAlike, LinksAlike, ReadyAlike};
ghost use Rattle.dx_resuming.specs.Staying.{FormedStays};

/// The calls that looking formed first are those of an execution's course, with their sites and attributes.
pub fn formed_same()
    ensures { FormedSame }
{}

/// A call that formed its term first keeps its site and its attribute, whatever is formed behind it.
pub fn first_calls_stay()
    ensures { FormedStays }
{}

/// A getting asks links alone whether they have a result of a call as a term: with links that have the same ones it is the same,
/// the same is ready, and what it can reach was formed.
pub fn links_alike()
    ensures one { LinksAlike }
    ensures all { AllLinksAlike }
    ensures ready { ReadyAlike }
    ensures covered { CoveredAlike }
    ensures all_covered { AllCoveredAlike }
{}

/// Looking that ends at a selector ends there by more too, and forms the same, where more doesn't tell it either.
pub fn halts_alike()
    ensures one { HaltsAlike }
    ensures all { AllHaltsAlike }
{}

/// Each call that getting a found value can reach, whatever is cached, was formed or is a link's.
pub fn closed_covers()
    ensures one { ClosedCovers }
    ensures all { AllClosedCover }
{}
