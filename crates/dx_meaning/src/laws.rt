//! Laws of the meaning of calls.
ghost use Rattle.dx_meaning.specs.More.{ScansStay};
ghost use Rattle.dx_meaning.specs.Forming.{FormsStay, FormsOnce};
ghost use Rattle.dx_meaning.specs.Rows.{Examples};
ghost use Rattle.dx_meaning.specs.Term.{TermsAreRight};

/// What a tree comes to without resting on a value that isn't told stays as more is told.
pub fn scans_stay()
    ensures { ScansStay }
{}

/// What a tree forms without resting on a value that isn't told stays as more is told, and else it is a front of what the tree
/// forms then.
pub fn forms_stay()
    ensures { FormsStay }
{}

/// Looking may start anew where a value was needed: to form again what was formed changes nothing.
pub fn forms_once()
    ensures { FormsOnce }
{}

/// Suppose that each link holds the value that its term denotes. Then a tree that is neither Off nor Halt has the value that the
/// tree's term denotes, or is refused with the code that comes first on the way of that term.
pub fn terms_are_right()
    ensures { TermsAreRight }
{}

/// A Switch looks at the input that is chosen alone, what is off runs nothing, the name of an Import is control, and what was
/// written is read: a few scripts whose outcomes are computed by the definitions.
pub fn examples_compute()
    ensures { Examples }
{}
