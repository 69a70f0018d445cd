//! Laws of links: what changes and an emptying do to the tags of links, they do to the terms.
ghost use Rattle.dx_ending.specs.Terms.{SetsAlike};
ghost use Rattle.dx_ending.specs.Emptying.{EmptiesAlike};

/// Changes do to links with tags what Sets do to links with the terms that the tags name.
pub fn changes_set_terms()
    ensures { SetsAlike }
{}

/// The links, terms and values that an emptying leaves are those of the machine.
pub fn emptying_holds_links()
    ensures { EmptiesAlike }
{}
