//! What is true of sessions.
ghost use Rattle.dx_shown.specs.Alike.{StatementsAreMeant, SessionsAreMeant};

/// The sessions of the cache machine show the executions of the meaning, which are made afresh from the definitions, links, written
/// files and frames that are current, with the same links and written files behind each; and behind it each link's object is what its
/// term denotes.
pub fn sessions_show_what_is_meant()
    ensures one { StatementsAreMeant }
    ensures all { SessionsAreMeant }
{}
