//! What is kept from statement to statement.
ghost use Rattle.std.specs.Prelude.{◌≡◌};
ghost use Rattle.dx_performing.specs.Kept.{new as none_kept};
ghost use Rattle.dx_engine.specs.Keeping.{IsSoundState, StateFits};
ghost use Rattle.dx_performing.specs.Course.{Fixed};
ghost use Rattle.dx_shown.specs.Session.{initial};
ghost use Rattle.dx_sessions.specs.Sequence.{IsSequence};

use dx_ast::Stmt;
use dx_checked::CheckedDictionary;
use dx_engine::State;
use dx_sequencer::Sequencer;
use dx_telling::Listings;
use std::alloc::Global;

/// What is kept from statement to statement: the macros and definitions, the sequencer, the sequence call, and what executions
/// keep; and which listings are told behind each execution.
pub struct Session {
    pub(crate) dictionary: CheckedDictionary,
    pub(crate) sequencer: Sequencer,
    pub(crate) sequence: Option<Stmt>,
    pub(crate) state: State,
    pub(crate) listings: Listings,
    ghost lawful: { ∥ IsSequence sequence ∥₁ },
}

// A function of its own, so that whoever drops a session doesn't prove again how each of its parts is dropped.
impl Drop for Session {
    fn drop(self) {
        let Session {
            dictionary: _,
            sequencer: _,
            sequence,
            state: _,
            listings: _,
        } = self;
        drop(sequence);
    }
}

impl Session {
    ghost use Rattle.dx_sessions.specs.SessionView.{state_of};

    /// The state when a session begins: no macros, no definitions, no sequence call, frames 1 to 100, nothing linked and an empty
    /// cache of this budget, in bytes of stated sizes. It takes no memory.
    pub fn new(alloc: Global, budget: u64, listings: Listings) -> Session
        ensures state { state_of result ≡ initial none_kept }
        ensures fits { StateFits result.state }
        ensures sound { (x : Fixed) → x.budget ≡ budget → IsSoundState x result.state }
        ensures budget { result.state.at.work.cache.budget ≡ budget }
        ensures listings { result.listings ≡ listings }
    {
        Session {
            dictionary: CheckedDictionary::new(alloc),
            sequencer: Sequencer::new(),
            sequence: None,
            state: State::new(alloc, budget),
            listings,
        }
    }
}
