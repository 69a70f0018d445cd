//! The words of the sequencer: steps and plays, which execute the sequence call, and the others.
ghost use Rattle.std.specs.Prelude.{◌≡◌, ◌<◌, ℕ, suc, OnErr};
ghost use Rattle.dx_engine.specs.Keeping.{StateFits};
ghost use Rattle.dx_shown.specs.Made.{coursed};
ghost use Rattle.dx_shown.specs.Session as spec;
ghost use Rattle.dx_sequencer.specs.Sequencer as seq;
ghost use Rattle.dx_sessions.specs.Left.{LeavesPlay, LeavesWord, Stays, after_steps};
ghost use Rattle.dx_sessions.specs.Places.{IsAmongSteps, here, in_play, in_word, moved};
ghost use Rattle.dx_sessions.specs.Does.{DoesSo, OthersStay, OverSound, devices};
ghost use Rattle.dx_sessions.specs.Keeping.{Keeps, counts};
ghost use Rattle.dx_sessions.specs.Switches.{Switches};

use crate::ended::erred;
use crate::executing::execute;
use crate::session::Session;
use dx_ast::Word;
use dx_io::{Exports, Files, Sink, write_all};
use dx_making::End;
use dx_objects::Library;
use dx_sequencer::{Sequencer, Step};
use dx_telling::play_too_long;
use std::alloc::Global;

impl Session {
    ghost use Rattle.dx_sessions.specs.SessionView.{state_of};

    /// Does what a word of the sequencer says.
    pub(crate) fn tell<F: Files, X: Exports, O: Sink, L: Library>(
        &mut self,
        alloc: Global,
        w: Word,
        files: &mut F,
        exports: &mut X,
        out: &mut O,
        lib: &mut L,
    ) -> Result<bool, End>
        requires fits { StateFits self.old.state }
        ensures keeps { Keeps self.old.state self.new.state (counts (F.content files.old) (F.faults files.old) (O.faults out.old) (X.faults exports.old) (X.puts exports.old)) (counts (F.content files.new) (F.faults files.new) (O.faults out.new) (X.faults exports.new) (X.puts exports.new)) result }
        ensures listings { self.new.listings ≡ self.old.listings }
        ensures stays { Stays (state_of self.old) (state_of self.new) }
        ensures moved { OnErr result (LeavesWord w self.old.sequencer self.new.sequencer) }
        ensures does { OverSound L.answer (F.content files.old) self.old.state (λ x. DoesSo x self.old.listings (in_word (coursed x) w (state_of self.old)) (spec.told (coursed x) w (state_of self.old)) (devices (L.done lib.old) (F.asked files.old) (O.written out.old) (X.puts exports.old)) result self.new (devices (L.done lib.new) (F.asked files.new) (O.written out.new) (X.puts exports.new))) }
    {
        match w {
            Word::Play => self.play(alloc, files, exports, out, lib),
            Word::Step => self.step(alloc, files, exports, out, lib),
            _ => {
                switch(&mut self.sequencer, w);
                Ok(false)
            }
        }
    }

    // Makes a step, which executes the sequence call where it has a frame.
    fn step<F: Files, X: Exports, O: Sink, L: Library>(
        &mut self,
        alloc: Global,
        files: &mut F,
        exports: &mut X,
        out: &mut O,
        lib: &mut L,
    ) -> Result<bool, End>
        requires fits { StateFits self.old.state }
        ensures keeps { Keeps self.old.state self.new.state (counts (F.content files.old) (F.faults files.old) (O.faults out.old) (X.faults exports.old) (X.puts exports.old)) (counts (F.content files.new) (F.faults files.new) (O.faults out.new) (X.faults exports.new) (X.puts exports.new)) result }
        ensures listings { self.new.listings ≡ self.old.listings }
        ensures stays { Stays (state_of self.old) (state_of self.new) }
        ensures moved { self.new.sequencer ≡ seq.after_step self.old.sequencer }
        ensures does { OverSound L.answer (F.content files.old) self.old.state (λ x. DoesSo x self.old.listings (here (moved (state_of self.old))) (spec.stepped (coursed x) (state_of self.old)) (devices (L.done lib.old) (F.asked files.old) (O.written out.old) (X.puts exports.old)) result self.new (devices (L.done lib.new) (F.asked files.new) (O.written out.new) (X.puts exports.new))) }
    {
        match self.sequencer.step() {
            Step::Ended => Ok(false),
            Step::Frame(_) => self.execute_sequence(alloc, files, exports, out, lib),
        }
    }

    // Executes the sequence call, if there is one, as if it stood at this place.
    fn execute_sequence<F: Files, X: Exports, O: Sink, L: Library>(
        &mut self,
        alloc: Global,
        files: &mut F,
        exports: &mut X,
        out: &mut O,
        lib: &mut L,
    ) -> Result<bool, End>
        requires fits { StateFits self.old.state }
        ensures keeps { Keeps self.old.state self.new.state (counts (F.content files.old) (F.faults files.old) (O.faults out.old) (X.faults exports.old) (X.puts exports.old)) (counts (F.content files.new) (F.faults files.new) (O.faults out.new) (X.faults exports.new) (X.puts exports.new)) result }
        ensures listings { self.new.listings ≡ self.old.listings }
        ensures others { OthersStay self.old self.new }
        ensures does { OverSound L.answer (F.content files.old) self.old.state (λ x. DoesSo x self.old.listings (here (state_of self.old)) (spec.sequence_executed (coursed x) (state_of self.old).sequence (state_of self.old)) (devices (L.done lib.old) (F.asked files.old) (O.written out.old) (X.puts exports.old)) result self.new (devices (L.done lib.new) (F.asked files.new) (O.written out.new) (X.puts exports.new))) }
    {
        let frames = self.sequencer.frames();
        match &self.sequence {
            None => Ok(false),
            Some(s) => erred(execute(
                alloc,
                &self.dictionary,
                &frames,
                s,
                self.listings,
                &mut self.state,
                files,
                exports,
                out,
                lib,
            )),
        }
    }

    // Makes a step for each frame up to the last inside, or prints the line of a play of too many steps.
    fn play<F: Files, X: Exports, O: Sink, L: Library>(
        &mut self,
        alloc: Global,
        files: &mut F,
        exports: &mut X,
        out: &mut O,
        lib: &mut L,
    ) -> Result<bool, End>
        requires fits { StateFits self.old.state }
        ensures keeps { Keeps self.old.state self.new.state (counts (F.content files.old) (F.faults files.old) (O.faults out.old) (X.faults exports.old) (X.puts exports.old)) (counts (F.content files.new) (F.faults files.new) (O.faults out.new) (X.faults exports.new) (X.puts exports.new)) result }
        ensures listings { self.new.listings ≡ self.old.listings }
        ensures stays { Stays (state_of self.old) (state_of self.new) }
        ensures moved { OnErr result (LeavesPlay self.old.sequencer self.new.sequencer) }
        ensures does { OverSound L.answer (F.content files.old) self.old.state (λ x. DoesSo x self.old.listings (in_play (coursed x) (state_of self.old)) (spec.played (coursed x) (state_of self.old)) (devices (L.done lib.old) (F.asked files.old) (O.written out.old) (X.puts exports.old)) result self.new (devices (L.done lib.new) (F.asked files.new) (O.written out.new) (X.puts exports.new))) }
    {
        match self.sequencer.begin_play() {
            None => match write_all(out, play_too_long()) {
                Ok(()) => Ok(true),
                Err(fail) => Err(End::from(fail)),
            },
            Some(steps) => self.step_often(alloc, steps, files, exports, out, lib),
        }
    }

    // Makes so many steps. One whose execution fails doesn't end them.
    fn step_often<F: Files, X: Exports, O: Sink, L: Library>(
        &mut self,
        alloc: Global,
        steps: u32,
        files: &mut F,
        exports: &mut X,
        out: &mut O,
        lib: &mut L,
    ) -> Result<bool, End>
        requires fits { StateFits self.old.state }
        ensures keeps { Keeps self.old.state self.new.state (counts (F.content files.old) (F.faults files.old) (O.faults out.old) (X.faults exports.old) (X.puts exports.old)) (counts (F.content files.new) (F.faults files.new) (O.faults out.new) (X.faults exports.new) (X.puts exports.new)) result }
        ensures listings { self.new.listings ≡ self.old.listings }
        ensures stays { Stays (state_of self.old) (state_of self.new) }
        ensures moved { OnErr result ((n : ℕ) × (n < steps) × (self.new.sequencer ≡ after_steps (suc n) self.old.sequencer)) }
        ensures does { OverSound L.answer (F.content files.old) self.old.state (λ x. DoesSo x self.old.listings (IsAmongSteps (coursed x) steps (state_of self.old)) (spec.stepped_often (coursed x) steps (state_of self.old)) (devices (L.done lib.old) (F.asked files.old) (O.written out.old) (X.puts exports.old)) result self.new (devices (L.done lib.new) (F.asked files.new) (O.written out.new) (X.puts exports.new))) }
    {
        let mut erred = false;
        for _ in 0..steps {
            erred |= self.step(alloc, files, exports, out, lib)?;
        }
        Ok(erred)
    }
}

// Does what a word says that executes nothing.
fn switch(sequencer: &mut Sequencer, w: Word)
    ensures { Switches w sequencer.old sequencer.new }
{
    match w {
        Word::Play | Word::Step => {}
        Word::Stop => sequencer.stop(),
        Word::Forward => sequencer.forward(),
        Word::Backward => sequencer.backward(),
        Word::LoopOn => sequencer.set_loop(true),
        Word::LoopOff => sequencer.set_loop(false),
        Word::PalindromeOn => sequencer.set_palindrome(true),
        Word::PalindromeOff => sequencer.set_palindrome(false),
    }
}
