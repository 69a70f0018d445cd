//! The sequencer: its variables and switches, and the steps of a play.
ghost use Rattle.std.specs.Prelude.{◌≡◌, ◌<◌, ◌≤◌, ◌-◌, ◌*◌, ◌^◌, ◌+ℤ◌, ◌≤ℤ◌, ℕ, pos, negsuc, IsTrue, true, false, not, ◌||◌, int_lt, IfSome, IfNone, if◌then◌else◌};
ghost use Rattle.dx_sequencer.specs.Sequencer as spec;
ghost use Rattle.dx_sequencer.specs.Sequencer.{IsPlay};
ghost use Rattle.dx_sequencer.specs.Step.{step_of};

use dx_ast::{FrameVar, Frames};
use std::marker::Model;
use thiserror::Error;

/// The most steps that a play may have.
const MAX_STEPS: u64 = 65_536;

/// A setting of `@deltaframe` below 1.
#[derive(Clone, Copy, Debug, Error, PartialEq, Eq)]
#[error("a delta is at least 1")]
pub struct FrameRange;

/// What a step came to.
#[derive(Clone, Copy, Debug, PartialEq, Eq)]
pub enum Step {
    /// This frame.
    Frame(i32),
    /// The pass is over, and no frame came.
    Ended,
}

/// The variables and switches of the sequencer.
#[derive(Debug, Drop)]
pub struct Sequencer {
    start: i32,
    end: i32,
    delta: i32,
    /// May lie outside the ints, by at most the greatest delta.
    next: i64,
    frame: i32,
    forward: bool,
    loops: bool,
    palindrome: bool,
}

impl Model for Sequencer {
    ghost use Rattle.dx_sequencer.specs.Sequencer.{State};
    ghost use Rattle.dx_sequencer.specs.Bounds.{IsBounded};

    ghost Value = { State };

    ghost view = { λ s. record { start = s.start; end = s.end; delta = s.delta; next = s.next; frame = s.frame; forward = s.forward; loops = s.loops; palindrome = s.palindrome } };

    ghost invariant = { λ s. IsBounded s.delta s.next };
}

impl Sequencer {
    /// The state when a session begins: frames 1 to 100 by 1, forward, no loop.
    pub fn new() -> Sequencer
        ensures { result ≡ spec.initial }
    {
        Sequencer {
            start: 1,
            end: 100,
            delta: 1,
            next: 1,
            frame: 1,
            forward: true,
            loops: false,
            palindrome: false,
        }
    }

    /// The variables. A next frame outside the ints reads as the nearer end of the ints.
    pub fn frames(&self) -> Frames
        ensures { result ≡ spec.frames_of self.now }
    {
        Frames {
            start: self.start,
            end: self.end,
            delta: self.delta,
            next: clamped(self.next),
            frame: self.frame,
        }
    }

    /// Sets a variable. A delta below 1 is refused, and then nothing changes.
    pub fn set(&mut self, v: FrameVar, x: i32) -> Result<(), FrameRange>
        ensures refused { result ≡ (if spec.is_refused v x then Err (record {}) else Ok tt) }
        ensures set { self.new ≡ (if spec.is_refused v x then self.old else spec.with_var v x self.old) }
    {
        match v {
            FrameVar::Start => self.start = x,
            FrameVar::End => self.end = x,
            FrameVar::Delta if x < 1 => return Err(FrameRange),
            FrameVar::Delta => self.delta = x,
            FrameVar::Next => self.next = i64::from(x),
            FrameVar::Frame => self.frame = x,
        }
        Ok(())
    }

    /// The next frame is the first of the pass.
    pub fn stop(&mut self)
        ensures { self.new ≡ spec.rewound self.old }
    {
        self.next = i64::from(self.first_frame());
    }

    pub fn forward(&mut self)
        ensures { self.new ≡ record self.old { forward = true } }
    {
        self.forward = true;
    }

    pub fn backward(&mut self)
        ensures { self.new ≡ record self.old { forward = false } }
    {
        self.forward = false;
    }

    pub fn set_loop(&mut self, on: bool)
        ensures { self.new ≡ record self.old { loops = on } }
    {
        self.loops = on;
    }

    pub fn set_palindrome(&mut self, on: bool)
        ensures { self.new ≡ record self.old { palindrome = on } }
    {
        self.palindrome = on;
    }

    /// Makes one step: the frame becomes the next one, which moves on by the delta in the direction. Where the next frame
    /// isn't inside, the step has ended, unless the sequencer loops; a palindrome turns at the end of each pass.
    pub fn step(&mut self) -> Step
        ensures state { self.new ≡ spec.after_step self.old }
        ensures frame { step_of result ≡ spec.step_frame self.old }
    {
        if self.has_next() {
            return self.advance();
        }
        if self.is_over() {
            self.stop();
            return Step::Ended;
        }
        self.begin_pass();
        self.advance()
    }

    /// Begins a play, and answers how many steps it makes: one for each frame from the next one to the last inside in the
    /// direction. None where they are more than 65,536, and then nothing changes.
    #[tactic(auto, using(crate::proofs::Playing::no_steps))]
    pub fn begin_play(&mut self) -> Option<u32>
        ensures counted { result ≡ spec.steps_of_play (spec.at_play self.old) }
        ensures steps { IfSome result (λ n. IsPlay (spec.at_play self.old) n) }
        ensures few { IfSome result (λ n. n ≤ spec.max_steps) }
        ensures state { IfSome result (λ _. self.new ≡ spec.at_play self.old) }
        ensures refused { IfNone result (spec.IsLongPlay (spec.at_play self.old)) }
        ensures unchanged { IfNone result (self.new ≡ self.old) }
    {
        let next = self.next;
        self.begin();
        let steps = self.steps_left();
        if steps > MAX_STEPS {
            self.next = next;
            return None;
        }
        Some(steps as u32)
    }

    // A play begins at the next frame where that is inside, and else at the first of the pass.
    fn begin(&mut self)
        ensures { self.new ≡ spec.at_play self.old }
    {
        self.next = i64::from(self.inside_or_first(self.next));
    }

    // The next frame becomes the first of another pass, which goes the other way in a palindrome.
    fn begin_pass(&mut self)
        requires { self.old.start ≤ℤ self.old.end }
        ensures state { self.new ≡ spec.again self.old }
        ensures from { self.new.start ≤ℤ self.new.next }
        ensures to { self.new.next ≤ℤ self.new.end }
    {
        if self.palindrome {
            self.turn();
        } else {
            self.stop();
        }
    }

    fn turn(&mut self)
        requires { self.old.start ≤ℤ self.old.end }
        ensures state { self.new ≡ spec.turned self.old }
        ensures from { self.new.start ≤ℤ self.new.next }
        ensures to { self.new.next ≤ℤ self.new.end }
    {
        self.forward = !self.forward;
        let next = self.moved(i64::from(self.frame));
        self.next = i64::from(self.inside_or_first(next));
    }

    // This frame where it is inside, and else the first of the pass.
    fn inside_or_first(&self, x: i64) -> i32
        ensures frame { result ≡ spec.inside_or_first self.now x }
        ensures from { self.now.start ≤ℤ self.now.end → self.now.start ≤ℤ result }
        ensures to { self.now.start ≤ℤ self.now.end → result ≤ℤ self.now.end }
    {
        if self.is_inside(x) {
            return x as i32;
        }
        self.first_frame()
    }

    // The frame becomes the next one, and that moves on.
    fn advance(&mut self) -> Step
        requires from { self.old.start ≤ℤ self.old.next }
        requires to { self.old.next ≤ℤ self.old.end }
        ensures state { self.new ≡ spec.advanced self.old }
        ensures frame { result ≡ Step.Frame self.old.next }
    {
        self.frame = self.next as i32;
        self.next = self.moved(self.next);
        Step::Frame(self.frame)
    }

    // How many frames of one pass there are from the next one on.
    fn steps_left(&self) -> u64
        ensures { IsPlay self.now result }
    {
        if !self.has_next() {
            return 0;
        }
        pieces(self.distance_left(), self.delta())
    }

    fn delta(&self) -> u64
        ensures same { self.now.delta ≡ pos result }
        ensures some { 0 < result }
    {
        self.delta as u64
    }

    // How far the next frame is from the last of the pass.
    fn distance_left(&self) -> u64
        requires from { self.now.start ≤ℤ self.now.next }
        requires to { self.now.next ≤ℤ self.now.end }
        ensures ahead { self.now.forward ≡ true → self.now.end ≡ self.now.next +ℤ pos result }
        ensures behind { self.now.forward ≡ false → self.now.next ≡ self.now.start +ℤ pos result }
        ensures small { result < 2 ^ 63 }
    {
        if self.forward {
            (i64::from(self.end) - self.next) as u64
        } else {
            (self.next - i64::from(self.start)) as u64
        }
    }

    fn moved(&self, x: i64) -> i64
        requires low { negsuc 2147483647 ≤ℤ x }
        requires high { x ≤ℤ pos 2147483647 }
        ensures { result ≡ spec.moved self.now x }
    {
        if self.forward {
            x + i64::from(self.delta)
        } else {
            x - i64::from(self.delta)
        }
    }

    fn first_frame(&self) -> i32
        ensures first { result ≡ spec.first_frame self.now }
        ensures from { self.now.start ≤ℤ self.now.end → self.now.start ≤ℤ result }
        ensures to { self.now.start ≤ℤ self.now.end → result ≤ℤ self.now.end }
    {
        if self.forward { self.start } else { self.end }
    }

    // Whether a frame comes in this pass.
    fn has_next(&self) -> bool
        ensures test { result ≡ spec.is_inside self.now self.now.next }
        ensures from { IsTrue result → self.now.start ≤ℤ self.now.next }
        ensures to { IsTrue result → self.now.next ≤ℤ self.now.end }
    {
        self.is_inside(self.next)
    }

    // Whether no pass follows this one.
    fn is_over(&self) -> bool
        ensures test { result ≡ (not self.now.loops || int_lt self.now.end self.now.start) }
        ensures some { result ≡ false → self.now.start ≤ℤ self.now.end }
    {
        !self.loops || self.start > self.end
    }

    fn is_inside(&self, x: i64) -> bool
        ensures test { result ≡ spec.is_inside self.now x }
        ensures from { IsTrue result → self.now.start ≤ℤ x }
        ensures to { IsTrue result → x ≤ℤ self.now.end }
        ensures low { IsTrue result → negsuc 2147483647 ≤ℤ x }
        ensures high { IsTrue result → x ≤ℤ pos 2147483647 }
    {
        i64::from(self.start) <= x && x <= i64::from(self.end)
    }
}

fn clamped(x: i64) -> i32
    ensures { result ≡ spec.clamped x }
{
    if x < i64::from(i32::MIN) {
        i32::MIN
    } else if x > i64::from(i32::MAX) {
        i32::MAX
    } else {
        x as i32
    }
}

// How many pieces of a length begin within a distance, its ends counted.
fn pieces(distance: u64, length: u64) -> u64
    requires some { 0 < length }
    requires small { distance < 2 ^ 63 }
    ensures within { (result - 1) * length ≤ distance }
    ensures past { distance < result * length }
{
    distance / length + 1
}
