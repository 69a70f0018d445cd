//! The variables and words of the sequencer.

/// A variable of the sequencer: `@startframe`, `@endframe`, `@deltaframe`, `@nextframe` or `@frame`.
#[derive(Clone, Copy, Debug, PartialEq, Eq)]
pub enum FrameVar {
    Start,
    End,
    Delta,
    Next,
    Frame,
}

/// A word that steers the sequencer.
#[derive(Clone, Copy, Debug, PartialEq, Eq)]
pub enum Word {
    Play,
    Step,
    Stop,
    Forward,
    Backward,
    LoopOn,
    LoopOff,
    PalindromeOn,
    PalindromeOff,
}

/// The values of the sequencer's variables.
#[derive(Clone, Copy, Debug, PartialEq, Eq)]
pub struct Frames {
    pub start: i32,
    pub end: i32,
    pub delta: i32,
    pub next: i32,
    pub frame: i32,
}
