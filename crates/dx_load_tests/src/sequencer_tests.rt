//! Settings, steps and plays of a sequencer.
use dx_ast::{FrameVar, Frames};
use dx_sequencer::{FrameRange, Sequencer, Step};
use std::process::Abort;

// A sequencer with these settings.
fn with(rt: &impl Abort, start: i32, end: i32, delta: i32, next: i32) -> Sequencer {
    let mut s = Sequencer::new();
    for (v, x) in [
        (FrameVar::Start, start),
        (FrameVar::End, end),
        (FrameVar::Delta, delta),
        (FrameVar::Next, next),
    ] {
        assert!(rt; s.set(v, x) == Ok(()));
    }
    s
}

#[test]
fn a_play_and_then_a_palindrome(rt: HostRuntime) {
    let mut s = with(&rt, 1, 7, 3, 1);
    assert!(rt; s.begin_play() == Some(3));
    for frame in [1, 4, 7] {
        assert!(rt; s.step() == Step::Frame(frame));
    }
    s.set_loop(true);
    s.set_palindrome(true);
    for frame in [4, 1, 4] {
        assert!(rt; s.step() == Step::Frame(frame));
    }
}

#[test]
fn steps_end_or_begin_another_pass(rt: HostRuntime) {
    let mut s = with(&rt, 1, 2, 1, 1);
    for step in [Step::Frame(1), Step::Frame(2), Step::Ended, Step::Frame(1)] {
        assert!(rt; s.step() == step);
    }
    s.set_loop(true);
    for step in [Step::Frame(2), Step::Frame(1), Step::Frame(2)] {
        assert!(rt; s.step() == step);
    }
    s.backward();
    s.stop();
    for step in [Step::Frame(2), Step::Frame(1), Step::Frame(2)] {
        assert!(rt; s.step() == step);
    }
    s.forward();
    s.stop();
    assert!(rt; s.frames().next == 1);
}

#[test]
fn plays_have_a_limit(rt: HostRuntime) {
    for (end, steps) in [(65_536, Some(65_536)), (65_537, None), (0, Some(0))] {
        let mut s = with(&rt, 1, end, 1, 5);
        s.stop();
        let before = s.frames();
        assert!(rt; s.begin_play() == steps);
        assert!(rt; s.frames() == before);
    }
    // A play with start above end makes no step, and still sets the next frame.
    let mut s = with(&rt, 3, 2, 1, 9);
    assert!(rt; s.begin_play() == Some(0));
    assert!(rt; s.frames().next == 3);
}

#[test]
fn settings_are_seen_or_refused(rt: HostRuntime) {
    let mut s = with(&rt, i32::MIN, i32::MAX, i32::MAX, i32::MAX);
    assert!(rt; s.set(FrameVar::Delta, 0) == Err(FrameRange));
    assert!(rt; s.set(FrameVar::Delta, -1) == Err(FrameRange));
    assert!(rt; s.set(FrameVar::Frame, 8) == Ok(()));
    let seen = s.frames();
    let wanted = Frames {
        start: i32::MIN,
        end: i32::MAX,
        delta: i32::MAX,
        next: i32::MAX,
        frame: 8,
    };
    assert!(rt; seen == wanted);
    // The next frame is beyond the ints, and reads as the greatest of them.
    assert!(rt; s.step() == Step::Frame(i32::MAX));
    assert!(rt; s.frames().next == i32::MAX);
    assert!(rt; s.step() == Step::Ended);
}
