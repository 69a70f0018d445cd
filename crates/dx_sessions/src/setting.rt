//! The number that a setting of a frame variable gives.
ghost use Rattle.std.specs.Prelude.{◌≡◌};
ghost use Rattle.dx_ast.specs.Plain.{plain_expr};
ghost use Rattle.dx_macros.specs.Expansion.{frame_value};
ghost use Rattle.dx_shown.specs.Session as spec;

use dx_ast::{Const, Expr, FrameVar, Frames};

/// The number that a setting gives: an integer, or the number of a variable.
pub(crate) fn setting(frames: &Frames, e: Expr) -> i32
    ensures { result ≡ spec.setting frames.now (plain_expr e) }
{
    match e {
        Expr::Constant(c) => number_in(&c),
        Expr::Frame(v) => value_of(frames, v),
        _ => 0,
    }
}

fn number_in(c: &Const) -> i32
    ensures { result ≡ spec.number_in c.now }
{
    match c {
        Const::Int(n) => *n,
        _ => 0,
    }
}

fn value_of(frames: &Frames, v: FrameVar) -> i32
    ensures { result ≡ frame_value frames.now v }
{
    match v {
        FrameVar::Start => frames.start,
        FrameVar::End => frames.end,
        FrameVar::Delta => frames.delta,
        FrameVar::Next => frames.next,
        FrameVar::Frame => frames.frame,
    }
}
