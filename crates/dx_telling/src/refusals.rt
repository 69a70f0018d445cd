//! The lines of a play and of a frame setting that are refused.
ghost use Rattle.std.specs.Prelude.{◌≡◌};
ghost use Rattle.dx_telling.specs.Shown as spec;

/// The line of a play of too many steps.
pub fn play_too_long() -> &'static [u8]
    ensures { result.now ≡ spec.play_too_long }
{
    b"error play: PlayTooLong\n"
}

/// The line of a setting of `@deltaframe` below 1.
pub fn frame_range() -> &'static [u8]
    ensures { result.now ≡ spec.frame_range }
{
    b"error @deltaframe: FrameRange\n"
}
