//! Sessions with frames, steps and plays.
use crate::outcome::all_print;
use std::test::Fail;

#[test]
fn frames_and_plays(rt: HostRuntime) -> Result<(), Fail> {
    let rows = [
        (
            "@startframe = 1; @endframe = 7; @deltaframe = 3; @nextframe = @startframe; macro main() { Echo(@frame); } sequence main(); play; loop on; palindrome on; step; step; step;",
            "1\n4\n7\n4\n1\n4\n",
            0,
        ),
        (
            "@startframe = 1; @endframe = 7; @deltaframe = 3; @nextframe = @startframe; macro main() { Echo(@frame); } sequence main(); play; loop on; palindrome on; step; step; step; @deltaframe = 0;",
            "1\n4\n7\n4\n1\n4\nerror @deltaframe: FrameRange\n",
            1,
        ),
        (
            "@deltaframe = 0; Echo(@deltaframe);",
            "error @deltaframe: FrameRange\n1\n",
            1,
        ),
        (
            "@endframe = 65537; macro f() { } sequence f(); play;",
            "error play: PlayTooLong\n",
            1,
        ),
        // A play that is refused changes nothing.
        (
            "@endframe = 65537; @nextframe = 0; play; Echo(@nextframe);",
            "error play: PlayTooLong\n0\n",
            1,
        ),
        (
            "@endframe = 3; macro f() { Echo(@frame, @nextframe); } sequence f(); play; backward; stop; play; forward; stop; step;",
            "1 2\n2 3\n3 4\n3 2\n2 1\n1 0\n1 2\n",
            0,
        ),
        (
            "@endframe = 2; macro f() { Echo(@frame); } sequence f(); play; step; loop on; step; step; step; loop off; step; palindrome off;",
            "1\n2\n1\n2\n1\n2\n",
            0,
        ),
        // With start above end there is no frame.
        (
            "@startframe = 3; @endframe = 2; macro f() { Echo(@frame); } sequence f(); play; step; Echo(@nextframe);",
            "3\n",
            0,
        ),
        // Without a sequence call the frames move, and nothing is executed.
        (
            "step; Echo(@frame, @nextframe); play; Echo(@frame);",
            "1 2\n100\n",
            0,
        ),
        // The sequence call is executed as if it stood at the step.
        (
            "macro f() { Echo(\"old\"); } sequence f(); macro f() { Echo(\"new\"); } step;",
            "new\n",
            0,
        ),
        (
            "sequence g(); step; step;",
            "error g:1: UnknownFunction\nerror g:1: UnknownFunction\n",
            1,
        ),
        // A frame that fails doesn't end the play.
        (
            "@endframe = 2; macro f() { Echo(@frame); Print(1, 5); } sequence f(); play;",
            "1\nerror f:1/Print:1: BadArgument\n2\nerror f:1/Print:1: BadArgument\n",
            1,
        ),
        (
            "@endframe = 2147483647; @nextframe = 2147483647; step; Echo(@frame, @nextframe);",
            "2147483647 2147483647\n",
            0,
        ),
    ];
    all_print(rt.alloc(), &rows)
}
