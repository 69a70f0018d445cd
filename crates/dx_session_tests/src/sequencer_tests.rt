//! Sessions whose results follow the frame.
use crate::rows::{NUMBER, PLAIN, Row, all_hold};
use std::test::Fail;

// Values of the frame in results.
const FRAMES: &[Row<'static>] = &[
    Row {
        what: "a definition reads a variable when it is made, and the frame when it is needed",
        session: &[
            "p = 3; y = Compute(\"$0 * 2\", p); p = 100; Print(y, \"d\"); ",
            "z = Compute(\"$0 + 1\", @frame); @frame = 8; Print(z, \"d\");",
        ],
        printed: &[NUMBER, "6", NUMBER, "9"],
        ..PLAIN
    },
    Row {
        what: "of each call the result of the last frame alone is kept",
        words: &["--trace", "s.net"],
        session: &[
            "macro main() { Print(Compute(\"$0 * 10\", @frame) [cache: 2], \"d\"); } @frame = 1; ",
            "main(); @frame = 2; main(); @frame = 1; main();",
        ],
        printed: &[
            NUMBER,
            "10",
            "trace run main:1/Compute:1",
            "trace keep main:1/Compute:1 68",
            NUMBER,
            "20",
            "trace run main:1/Compute:1",
            "trace drop main:1/Compute:1",
            "trace keep main:1/Compute:1 68",
            NUMBER,
            "10",
            "trace run main:1/Compute:1",
            "trace drop main:1/Compute:1",
            "trace keep main:1/Compute:1 68",
        ],
        ..PLAIN
    },
];

#[test]
fn results_follow_the_frame(rt: HostRuntime) -> Result<(), Fail> {
    all_hold(rt.alloc(), FRAMES)
}
