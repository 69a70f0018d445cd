//! The text of the workload, as its lines are written down, and its length where there are many.
use dx_workload::workload_text;
use std::test::Fail;

const HEAD: &[u8] =
    b"macro cell(a, b) -> (r) { r = Compute(\"($0 * 31 + $1) % 1000\", a, b); }\np = 1;\n";

const ONE: &[u8] = b"SetGlobal(cell(GetGlobal(0, \"s\"), cell(p, 37)), \"s\");\n";

const TWO: &[u8] = b"SetGlobal(cell(GetGlobal(0, \"s\"), cell(p, 74)), \"s\");\n";

const END: &[u8] = b"Print(GetGlobal(0, \"s\"), \"d\");\n";

#[test]
fn the_text_of_two_executions(rt: HostRuntime) -> Result<(), Fail> {
    let text = workload_text(rt.alloc(), 2)?;
    let mut expected = Vec::from_slice(rt.alloc(), HEAD)?;
    expected.extend_from_slice(ONE)?;
    expected.extend_from_slice(TWO)?;
    expected.extend_from_slice(END)?;
    assert!(rt; text.bytes() == expected.as_slice());
    Ok(())
}

// The values go round after a thousand: 27 times 37 is 999, and 1000 times 37 leaves 0.
#[test]
fn values_stay_below_a_thousand(rt: HostRuntime) -> Result<(), Fail> {
    for (lines, end) in [
        (
            27,
            b"cell(p, 999)), \"s\");\nPrint(GetGlobal(0, \"s\"), \"d\");\n".as_slice(),
        ),
        (
            28,
            b"cell(p, 36)), \"s\");\nPrint(GetGlobal(0, \"s\"), \"d\");\n".as_slice(),
        ),
        (
            1000,
            b"cell(p, 0)), \"s\");\nPrint(GetGlobal(0, \"s\"), \"d\");\n".as_slice(),
        ),
        (
            1001,
            b"cell(p, 37)), \"s\");\nPrint(GetGlobal(0, \"s\"), \"d\");\n".as_slice(),
        ),
    ] {
        let text = workload_text(rt.alloc(), lines)?;
        assert!(rt; text.bytes().ends_with(end));
    }
    Ok(())
}
