//! The text of the workload, line by line in one buffer.
ghost use Rattle.std.specs.Prelude.{◌≡◌, ◌≤◌, ◌++◌, IfOk, OnOk};
ghost use Rattle.dx_workload.specs.Workload as spec;

use dx_base::{Bytes, push_count};
use std::alloc::{AllocError, Global};

/// More bytes than a line has.
const LINE_BYTES: usize = 64;

/// More bytes than the lines before and behind have together.
const OTHER_BYTES: usize = 128;

/// The text of the workload of `lines` executions, 1 to 100,000: a macro and a definition, `lines` statements that each
/// set a link from its earlier value, and a Print of the link. Each line ends with a newline. Only want of memory is an
/// error.
pub fn workload_text(alloc: Global, lines: u32) -> Result<Bytes, AllocError>
    requires some { 1 ≤ lines }
    requires few { lines ≤ 100000 }
    ensures { IfOk result (λ text. text ≡ spec.workload_text lines) }
{
    let mut text = Vec::with_capacity(alloc, lines as usize * LINE_BYTES + OTHER_BYTES)?;
    push_head(&mut text)?;
    push_lines(&mut text, lines)?;
    text.extend_from_slice(b"Print(GetGlobal(0, \"s\"), \"d\");\n")?;
    Ok(Bytes::from_vec(text))
}

// The macro and the definition.
fn push_head(out: &mut Vec<u8>) -> Result<(), AllocError>
    ensures { OnOk result (out.new.items ≡ out.old.items ++ spec.head) }
{
    out.extend_from_slice(
        b"macro cell(a, b) -> (r) { r = Compute(\"($0 * 31 + $1) % 1000\", a, b); }\np = 1;\n",
    )
}

// The statements, the first one for 1.
fn push_lines(out: &mut Vec<u8>, lines: u32) -> Result<(), AllocError>
    requires { lines ≤ 100000 }
    ensures { OnOk result (out.new.items ≡ out.old.items ++ spec.lines_from 1 lines) }
{
    for k in 1..lines + 1 {
        push_line(out, k)?;
    }
    Ok(())
}

// The statement number `k`.
fn push_line(out: &mut Vec<u8>, k: u32) -> Result<(), AllocError>
    ensures { OnOk result (out.new.items ≡ out.old.items ++ spec.line k) }
{
    out.extend_from_slice(front())?;
    push_count(out, value(k))?;
    out.extend_from_slice(back())
}

#[tactic(auto, unfolding(crate::specs::Workload::front))]
fn front() -> &'static [u8]
    ensures { result.now ≡ spec.front }
{
    b"SetGlobal(cell(GetGlobal(0, \"s\"), cell(p, "
}

#[tactic(auto, unfolding(crate::specs::Workload::back))]
fn back() -> &'static [u8]
    ensures { result.now ≡ spec.back }
{
    b")), \"s\");\n"
}

// The value that the statement number `k` has in it.
fn value(k: u32) -> u64
    ensures { result ≡ spec.value k }
{
    u64::from(k) * 37 % 1000
}
