//! A writer of std as the output.

use crate::folder::read_back;
use crate::made::Answer;
use dx_io::{FaultCause, LastFault, Sink, SinkFail, StdSink, write_all};
use std::test::Fail;
use std::{fs, io};

// Whether a writer into a file of this name takes nothing, three bytes and one more.
fn takes_all(rt: &HostRuntime, path: &str) -> io::Result<bool> {
    let mut out = StdSink::new(fs::create(rt, path)?);
    Ok(
        write_all(&mut out, b"") == Ok(())
            && write_all(&mut out, b"abc") == Ok(())
            && out.write(b"d") == Ok(1)
            && out.last_fault().is_none(),
    )
}

const TAKEN: &str = "/tmp/dx_io-what-a-writer-took";

#[test]
fn what_a_writer_took_is_read_from_its_folder(rt: HostRuntime) -> Result<(), Fail> {
    assert!(rt; takes_all(&rt, TAKEN)?);
    assert!(rt; read_back(&rt, TAKEN.as_bytes(), b"abcd")? == Answer::Found);
    fs::remove_file(&rt, TAKEN)?;
    Ok(())
}

fn is_of_the_system(fault: Option<&LastFault>) -> bool {
    match fault {
        Some(fault) => fault.name.is_none() && matches!(fault.cause, FaultCause::System(_)),
        None => false,
    }
}

// Whether a write through a file that is only read fails, and its cause is kept.
fn refuses(rt: &HostRuntime, path: &str) -> io::Result<bool> {
    let mut out = StdSink::new(fs::open(rt, path)?);
    Ok(out.write(b"d") == Err(SinkFail::Fault) && is_of_the_system(out.last_fault()))
}

const READ_ONLY: &str = "/tmp/dx_io-a-writer-that-only-reads";

#[test]
fn a_writer_that_only_reads_is_a_fault(rt: HostRuntime) -> Result<(), Fail> {
    fs::write(&rt, READ_ONLY, "abc")?;
    assert!(rt; refuses(&rt, READ_ONLY)?);
    fs::remove_file(&rt, READ_ONLY)?;
    Ok(())
}
