//! What a recorder answers, and the runs that it keeps.
use crate::outs::outs;
use crate::small::Small;
use dx_base::{Bytes, Module};
use dx_objects::{Code, Library, NativeKind, Outs, Recorder, Run, RunFail};
use std::alloc::{AllocError, Global};
use std::test::Fail;

// What a run answers: how many results and their size, or the code.
type Answered = (usize, u64, Option<Code>);

const NOTHING: Answered = (0, 0, None);

fn answer_of(
    alloc: Global,
    library: &mut Recorder<Small>,
    module: Module,
    inputs: &Outs,
    file: Option<&Bytes>,
) -> Answered {
    if !module.takes(inputs.len()) {
        return NOTHING;
    }
    match library.run(alloc, module, inputs, file) {
        Ok(results) => (results.len(), results.size(), None),
        Err(RunFail::Code(code)) => (0, 0, Some(code)),
        Err(RunFail::Memory) => NOTHING,
    }
}

// The module, the letters of its inputs, their size, whether it is given a file of three bytes, and what is answered.
type Row<'a> = (Module, &'a [u8], u64, bool, Answered);

fn run_row(alloc: Global, recorder: &mut Recorder<Small>, row: &Row<'_>) -> Result<Answered, Fail> {
    let (module, ids, _, has_file, _) = row;
    let inputs = outs(alloc, ids)?;
    if *has_file {
        let file = Bytes::copy_of(alloc, b"abc")?;
        return Ok(answer_of(alloc, recorder, *module, &inputs, Some(&file)));
    }
    Ok(answer_of(alloc, recorder, *module, &inputs, None))
}

const ROWS: &[Row<'static>] = &[
    (Module::Mark, b"n0", 132, false, (2, 132, None)),
    (
        Module::Unmark,
        b"0n",
        132,
        false,
        (0, 0, Some(Code::BadArgument)),
    ),
    (
        Module::Import,
        b"t00000",
        385,
        true,
        (0, 0, Some(Code::BadFile(NativeKind::Truncated, 3))),
    ),
    (Module::Import, b"t00000", 385, false, (6, 385, None)),
    (
        Module::Collect,
        b"tttttttttttttttttttttttttttttttttttttttttttttttttttttttttttttttt",
        4160,
        false,
        (64, 4160, None),
    ),
    (
        Module::Compute,
        b"0",
        64,
        false,
        (0, 0, Some(Code::BadArgument)),
    ),
    (Module::Compute, b"h", 69, false, (1, 69, None)),
];

fn is_run(run: &Run, row: &Row<'_>) -> bool {
    run.module == row.0 && run.inputs.len() == row.1.len() && run.inputs.size() == row.2
}

// Whether the recorder keeps just the runs of these rows, in their order.
fn keeps(recorder: &Recorder<Small>, rows: &[Row<'_>]) -> bool {
    let mut rest = rows.iter();
    for run in recorder.runs() {
        match rest.next() {
            Some(row) if is_run(run, row) => {}
            _ => return false,
        }
    }
    rest.next().is_none()
}

#[test]
fn a_recorder_answers_as_its_library_and_keeps_each_run(rt: HostRuntime) -> Result<(), Fail> {
    let alloc = rt.alloc();
    let mut recorder = Recorder::new(alloc, Small);
    assert!(rt; keeps(&recorder, &[]));
    for (i, row) in ROWS.iter().enumerate() {
        let (results, size, code) = run_row(alloc, &mut recorder, row)?;
        assert!(rt; results == row.4.0 && size == row.4.1 && code == row.4.2);
        assert!(rt; keeps(&recorder, &ROWS[..=i]));
    }
    Ok(())
}

#[test]
fn want_of_memory_gives_nothing(rt: HostRuntime) {
    assert!(rt; RunFail::from(AllocError) == RunFail::Memory);
}
