//! Calls one behind the other, and what a session prints of their answers.
use crate::described::{Body, Entry, Items, copied, last_of};
use crate::made::{Sample, inputs_of, value};
use crate::printed::prints;
use dx_arrays::ElemType;
use dx_base::Module;
use dx_inquire::run_inquire;
use dx_objects::{Outs, RunFail};
use dx_print::{echo_text, push_code, push_error_line};
use dx_stats::{run_histogram, run_statistics};
use std::alloc::Global;
use std::test::Fail;

fn statistics(alloc: Global, data: Sample) -> Result<Result<Outs, RunFail>, Fail> {
    let inputs = inputs_of(alloc, &[data])?;
    if !Module::Statistics.takes(inputs.len()) {
        return Err(Fail::from("other inputs"));
    }
    Ok(run_statistics(alloc, &inputs))
}

// The five numbers of some numbers.
fn five_of(alloc: Global, data: Sample) -> Result<Outs, Fail> {
    match statistics(alloc, data)? {
        Ok(results) => Ok(results),
        Err(_) => Err(Fail::from("refused")),
    }
}

// Whether Print shows this of one of some results.
fn shows(alloc: Global, results: &Outs, place: usize, text: &str) -> Result<bool, Fail> {
    match results.as_slice().get(place) {
        None => Ok(false),
        Some(result) => prints(alloc, result, Some("d"), None, text),
    }
}

// Whether Echo shows this of some results from one on.
fn echoes(
    alloc: Global,
    results: &Outs,
    from: usize,
    count: usize,
    line: &str,
) -> Result<bool, Fail> {
    let mut inputs = Outs::new(alloc);
    for result in results.as_slice().iter().skip(from).take(count) {
        inputs.push(copied(result)?)?;
    }
    match echo_text(alloc, &inputs) {
        Ok(text) => Ok(text.bytes() == line.as_bytes()),
        Err(_) => Ok(false),
    }
}

// The line of the error by which a call at this site refuses, if it does.
fn error_of(alloc: Global, site: &str, answer: Result<Outs, RunFail>) -> Result<Vec<u8>, Fail> {
    let mut line = Vec::new(alloc);
    if let Err(RunFail::Code(code)) = answer {
        let mut word = Vec::new(alloc);
        push_code(&mut word, code)?;
        push_error_line(&mut line, site.as_bytes(), word.as_slice())?;
    }
    Ok(line)
}

const MINUS_TWO: &str = "array plain int rank 0 items 1\n-2\n";

const TWO: &str = "array plain int rank 0 items 1\n2\n";

const FIVE: &str = "array plain int rank 0 items 1\n5\n";

const FOURTEEN: &str = "array plain int rank 0 items 1\n14\n";

#[test]
fn statistics_are_printed(rt: HostRuntime) -> Result<(), Fail> {
    let alloc = rt.alloc();
    let negative = five_of(alloc, Sample::Numbers(ElemType::Int, &[-1, -2]))?;
    assert!(rt; shows(alloc, &negative, 0, MINUS_TWO)?);
    assert!(rt; echoes(alloc, &negative, 1, 2, "0 0\n")?);
    let single = five_of(alloc, Sample::Field("data", &[5]))?;
    assert!(rt; shows(alloc, &single, 0, FIVE)?);
    assert!(rt; shows(alloc, &five_of(alloc, Sample::Line(12, 3, 2))?, 0, FOURTEEN)?);
    let wide = five_of(alloc, Sample::Numbers(ElemType::UInt, &[4294967295]))?;
    assert!(rt; echoes(alloc, &wide, 0, 5, "NULL 0 0 NULL NULL\n")?);
    Ok(())
}

#[test]
fn a_refusal_is_a_line(rt: HostRuntime) -> Result<(), Fail> {
    let alloc = rt.alloc();
    let none = statistics(alloc, Sample::Numbers(ElemType::Int, &[]))?;
    let line = error_of(alloc, "Statistics:1", none)?;
    assert!(rt; line.as_slice() == b"error Statistics:1: BadArgument\n".as_slice());
    Ok(())
}

#[test]
fn a_histogram_is_printed(rt: HostRuntime) -> Result<(), Fail> {
    let alloc = rt.alloc();
    let data = Sample::Numbers(ElemType::Int, &[1, 2, 2, 3, 9]);
    let bins = Sample::Numbers(ElemType::Int, &[3]);
    let inputs = inputs_of(
        alloc,
        &[data, bins, Sample::Null, Sample::Null, Sample::Null],
    )?;
    assert!(rt; Module::Histogram.takes(inputs.len()));
    let Ok(results) = run_histogram(alloc, &inputs) else {
        return Err(Fail::from("refused"));
    };
    let [histogram, median] = results.as_slice() else {
        return Err(Fail::from("other results"));
    };
    assert!(rt; prints(alloc, median, Some("d"), None, TWO)?);
    for (component, text) in [
        (None, "field 3 components\n"),
        (Some("data"), "array plain int rank 0 items 3\n4\n0\n1\n"),
        (
            Some("positions"),
            "array plain int rank 1 shape 1 items 4\n1\n4\n7\n10\n",
        ),
        (
            Some("connections"),
            "array gridconnections int rank 1 shape 2 items 3\n0 1\n1 2\n2 3\n",
        ),
    ] {
        assert!(rt; prints(alloc, histogram, Some("d"), component, text)?);
    }
    Ok(())
}

// A group of two named members, and one of a member without a name.
const NAMED: [Entry<'static>; 3] = [
    (
        Body::Array(Items::Plain(ElemType::Int, &[], &[1])),
        &[],
        &[],
    ),
    (
        Body::Array(Items::Plain(ElemType::Int, &[], &[2])),
        &[],
        &[],
    ),
    (Body::Group, &[("a", 0, 0), ("b", 0, 1)], &[]),
];

const UNNAMED: [Entry<'static>; 2] = [
    (
        Body::Array(Items::Plain(ElemType::Int, &[], &[10])),
        &[],
        &[],
    ),
    (Body::Group, &[("", 0, 0)], &[]),
];

#[test]
fn members_are_counted_and_printed(rt: HostRuntime) -> Result<(), Fail> {
    let alloc = rt.alloc();
    let group = last_of(alloc, &NAMED)?;
    assert!(rt; prints(alloc, &group, Some("d"), Some("b"), TWO)?);
    let mut inputs = Outs::new(alloc);
    inputs.push(group)?;
    inputs.push(value(alloc, Sample::Text(b"member count"))?)?;
    inputs.push(None)?;
    assert!(rt; Module::Inquire.takes(inputs.len()));
    let Ok(results) = run_inquire(alloc, &inputs) else {
        return Err(Fail::from("refused"));
    };
    assert!(rt; shows(alloc, &results, 0, TWO)?);
    let text = "group 1 members\n  member:\n    array plain int rank 0 items 1\n    10\n";
    assert!(rt; prints(alloc, &last_of(alloc, &UNNAMED)?, Some("rD"), None, text)?);
    Ok(())
}
