//! Inquire: each question about each kind of object, and the order in which its inputs are refused.
use crate::answers::{Answer, answers};
use crate::described::{Body, Entry, Items, copied, last_of};
use crate::made::{Sample, value};
use dx_arrays::ElemType;
use dx_base::Module;
use dx_inquire::{Outs, RunFail, run_inquire};
use dx_objects::Value;
use std::alloc::Global;
use std::test::Fail;

const NONE: Answer<'static> = Answer::Refused("BadArgument");

const UNKNOWN: Answer<'static> = Answer::Refused("Unsupported");

const YES: Answer<'static> = Answer::Ints(&[1]);

// Questions that are asked of anything.
const WHETHER: [&str; 6] = [
    "is null",
    "is array",
    "is string",
    "is field",
    "is group",
    "is series",
];

const OTHERS: [&str; 6] = [
    "items",
    "rank",
    "type",
    "shape",
    "member count",
    "grid counts",
];

const NO_ARRAY: [Answer<'static>; 4] = [NONE; 4];

// Twelve numbers from 1 on, and the points and the cells of a grid of 4 by 3.
const NUMBERS: Entry<'static> = (Body::Array(Items::Line(12, 1, 1)), &[], &[]);

const POINTS: Entry<'static> = (
    Body::Array(Items::Points(&[4, 3], &[0, 0], &[1, 0, 0, 1])),
    &[],
    &[],
);

const CELLS: Entry<'static> = (Body::Array(Items::Cells(&[4, 3])), &[], &[]);

const BARE: Entry<'static> = (Body::Text(b"bare"), &[], &[]);

type Row<'a> = (&'a [Entry<'a>], [i64; 6], [Answer<'a>; 6]);

// Objects, which of the first questions are true of them, and the answers to the others.
const ROWS: [Row<'static>; 22] = [
    (&[], [1, 0, 0, 0, 0, 0], [NONE; 6]),
    (
        &[(
            Body::Array(Items::Plain(ElemType::Int, &[], &[7, -7, 0])),
            &[],
            &[],
        )],
        [0, 1, 0, 0, 0, 0],
        [
            Answer::Ints(&[3]),
            Answer::Ints(&[0]),
            Answer::Text("int"),
            Answer::Ints(&[]),
            NONE,
            NONE,
        ],
    ),
    (
        &[(
            Body::Array(Items::Plain(ElemType::UShort, &[2], &[1, 2, 3, 4])),
            &[],
            &[],
        )],
        [0, 1, 0, 0, 0, 0],
        [
            Answer::Ints(&[2]),
            YES,
            Answer::Text("unsigned short"),
            Answer::Ints(&[2]),
            NONE,
            NONE,
        ],
    ),
    (
        &[(
            Body::Array(Items::Plain(ElemType::Byte, &[2, 3], &[])),
            &[],
            &[],
        )],
        [0, 1, 0, 0, 0, 0],
        [
            Answer::Ints(&[0]),
            Answer::Ints(&[2]),
            Answer::Text("signed byte"),
            Answer::Ints(&[2, 3]),
            NONE,
            NONE,
        ],
    ),
    (
        &[(Body::Array(Items::Constant(&[1], 7, &[-5])), &[], &[])],
        [0, 1, 0, 0, 0, 0],
        [
            Answer::Ints(&[7]),
            YES,
            Answer::Text("short"),
            Answer::Ints(&[1]),
            NONE,
            NONE,
        ],
    ),
    (
        &[NUMBERS],
        [0, 1, 0, 0, 0, 0],
        [
            Answer::Ints(&[12]),
            Answer::Ints(&[0]),
            Answer::Text("int"),
            Answer::Ints(&[]),
            NONE,
            NONE,
        ],
    ),
    (
        &[POINTS],
        [0, 1, 0, 0, 0, 0],
        [
            Answer::Ints(&[12]),
            YES,
            Answer::Text("int"),
            Answer::Ints(&[2]),
            NONE,
            Answer::Ints(&[4, 3]),
        ],
    ),
    (
        &[CELLS],
        [0, 1, 0, 0, 0, 0],
        [
            Answer::Ints(&[6]),
            YES,
            Answer::Text("int"),
            Answer::Ints(&[4]),
            NONE,
            Answer::Ints(&[4, 3]),
        ],
    ),
    (
        &[(Body::Array(Items::Points(&[1], &[5], &[2])), &[], &[])],
        [0, 1, 0, 0, 0, 0],
        [
            YES,
            YES,
            Answer::Text("int"),
            Answer::Ints(&[1]),
            NONE,
            Answer::Ints(&[1]),
        ],
    ),
    // Grids without cells, of which one has a count that is no int.
    (
        &[(Body::Array(Items::Cells(&[2147483647, 1, 3])), &[], &[])],
        [0, 1, 0, 0, 0, 0],
        [
            Answer::Ints(&[0]),
            YES,
            Answer::Text("int"),
            Answer::Ints(&[8]),
            NONE,
            Answer::Ints(&[2147483647, 1, 3]),
        ],
    ),
    (
        &[(Body::Array(Items::Cells(&[1, 2147483648])), &[], &[])],
        [0, 1, 0, 0, 0, 0],
        [
            Answer::Ints(&[0]),
            YES,
            Answer::Text("int"),
            Answer::Ints(&[4]),
            NONE,
            Answer::Refused("Overflow"),
        ],
    ),
    (&[BARE], [0, 0, 1, 0, 0, 0], [NONE; 6]),
    // A field without data, and one whose data is no grid.
    (
        &[NUMBERS, (Body::Field, &[("positions", 0, 0)], &[])],
        [0, 0, 0, 1, 0, 0],
        [NONE, NONE, NONE, NONE, YES, NONE],
    ),
    (
        &[
            NUMBERS,
            (
                Body::Field,
                &[("x", 0, 0), ("data", 0, 0)],
                &[("data", 0, 0)],
            ),
        ],
        [0, 0, 0, 1, 0, 0],
        [
            Answer::Ints(&[12]),
            Answer::Ints(&[0]),
            Answer::Text("int"),
            Answer::Ints(&[]),
            Answer::Ints(&[2]),
            NONE,
        ],
    ),
    // A field that is a grid, a grid's points alone in one, and such with counts of 1.
    (
        &[
            POINTS,
            CELLS,
            (Body::Array(Items::Constant(&[2], 12, &[1, 2])), &[], &[]),
            (
                Body::Field,
                &[("positions", 0, 0), ("connections", 0, 1), ("data", 0, 2)],
                &[],
            ),
        ],
        [0, 0, 0, 1, 0, 0],
        [
            Answer::Ints(&[12]),
            YES,
            Answer::Text("short"),
            Answer::Ints(&[2]),
            Answer::Ints(&[3]),
            Answer::Ints(&[4, 3]),
        ],
    ),
    (
        &[POINTS, (Body::Field, &[("positions", 0, 0)], &[])],
        [0, 0, 0, 1, 0, 0],
        [NONE, NONE, NONE, NONE, YES, NONE],
    ),
    (
        &[
            (
                Body::Array(Items::Points(&[1, 4], &[0, 0], &[1, 0, 0, 1])),
                &[],
                &[],
            ),
            (Body::Array(Items::Cells(&[4])), &[], &[]),
            (
                Body::Field,
                &[("connections", 0, 1), ("positions", 0, 0)],
                &[],
            ),
        ],
        [0, 0, 0, 1, 0, 0],
        [
            NONE,
            NONE,
            NONE,
            NONE,
            Answer::Ints(&[2]),
            Answer::Ints(&[1, 4]),
        ],
    ),
    (
        &[
            (
                Body::Array(Items::Points(&[1, 1], &[0, 0], &[1, 0, 0, 1])),
                &[],
                &[],
            ),
            (Body::Field, &[("positions", 0, 0)], &[]),
        ],
        [0, 0, 0, 1, 0, 0],
        [NONE, NONE, NONE, NONE, YES, Answer::Ints(&[1, 1])],
    ),
    // Groups, of which one has a name that asks for data, and a series.
    (
        &[
            NUMBERS,
            (Body::Group, &[("data", 0, 0), ("", 0, 0)], &[("a", 0, 0)]),
        ],
        [0, 0, 0, 0, 1, 0],
        [NONE, NONE, NONE, NONE, Answer::Ints(&[2]), NONE],
    ),
    (
        &[(Body::Group, &[], &[])],
        [0, 0, 0, 0, 1, 0],
        [NONE, NONE, NONE, NONE, Answer::Ints(&[0]), NONE],
    ),
    (
        &[
            NUMBERS,
            (Body::Field, &[("data", 0, 0)], &[]),
            (Body::Composite, &[("", 0, 1)], &[]),
        ],
        [0, 0, 0, 0, 1, 0],
        [NONE, NONE, NONE, NONE, YES, NONE],
    ),
    (
        &[
            NUMBERS,
            BARE,
            (Body::Series, &[("", 3, 0), ("", 1, 1), ("", 1, 0)], &[]),
        ],
        [0, 0, 0, 0, 0, 1],
        [NONE, NONE, NONE, NONE, Answer::Ints(&[3]), NONE],
    ),
];

fn inquire(
    alloc: Global,
    object: &Value,
    inquiry: Sample,
    unused: Sample,
) -> Result<Result<Outs, RunFail>, Fail> {
    let mut inputs = Outs::new(alloc);
    inputs.push(copied(object)?)?;
    inputs.push(value(alloc, inquiry)?)?;
    inputs.push(value(alloc, unused)?)?;
    if !Module::Inquire.takes(inputs.len()) {
        return Err(Fail::from("other inputs"));
    }
    Ok(run_inquire(alloc, &inputs))
}

// Asks a question about an object. Another answer than this is the failure.
fn has_answer(alloc: Global, object: &Value, question: &str, wanted: Answer) -> Result<(), Fail> {
    let inquiry = Sample::Text(question.as_bytes());
    if answers(inquire(alloc, object, inquiry, Sample::Null)?, wanted) {
        Ok(())
    } else {
        Err(Fail::from(question))
    }
}

// Asks the questions that are asked of anything.
fn have_truths(alloc: Global, object: &Value, truths: &[i64]) -> Result<(), Fail> {
    for (question, truth) in WHETHER.iter().zip(truths.iter()) {
        has_answer(alloc, object, question, Answer::Ints(&[*truth]))?;
    }
    Ok(())
}

fn have_answers(alloc: Global, object: &Value, answers: &[Answer]) -> Result<(), Fail> {
    for (question, wanted) in OTHERS.iter().zip(answers.iter()) {
        has_answer(alloc, object, question, *wanted)?;
    }
    Ok(())
}

fn all_have_answers(alloc: Global, rows: &[Row]) -> Result<(), Fail> {
    for (entries, truths, others) in rows {
        let object = last_of(alloc, entries)?;
        have_truths(alloc, &object, truths)?;
        have_answers(alloc, &object, others)?;
    }
    Ok(())
}

#[test]
fn each_question_has_its_answer_of_each_kind(rt: HostRuntime) -> Result<(), Fail> {
    all_have_answers(rt.alloc(), &ROWS)
}

#[test]
fn the_type_is_told_by_its_words(rt: HostRuntime) -> Result<(), Fail> {
    let alloc = rt.alloc();
    for (elem, words) in [
        (ElemType::Byte, "signed byte"),
        (ElemType::UByte, "unsigned byte"),
        (ElemType::Short, "short"),
        (ElemType::UShort, "unsigned short"),
        (ElemType::Int, "int"),
        (ElemType::UInt, "unsigned int"),
    ] {
        let object = value(alloc, Sample::Numbers(elem, &[1]))?;
        has_answer(alloc, &object, "type", Answer::Text(words))?;
    }
    Ok(())
}

// The object, the inquiry and the value, and the answer.
const ORDER: [([Sample<'static>; 3], Answer<'static>); 14] = [
    // NULL asks whether the object is NULL.
    ([Sample::Null, Sample::Null, Sample::Null], YES),
    ([FIVE, Sample::Null, Sample::Null], Answer::Ints(&[0])),
    (
        [Sample::Group, Sample::Null, Sample::Null],
        Answer::Ints(&[0]),
    ),
    // The kind of the inquiry, before the value.
    ([FIVE, FIVE, Sample::Null], NONE),
    ([FIVE, Sample::Group, FIVE], NONE),
    ([FIVE, Sample::Field("data", &[1]), FIVE], NONE),
    // The value and the words of the inquiry, before the object.
    ([FIVE, Sample::Null, FIVE], UNKNOWN),
    ([Sample::Null, Sample::Text(b"items"), FIVE], UNKNOWN),
    (
        [Sample::Null, Sample::Text(b"grid counts"), Sample::Group],
        UNKNOWN,
    ),
    ([Sample::Null, Sample::Text(b"size"), Sample::Null], UNKNOWN),
    ([FIVE, Sample::Text(b""), Sample::Null], UNKNOWN),
    ([FIVE, Sample::Text(b"Items"), Sample::Null], UNKNOWN),
    ([FIVE, Sample::Text(b"items "), Sample::Null], UNKNOWN),
    ([Sample::Group, Sample::Text(b"items"), Sample::Null], NONE),
];

const FIVE: Sample<'static> = Sample::Numbers(ElemType::Int, &[5]);

fn all_answer_in_order(alloc: Global, rows: &[([Sample; 3], Answer)]) -> Result<(), Fail> {
    for ([object, inquiry, unused], wanted) in rows {
        let object = value(alloc, *object)?;
        if !answers(inquire(alloc, &object, *inquiry, *unused)?, *wanted) {
            return Err(Fail::from("another answer, or another code"));
        }
    }
    Ok(())
}

#[test]
fn inputs_are_refused_in_their_order(rt: HostRuntime) -> Result<(), Fail> {
    all_answer_in_order(rt.alloc(), &ORDER)
}
