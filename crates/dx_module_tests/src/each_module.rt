//! Each module answers for itself.
use crate::asked::{Given, answers, inputs};
use dx_base::{Bytes, Module};
use std::alloc::Global;
use std::test::Fail;

const ONE: &str = "object 1 class array type int rank 0 items 1 data follows\n1\nend\n";

const FIVE: &str = "object 1 class array type int rank 0 items 1 data follows\n5\nend\n";

const SEVEN: &str = "object 1 class array type int rank 0 items 1 data follows\n7\nend\n";

const NONE: &str = "object 1 class group\nend\n";

const IN_ORDER: &str = "object 1 class array type int rank 0 items 1 data follows\n5\n\
    object 2 class string \"a\"\n\
    object 3 class group\nmember 0 value 1\nmember 1 value 2\nend\n";

const NAMED: &str =
    "object 1 class array type int rank 0 items 1 data follows\n5\nobject 2 class group\nmember \"a\" value 1\nend\n";

const PLACED: &str =
    "object 1 class array type int rank 0 items 1 data follows\n5\nobject 2 class series\nmember 0 position 7 value 1\nend\n";

const TWO: Given<'static> = Given::Number(2);

const A: Given<'static> = Given::Number(5);

const NULL: Given<'static> = Given::Null;

// The members `a` and `b` are 5 and 7.
const GROUP: Given<'static> = Given::Native(
    "object 1 class array type int rank 0 items 1 data follows 5\n\
    object 2 class array type int rank 0 items 1 data follows 7\n\
    object 3 class group member \"a\" value 1 member \"b\" value 2\n",
);

const NUMBERS: Given<'static> = Given::Native(
    "object 1 class array type int rank 0 items 4 data follows 6 1 2 3\n",
);

// Of the four numbers: their mean is 3, the variance 56 / 16.
const TOLD: &str = "object 1 class array type int rank 0 items 1 data follows\n3\nend\n\
    object 1 class array type int rank 0 items 1 data follows\n1\nend\n\
    object 1 class array type int rank 0 items 1 data follows\n3\nend\n\
    object 1 class array type int rank 0 items 1 data follows\n1\nend\n\
    object 1 class array type int rank 0 items 1 data follows\n6\nend\n";

// Of the four numbers in two bins, of which the second one begins at 4; and their median.
const COUNTED: &str = "object 1 class array type int rank 1 shape 1 items 3 data follows\n1\n4\n7\n\
    object 2 class gridconnections counts 3\n\
    attribute \"element type\" string \"lines\"\nattribute \"ref\" string \"positions\"\n\
    object 3 class array type int rank 0 items 2 data follows\n3\n1\n\
    attribute \"dep\" string \"connections\"\n\
    object 4 class field\n\
    component \"positions\" value 1\ncomponent \"connections\" value 2\ncomponent \"data\" value 3\nend\n\
    object 1 class array type int rank 0 items 1 data follows\n2\nend\n";

// The data are 1 and 2, and the component `a` 3 and 4.
const FIELD: Given<'static> = Given::Native(
    "object 1 class array type int rank 0 items 2 data follows 1 2\n\
    object 2 class array type int rank 0 items 2 data follows 3 4\n\
    object 3 class field component \"data\" value 1 component \"a\" value 2\n",
);

const EXTRACTED: &str = "object 1 class array type int rank 0 items 2 data follows\n3\n4\nend\n";

const REPLACED: &str = "object 1 class array type int rank 0 items 2 data follows\n1\n2\n\
    object 2 class array type int rank 0 items 2 data follows\n3\n4\n\
    object 3 class array type int rank 0 items 2 data follows\n3\n4\n\
    object 4 class field\ncomponent \"data\" value 1\ncomponent \"a\" value 2\ncomponent \"b\" value 3\nend\n";

const MARKED: &str = "object 1 class array type int rank 0 items 2 data follows\n3\n4\n\
    object 2 class array type int rank 0 items 2 data follows\n3\n4\n\
    object 3 class array type int rank 0 items 2 data follows\n1\n2\n\
    object 4 class field\ncomponent \"data\" value 1\ncomponent \"a\" value 2\ncomponent \"saved data\" value 3\nend\n";

const UNMARKED: &str = "object 1 class array type int rank 0 items 2 data follows\n1\n2\n\
    object 2 class field\ncomponent \"a\" value 1\nend\n";

// Two by two points.
const GRID: Given<'static> = Given::Native(
    "object 1 class gridpositions counts 2 2 origin 0 0 delta 1 0 delta 0 1\n\
    object 2 class gridconnections counts 2 2\n\
    object 3 class array type int rank 0 items 4 data follows 5 6 7 8 attribute \"dep\" string \"positions\"\n\
    object 4 class field component \"positions\" 1 component \"connections\" 2 component \"data\" 3\n",
);

const CUT: &str = "object 1 class gridpositions counts 1 2\norigin 1 0\ndelta 1 0\ndelta 0 1\n\
    object 2 class gridconnections counts 2\n\
    object 3 class array type int rank 0 items 2 data follows\n7\n8\n\
    attribute \"dep\" string \"positions\"\n\
    object 4 class field\n\
    component \"positions\" value 1\ncomponent \"connections\" value 2\ncomponent \"data\" value 3\nend\n";

// A module, its inputs, and what it answers.
type Row = (Module, &'static [Given<'static>], &'static str);

// A row for each module, which no other one answers so.
const EACH: [Row; 14] = [
    (
        Module::Import,
        &[Given::Text("v.dx"), NULL, NULL, NULL, NULL, NULL],
        SEVEN,
    ),
    (
        Module::Compute,
        &[Given::Text("$0 + $1"), TWO, Given::Number(3)],
        FIVE,
    ),
    (Module::Statistics, &[NUMBERS], TOLD),
    (
        Module::Histogram,
        &[NUMBERS, TWO, NULL, NULL, NULL],
        COUNTED,
    ),
    (Module::Inquire, &[TWO, Given::Text("is array"), NULL], ONE),
    (Module::Select, &[GROUP, Given::Text("b"), NULL], SEVEN),
    (Module::Extract, &[FIELD, Given::Text("a")], EXTRACTED),
    (
        Module::Replace,
        &[FIELD, FIELD, Given::Text("a"), Given::Text("b")],
        REPLACED,
    ),
    (Module::Mark, &[FIELD, Given::Text("a")], MARKED),
    (Module::Unmark, &[FIELD, Given::Text("a")], UNMARKED),
    (Module::Collect, &[A, Given::Text("a"), NULL], IN_ORDER),
    (Module::CollectNamed, &[A, Given::Text("a"), NULL], NAMED),
    (Module::CollectSeries, &[A, Given::Number(7), NULL], PLACED),
    (
        Module::Slab,
        &[GRID, Given::Number(0), Given::Number(1), Given::Number(0)],
        CUT,
    ),
];

const FURTHER: [Row; 6] = [
    (
        Module::Compute,
        &[Given::Text("$0 / $1"), TWO, Given::Number(0)],
        "DivisionByZero",
    ),
    (
        Module::Inquire,
        &[TWO, Given::Text("is array"), TWO],
        "Unsupported",
    ),
    (Module::Select, &[TWO, NULL, NULL], "BadArgument"),
    (Module::Collect, &[NULL, NULL, NULL], NONE),
    (
        Module::CollectSeries,
        &[A, Given::Text("a"), NULL],
        "BadArgument",
    ),
    (Module::Slab, &[NULL, NULL, NULL, NULL], "BadArgument"),
];

// Whether a module answers these inputs so. Each is given the same file.
fn does_answer(alloc: Global, module: Module, given: &[Given], text: &str) -> Result<bool, Fail> {
    let file = Bytes::copy_of(alloc, SEVEN.as_bytes())?;
    answers(alloc, module, &inputs(alloc, given)?, Some(&file), text)
}

#[test]
fn each_module_answers_for_itself(rt: HostRuntime) -> Result<(), Fail> {
    for (i, (_, given, text)) in EACH.iter().enumerate() {
        for (k, (module, _, _)) in EACH.iter().enumerate() {
            if does_answer(rt.alloc(), *module, given, text)? != (i == k) {
                return Err(Fail::from(*text));
            }
        }
    }
    Ok(())
}

#[test]
fn further_answers_and_refusals(rt: HostRuntime) -> Result<(), Fail> {
    for (module, given, text) in &FURTHER {
        if !does_answer(rt.alloc(), *module, given, text)? {
            return Err(Fail::from(*text));
        }
    }
    Ok(())
}
