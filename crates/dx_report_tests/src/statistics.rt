//! What Statistics answers of numbers, and what it refuses.
use crate::answers::{are_numbers, fail_name};
use crate::made::{Sample, inputs_of};
use dx_arrays::ElemType;
use dx_base::Module;
use dx_stats::run_statistics;
use std::alloc::Global;
use std::test::Fail;

fn answers(alloc: Global, sample: Sample, numbers: &[Option<i64>]) -> Result<bool, Fail> {
    let inputs = inputs_of(alloc, &[sample])?;
    if !Module::Statistics.takes(inputs.len()) {
        return Ok(false);
    }
    match run_statistics(alloc, &inputs) {
        Err(_) => Ok(false),
        Ok(results) => Ok(are_numbers(&results, numbers)),
    }
}

// Mean, standard deviation, variance, least and greatest.
#[test]
fn statistics_are_rounded_down(rt: HostRuntime) -> Result<(), Fail> {
    let alloc = rt.alloc();
    let rows: [(Sample, [i64; 5]); 8] = [
        (
            Sample::Numbers(ElemType::Int, &[-1, -2]),
            [-2, 0, 0, -2, -1],
        ),
        (Sample::Numbers(ElemType::Int, &[5]), [5, 0, 0, 5, 5]),
        (
            Sample::Numbers(ElemType::Short, &[1, 2, 2, 3, 9]),
            [3, 2, 8, 1, 9],
        ),
        (Sample::Numbers(ElemType::Int, &[0, 7]), [3, 3, 12, 0, 7]),
        (Sample::Field("data", &[10, 20, 31]), [20, 8, 73, 10, 31]),
        // The mean is 14, and the squares of the distances from it have the sum 572.
        (
            Sample::Numbers(ElemType::Int, &[3, 5, 7, 9, 11, 13, 15, 17, 19, 21, 23, 25]),
            [14, 6, 47, 3, 25],
        ),
        (
            Sample::Numbers(ElemType::Byte, &[-128, 127, -128]),
            [-43, 120, 14450, -128, 127],
        ),
        (Sample::Line(5000, -1, 1), [2498, 1443, 2083333, -1, 4998]),
    ];
    for (sample, [mean, deviation, variance, least, greatest]) in rows {
        let numbers = [mean, deviation, variance, least, greatest].map(Some);
        assert!(rt; answers(alloc, sample, &numbers)?);
    }
    Ok(())
}

// The variance of the two ends of the int range is 4,611,686,016,279,904,256, and its root rounded down the greatest int.
#[test]
fn statistics_that_are_no_ints_are_null(rt: HostRuntime) -> Result<(), Fail> {
    let alloc = rt.alloc();
    let ends = Sample::Numbers(ElemType::Int, &[-2147483648, 2147483647]);
    let numbers = [
        Some(-1),
        Some(2147483647),
        None,
        Some(-2147483648),
        Some(2147483647),
    ];
    assert!(rt; answers(alloc, ends, &numbers)?);
    let large = Sample::Numbers(ElemType::UInt, &[4294967295, 4294967295]);
    assert!(rt; answers(alloc, large, &[None, Some(0), Some(0), None, None])?);
    Ok(())
}

fn refusal(alloc: Global, sample: Sample) -> Result<&'static str, Fail> {
    let inputs = inputs_of(alloc, &[sample])?;
    if !Module::Statistics.takes(inputs.len()) {
        return Ok("other inputs");
    }
    match run_statistics(alloc, &inputs) {
        Ok(_) => Ok("results"),
        Err(fail) => Ok(fail_name(fail)),
    }
}

#[test]
fn other_inputs_are_refused(rt: HostRuntime) -> Result<(), Fail> {
    let alloc = rt.alloc();
    let rows = [
        (Sample::Null, "BadArgument"),
        (Sample::Text(b"5"), "BadArgument"),
        (Sample::Group, "BadArgument"),
        (Sample::Composite, "BadArgument"),
        (Sample::Series, "BadArgument"),
        (Sample::Numbers(ElemType::Int, &[]), "BadArgument"),
        (Sample::Vectors(&[1, 2]), "BadArgument"),
        (Sample::Field("positions", &[1]), "NoComponent"),
        (Sample::Field("data", &[]), "BadArgument"),
    ];
    for (sample, name) in rows {
        assert!(rt; refusal(alloc, sample)? == name);
    }
    Ok(())
}
