//! What calls answer, beside what they are to answer.
use dx_arrays::{Array, ArrayClass, ElemType};
use dx_objects::{Code, Object, Outs, Part, RunFail};

/// A result, or the code by which a call refuses.
#[derive(Clone, Copy)]
pub(crate) enum Answer<'a> {
    Null,
    /// A plain array of type int and rank 0 without attributes.
    Ints(&'a [i64]),
    /// A text without attributes.
    Text(&'a str),
    Refused(&'static str),
}

/// The name of the code by which a call refused its inputs.
pub(crate) fn fail_name(fail: RunFail) -> &'static str {
    match fail {
        RunFail::Memory => "Memory",
        RunFail::Code(Code::BadArgument) => "BadArgument",
        RunFail::Code(Code::Unsupported) => "Unsupported",
        RunFail::Code(Code::NoComponent) => "NoComponent",
        RunFail::Code(Code::Overflow) => "Overflow",
        RunFail::Code(_) => "another code",
    }
}

/// Whether an array is plain and of type int, with these extents and values.
pub(crate) fn is_plain(array: &Array, extents: &[u32], wanted: &[i64]) -> bool {
    if !matches!(array.class(), ArrayClass::Plain) || !matches!(array.elem(), ElemType::Int) {
        return false;
    }
    array.extents() == extents && are_stored(array, wanted)
}

// Whether these are an array's values, item by item.
fn are_stored(array: &Array, wanted: &[i64]) -> bool {
    let mut rest = wanted.iter();
    for item in 0..array.items() {
        for place in 0..array.width() {
            if rest.next() != Some(&array.value(item, place)) {
                return false;
            }
        }
    }
    rest.next().is_none()
}

fn are_ints(object: &Object, wanted: &[i64]) -> bool {
    match object.as_array() {
        None => false,
        Some(array) => object.attributes().is_empty() && is_plain(array, &[], wanted),
    }
}

fn is_text(object: &Object, wanted: &str) -> bool {
    match object.as_text() {
        None => false,
        Some(text) => object.attributes().is_empty() && text == wanted.as_bytes(),
    }
}

/// Whether one of the results is this.
pub(crate) fn shows(results: &Outs, place: usize, wanted: Answer) -> bool {
    let Some(object) = results.value(place) else {
        return matches!(wanted, Answer::Null);
    };
    match wanted {
        Answer::Null | Answer::Refused(_) => false,
        Answer::Ints(values) => are_ints(object, values),
        Answer::Text(text) => is_text(object, text),
    }
}

/// Whether a call answers with this alone, or refuses so.
pub(crate) fn answers(answer: Result<Outs, RunFail>, wanted: Answer) -> bool {
    match answer {
        Ok(results) => results.len() == 1 && shows(&results, 0, wanted),
        Err(fail) => match wanted {
            Answer::Refused(name) => fail_name(fail) == name,
            _ => false,
        },
    }
}

/// Whether the results are these numbers, NULL being none.
pub(crate) fn are_numbers(results: &Outs, numbers: &[Option<i64>]) -> bool {
    if results.len() != numbers.len() {
        return false;
    }
    for (i, number) in numbers.iter().enumerate() {
        if !is_number(results, i, *number) {
            return false;
        }
    }
    true
}

/// Whether one of the results is this number, NULL being none.
pub(crate) fn is_number(results: &Outs, place: usize, number: Option<i64>) -> bool {
    match number {
        None => shows(results, place, Answer::Null),
        Some(n) => shows(results, place, Answer::Ints(&[n])),
    }
}

/// Whether these attributes, and no others, have these texts, in this order.
pub(crate) fn are_texts(attributes: &[Part], wanted: &[(&str, &str)]) -> bool {
    if attributes.len() != wanted.len() {
        return false;
    }
    for (part, (name, text)) in attributes.iter().zip(wanted.iter()) {
        if !has_name(part, name) || !is_text(&part.object, text) {
            return false;
        }
    }
    true
}

/// Whether a part has this name.
pub(crate) fn has_name(part: &Part, wanted: &str) -> bool {
    match &part.name {
        None => false,
        Some(name) => name.bytes() == wanted.as_bytes(),
    }
}
