//! What a module answers, as a text.
use dx_base::{Bytes, Code, Module};
use dx_modules::Modules;
use dx_native_read::read_object;
use dx_native_write::write_object;
use dx_objects::{Library, Object, Outs, Parts, Recorder, RunFail, Value, number};
use std::alloc::Global;
use std::rc::Rc;
use std::test::Fail;

// An input of a module.
#[derive(Clone, Copy)]
pub(crate) enum Given<'a> {
    Null,
    Text(&'a str),
    Number(i64),
    // The object of a native text.
    Native(&'a str),
}

fn native(alloc: Global, text: &str) -> Result<Value, Fail> {
    match read_object(alloc, text.as_bytes(), None) {
        Ok(object) => Ok(Some(Rc::new(alloc, object)?)),
        Err(_) => Err(Fail::from("not read")),
    }
}

fn value(alloc: Global, given: Given) -> Result<Value, Fail> {
    match given {
        Given::Null => Ok(None),
        Given::Number(n) => Ok(number(alloc, n)?),
        Given::Native(text) => native(alloc, text),
        Given::Text(text) => {
            let bytes = Bytes::copy_of(alloc, text.as_bytes())?;
            let object = Object::text(bytes, Parts::new(alloc))?;
            Ok(Some(Rc::new(alloc, object)?))
        }
    }
}

pub(crate) fn inputs(alloc: Global, given: &[Given]) -> Result<Outs, Fail> {
    let mut inputs = Outs::new(alloc);
    for one in given {
        inputs.push(value(alloc, *one)?)?;
    }
    Ok(inputs)
}

fn code_name(code: Code) -> &'static str {
    match code {
        Code::BadArgument => "BadArgument",
        Code::Unsupported => "Unsupported",
        Code::NoFile => "NoFile",
        Code::BadField => "BadField",
        Code::BadFile(_, _) => "BadFile",
        Code::DivisionByZero => "DivisionByZero",
        _ => "another code",
    }
}

// The canonical texts of all results, one behind the other, and a line for NULL.
fn written(alloc: Global, results: &Outs) -> Result<Vec<u8>, Fail> {
    let mut texts = Vec::new(alloc);
    for place in 0..results.len() {
        match results.value(place) {
            Some(object) => texts.extend_from_slice(write_object(alloc, object)?.bytes())?,
            None => texts.extend_from_slice(b"NULL\n")?,
        }
    }
    Ok(texts)
}

// Whether a module answers with objects of these canonical texts, one behind the other, or refuses with the code of this name, and
// whether the run is kept.
pub(crate) fn answers(
    alloc: Global,
    module: Module,
    inputs: &Outs,
    file: Option<&Bytes>,
    text: &str,
) -> Result<bool, Fail> {
    if !module.takes(inputs.len()) {
        return Ok(false);
    }
    let mut library = Recorder::new(alloc, Modules::new());
    let answer = library.run(alloc, module, inputs, file);
    if library.runs().len() != 1 {
        return Ok(false);
    }
    match answer {
        Ok(results) => Ok(written(alloc, &results)?.as_slice() == text.as_bytes()),
        Err(RunFail::Code(code)) => Ok(code_name(code) == text),
        Err(RunFail::Memory) => Ok(false),
    }
}

// The name of the code by which Import refuses these inputs, or that it gives an object.
pub(crate) fn kind_of_answer(
    alloc: Global,
    inputs: &Outs,
    file: &Bytes,
) -> Result<&'static str, Fail> {
    if !Module::Import.takes(inputs.len()) {
        return Ok("other inputs");
    }
    match Modules::new().run(alloc, Module::Import, inputs, Some(file)) {
        Ok(_) => Ok("an object"),
        Err(RunFail::Code(code)) => Ok(code_name(code)),
        Err(RunFail::Memory) => Ok("no memory"),
    }
}
