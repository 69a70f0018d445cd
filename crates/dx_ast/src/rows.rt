//! The table of functions as data: one row for each.
ghost use Rattle.std.specs.Prelude.{◌≡◌, ◌<◌, slice_get, Some};
ghost use Rattle.dx_ast.specs.Table.{row_of};
ghost use Rattle.dx_ast.specs.Rows.{said, in_order};

use dx_base::{Effect, Function, Module};

/// What a function is called, what a call may give it, and how many results it has.
#[derive(Debug)]
pub struct Row {
    pub name: &'static [u8],
    /// The names of its named parameters, in order.
    pub params: &'static [&'static [u8]],
    /// How many further arguments it takes.
    pub more: u32,
    pub results: u32,
}

/// The rows of all functions: modules, effects, and then those that steer and those that read links.
static ROWS: [Row; 23] = [
    Row {
        name: b"Import",
        params: &[b"name", b"variable", b"format", b"start", b"end", b"delta"],
        more: 0,
        results: 1,
    },
    Row {
        name: b"Select",
        params: &[b"input", b"which", b"except"],
        more: 0,
        results: 1,
    },
    Row {
        name: b"Extract",
        params: &[b"input", b"name"],
        more: 0,
        results: 1,
    },
    Row {
        name: b"Replace",
        params: &[b"srcfield", b"dstfield", b"srcname", b"dstname"],
        more: 0,
        results: 1,
    },
    Row {
        name: b"Mark",
        params: &[b"input", b"name"],
        more: 0,
        results: 1,
    },
    Row {
        name: b"Unmark",
        params: &[b"input", b"name"],
        more: 0,
        results: 1,
    },
    Row {
        name: b"Slab",
        params: &[b"input", b"dimension", b"position", b"thickness"],
        more: 0,
        results: 1,
    },
    Row {
        name: b"Compute",
        params: &[b"expression"],
        more: 20,
        results: 1,
    },
    Row {
        name: b"Statistics",
        params: &[b"data"],
        more: 0,
        results: 5,
    },
    Row {
        name: b"Histogram",
        params: &[b"data", b"bins", b"min", b"max", b"out"],
        more: 0,
        results: 2,
    },
    Row {
        name: b"Collect",
        params: &[b"object"],
        more: 63,
        results: 1,
    },
    Row {
        name: b"CollectNamed",
        params: &[b"object", b"name"],
        more: 62,
        results: 1,
    },
    Row {
        name: b"CollectSeries",
        params: &[b"object", b"position"],
        more: 62,
        results: 1,
    },
    Row {
        name: b"Inquire",
        params: &[b"input", b"inquiry", b"value"],
        more: 0,
        results: 1,
    },
    Row {
        name: b"Print",
        params: &[b"object", b"options", b"component"],
        more: 0,
        results: 0,
    },
    Row {
        name: b"Echo",
        params: &[b"string"],
        more: 63,
        results: 0,
    },
    Row {
        name: b"Export",
        params: &[b"object", b"name", b"format"],
        more: 0,
        results: 0,
    },
    Row {
        name: b"SetLocal",
        params: &[b"object", b"link"],
        more: 0,
        results: 1,
    },
    Row {
        name: b"SetGlobal",
        params: &[b"object", b"link"],
        more: 0,
        results: 1,
    },
    Row {
        name: b"Switch",
        params: &[b"selector", b"input"],
        more: 62,
        results: 1,
    },
    Row {
        name: b"Route",
        params: &[b"selector", b"input"],
        more: 0,
        results: 64,
    },
    Row {
        name: b"GetLocal",
        params: &[b"initial", b"link"],
        more: 0,
        results: 2,
    },
    Row {
        name: b"GetGlobal",
        params: &[b"initial", b"link"],
        more: 0,
        results: 2,
    },
];

/// The number of a function's row.
fn index_of(f: Function) -> usize
    ensures placed { slice_get in_order result ≡ Some f }
    ensures within { result < 23 }
{
    match f {
        Function::Module(m) => m as usize,
        Function::Effect(Effect::Print) => 14,
        Function::Effect(Effect::Echo) => 15,
        Function::Effect(Effect::Export) => 16,
        Function::Effect(Effect::SetLocal) => 17,
        Function::Effect(Effect::SetGlobal) => 18,
        Function::Switch => 19,
        Function::Route => 20,
        Function::GetLocal => 21,
        Function::GetGlobal => 22,
    }
}

/// The row of a function.
pub fn row_of(f: Function) -> &'static Row
    ensures { said result.now ≡ row_of f }
{
    &ROWS[index_of(f)]
}
