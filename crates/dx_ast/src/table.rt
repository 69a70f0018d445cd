//! What the table of functions says of each: its columns, and which function a name means.
ghost use Rattle.std.specs.Prelude.{◌≡◌, ◌<◌, map, length, slice_index_or, [], IfSome};
ghost use Rattle.dx_base.specs.Modules as count;
ghost use Rattle.dx_ast.specs.Table as table;

use crate::rows::row_of;
use dx_base::{Effect, Function, Module};

/// The name of a function, by which a script calls it.
pub fn name(f: Function) -> &'static [u8]
    ensures { result.now ≡ (table.row_of f).name }
{
    row_of(f).name
}

/// The names of its named parameters, in order.
pub fn params(f: Function) -> &'static [&'static [u8]]
    ensures { map (λ p. p.now) result.now ≡ (table.row_of f).params }
{
    row_of(f).params
}

/// How many named parameters it has.
pub fn named(f: Function) -> u32
    ensures { result ≡ length (table.row_of f).params }
{
    params(f).len() as u32
}

/// The name of its named parameter number i, counted from 0.
pub fn param(f: Function, i: u32) -> &'static [u8]
    requires { i < length (table.row_of f).params }
    ensures { result.now ≡ slice_index_or (table.row_of f).params i [] }
{
    params(f)[i as usize]
}

/// How many further arguments it takes.
pub fn more(f: Function) -> u32
    ensures { result ≡ (table.row_of f).more }
{
    row_of(f).more
}

/// How many results it has.
pub fn results(f: Function) -> u32
    ensures { result ≡ (table.row_of f).results }
{
    row_of(f).results
}

/// All functions: those that do something, those that choose, and the modules.
static FUNCTIONS: [Function; 23] = [
    Function::Effect(Effect::Print),
    Function::Effect(Effect::Echo),
    Function::Effect(Effect::Export),
    Function::Effect(Effect::SetLocal),
    Function::Effect(Effect::SetGlobal),
    Function::Switch,
    Function::Route,
    Function::GetLocal,
    Function::GetGlobal,
    Function::Module(Module::Import),
    Function::Module(Module::Select),
    Function::Module(Module::Extract),
    Function::Module(Module::Replace),
    Function::Module(Module::Mark),
    Function::Module(Module::Unmark),
    Function::Module(Module::Slab),
    Function::Module(Module::Compute),
    Function::Module(Module::Statistics),
    Function::Module(Module::Histogram),
    Function::Module(Module::Collect),
    Function::Module(Module::CollectNamed),
    Function::Module(Module::CollectSeries),
    Function::Module(Module::Inquire),
];

fn find_named(mut among: &[Function], wanted: &[u8]) -> Option<Function>
    ensures found { result ≡ table.named_among wanted.now among.entry.now }
    ensures named { IfSome result (λ f. (table.row_of f).name ≡ wanted.now) }
{
    while let [f, rest @ ..] = among {
        if name(*f) == wanted {
            return Some(*f);
        }
        among = rest;
    }
    None
}

/// The function of that name; None exactly where no function has it.
pub fn function(name: &[u8]) -> Option<Function>
    ensures found { result ≡ table.function_named name.now }
    ensures named { IfSome result (λ f. (table.row_of f).name ≡ name.now) }
{
    find_named(&FUNCTIONS, name)
}

/// A module has as many named parameters in the table as it has named inputs.
pub fn named_inputs(m: Module)
    ensures { length (table.module_row m).params ≡ count.named m }
{}
