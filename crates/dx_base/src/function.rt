//! The functions that a call may name.
ghost use Rattle.std.specs.Prelude.{◌≡◌};
ghost use Rattle.dx_base.specs.Modules as spec;

/// The modules of the executive that compute: each gives results and has no effect.
#[derive(Clone, Copy, Debug, PartialEq, Eq, Hash)]
pub enum Module {
    Import,
    Select,
    Extract,
    Replace,
    Mark,
    Unmark,
    Slab,
    Compute,
    Statistics,
    Histogram,
    Collect,
    CollectNamed,
    CollectSeries,
    Inquire,
}

impl Module {
    /// How many named parameters the module has, each of which is an input (User's Reference, the module's page).
    pub fn named(self) -> u32
        ensures { result ≡ spec.named self }
    {
        match self {
            Module::Import => 6,
            Module::Histogram => 5,
            Module::Replace | Module::Slab => 4,
            Module::Select | Module::Inquire => 3,
            Module::Extract | Module::Mark | Module::Unmark => 2,
            Module::CollectNamed | Module::CollectSeries => 2,
            Module::Compute | Module::Statistics | Module::Collect => 1,
        }
    }

    /// How many further inputs a call may give behind the named ones.
    pub fn more(self) -> u32
        ensures { result ≡ spec.more self }
    {
        match self {
            Module::Collect => 63,
            Module::CollectNamed | Module::CollectSeries => 62,
            Module::Compute => 20,
            Module::Import
            | Module::Select
            | Module::Extract
            | Module::Replace
            | Module::Mark
            | Module::Unmark
            | Module::Slab
            | Module::Statistics
            | Module::Histogram
            | Module::Inquire => 0,
        }
    }

    /// Whether so many inputs are as many as the module takes.
    pub fn takes(self, inputs: usize) -> bool
        ensures { result ≡ spec.takes self inputs }
    {
        let named = self.named() as usize;
        named <= inputs && inputs <= named + self.more() as usize
    }
}

/// The functions that have an effect.
#[derive(Clone, Copy, Debug, PartialEq, Eq, Hash)]
pub enum Effect {
    Print,
    Echo,
    Export,
    SetLocal,
    SetGlobal,
}

/// What a call in a script may name, macros aside.
#[derive(Clone, Copy, Debug, PartialEq, Eq, Hash)]
pub enum Function {
    Module(Module),
    Effect(Effect),
    Switch,
    Route,
    GetLocal,
    GetGlobal,
}
