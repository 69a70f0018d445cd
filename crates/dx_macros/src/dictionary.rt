//! The dictionary: macros by their names, and the definitions of the top level.
ghost use Rattle.std.specs.Prelude.{◌≡◌, ◌<◌, Some, length, OnOk, OnErr, option_map, IfSome, IsOk};
ghost use Rattle.dx_ast.specs.Lawful.{IsLawfulMacro, IsLawfulAssign, IsLawfulConst};
ghost use Rattle.dx_ast.specs.Plain.{plain_macro, plain_expr};
ghost use Rattle.dx_macros.specs.Dictionary.{empty, defining, with_definition};
ghost use Rattle.dx_definitions.specs.Constants.{constant_at};
ghost use Rattle.dx_definitions.specs.TopTexts.{definition, last_named};
ghost use Rattle.dx_macros.specs.Shown.{AreLawfulMacros, AreLawfulDefinitions};
ghost use Rattle.dx_definitions.specs.Index.{text_of};

use dx_ast::{Assign, Const, MacroDef};
use dx_definitions::Definitions;
use indexmap::IndexMap;
use std::alloc::{AllocError, Global};

/// The macros of a session by their names, and its definitions in the order in which they joined. All of them are lawful.
#[derive(Drop)]
pub struct Dictionary {
    alloc: Global,
    macros: IndexMap<Vec<u8>, MacroDef>,
    definitions: Definitions,
    pub ghost lawful_macros: { ∥ AreLawfulMacros macros ∥₁ },
    pub ghost lawful_definitions: { ∥ AreLawfulDefinitions definitions.items ∥₁ },
}

impl Dictionary {
    ghost use Rattle.dx_macros.specs.DictionaryView.{dictionary_of, room_of};

    /// The dictionary without macros and definitions, which takes no memory.
    pub fn new(alloc: Global) -> Dictionary
        ensures { dictionary_of result ≡ empty }
    {
        Dictionary {
            alloc,
            macros: IndexMap::new(alloc),
            definitions: Definitions::new(alloc),
        }
    }

    /// The macro joins and replaces an earlier one of its name. Where memory runs out the dictionary stays as it was.
    pub fn define(&mut self, m: MacroDef) -> Result<(), AllocError>
        requires { IsLawfulMacro (plain_macro m) }
        ensures ok { OnOk result (dictionary_of self.new ≡ defining (plain_macro m) (dictionary_of self.old)) }
        ensures err { OnErr result (dictionary_of self.new ≡ dictionary_of self.old) }
        ensures room { room_of self.new ≡ room_of self.old }
    {
        let key = Vec::from_slice(self.alloc, m.name.bytes())?;
        self.macros.insert(key, m)?;
        Ok(())
    }

    /// Makes room for one more definition, and changes nothing else.
    pub fn reserve(&mut self) -> Result<(), AllocError>
        ensures same { dictionary_of self.new ≡ dictionary_of self.old }
        ensures room { OnOk result (0 < room_of self.new) }
    {
        self.definitions.reserve()
    }

    /// The definition joins behind the others. Where memory runs out the dictionary stays as it was; where there is room it
    /// doesn't.
    pub fn add(&mut self, s: Assign) -> Result<(), AllocError>
        requires { IsLawfulAssign s.targets (plain_expr s.value) }
        ensures ok { OnOk result (dictionary_of self.new ≡ with_definition (text_of s) (dictionary_of self.old)) }
        ensures err { OnErr result (dictionary_of self.new ≡ dictionary_of self.old) }
        ensures room { 0 < room_of self.old → IsOk result }
    {
        self.definitions.push(self.alloc, s)
    }

    /// The macro of this name; None exactly where no macro has it.
    pub fn macro_of(&self, name: &[u8]) -> Option<&MacroDef>
        ensures { option_map (λ m. plain_macro m.now) result ≡ (dictionary_of self.now).macros name.now }
    {
        if self.macros.is_empty() {
            return None;
        }
        self.macros.get(name)
    }

    /// How many definitions there are.
    pub fn len(&self) -> usize
        ensures { result ≡ length (dictionary_of self.now).definitions }
    {
        self.definitions.as_slice().len()
    }

    /// The position of the last definition of a name before a position.
    pub fn last_before(&self, position: usize, name: &[u8]) -> Option<usize>
        ensures last { result ≡ last_named (dictionary_of self.now).definitions position name.now }
        ensures below { IfSome result (λ i. i < length (dictionary_of self.now).definitions) }
    {
        self.definitions.last_before(position, name)
    }

    /// Definition number i, in the order in which they joined.
    pub fn definition(&self, i: usize) -> &Assign
        requires { i < length (dictionary_of self.now).definitions }
        ensures { text_of result.now ≡ definition (dictionary_of self.now).definitions i }
    {
        &self.definitions.as_slice()[i]
    }

    /// The constant that a name means behind all definitions, where that is seen at once: its last definition assigns it to this
    /// name alone, as it stands or by a name that means it so. None where it is anything else.
    pub fn constant(&self, name: &[u8]) -> Option<&Const>
        ensures means { IfSome result (λ c. constant_at (dictionary_of self.now).definitions (length (dictionary_of self.now).definitions) name.now ≡ Some c.now) }
        ensures lawful { IfSome result (λ c. ∥ IsLawfulConst c.now ∥₁) }
    {
        self.definitions.constant_before(self.len(), name)
    }
}
