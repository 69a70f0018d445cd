//! Parts and attributes whose names differ, with a table of the names beside each list.

ghost use Rattle.std.specs.Prelude.{◌≡◌, ◌∷◌, ◌++◌, [], length, IfOk, false};
ghost use Rattle.dx_native_grammar.specs.Names.{has_part, has_label, has_attribute};

use crate::names::NameSet;
use dx_base::{Bytes, Items};
use dx_native_grammar::{Attribute, Part};
use std::alloc::{AllocError, Global};
use std::marker::Model;

/// Parts whose names differ.
#[derive(Drop)]
pub struct PartTable {
    items: Items<Part>,
    names: NameSet,
}

impl Model for PartTable {
    ghost use Rattle.std.specs.Prelude.{◌≡◌, List};
    ghost use Rattle.dx_native_grammar.specs.Names.{part_names};
    ghost use Rattle.dx_native_grammar.specs.declared.clause.Part.{Part as Plain};

    ghost Value = { List Plain };

    ghost view = { λ p. p.items };

    ghost invariant = { λ p. p.names ≡ part_names p.items };
}

/// Attributes whose names differ.
#[derive(Drop)]
pub struct AttributeTable {
    items: Items<Attribute>,
    names: NameSet,
}

impl Model for AttributeTable {
    ghost use Rattle.std.specs.Prelude.{◌≡◌, List};
    ghost use Rattle.dx_native_grammar.specs.Names.{attribute_names};
    ghost use Rattle.dx_native_grammar.specs.declared.clause.Attribute.{Attribute as Plain};

    ghost Value = { List Plain };

    ghost view = { λ p. p.items };

    ghost invariant = { λ p. p.names ≡ attribute_names p.items };
}

/// The parts and the attributes of an object so far.
#[derive(Drop)]
pub struct ListedSoFar {
    pub parts: PartTable,
    pub attributes: AttributeTable,
}

impl Model for ListedSoFar {
    ghost use Rattle.dx_native_grammar.specs.Grammar.{Listed};

    ghost Value = { Listed };

    ghost view = { λ l. record { parts = l.parts; attributes = l.attributes } };
}

impl PartTable {
    pub fn new(alloc: Global) -> PartTable
        ensures { result ≡ [] }
    {
        PartTable {
            items: Items::new(alloc),
            names: NameSet::new(alloc),
        }
    }

    pub fn len(&self) -> usize
        ensures { result ≡ length self.now }
    {
        self.items.len()
    }

    /// Whether a part has this name.
    pub fn has(&self, name: &Bytes) -> bool
        ensures { result ≡ has_part name.now self.now }
    {
        self.names.has(name)
    }

    /// Whether a part has this name, where it is one.
    pub fn has_label(&self, name: &Option<Bytes>) -> bool
        ensures { result ≡ has_label name.now self.now }
    {
        match name {
            None => false,
            Some(name) => self.names.has(name),
        }
    }

    /// A further part joins, whose name no other has.
    #[tactic(auto, using(crate::proofs::NameLaws::part_names_push))]
    pub fn with(self, alloc: Global, part: Part) -> Result<PartTable, AllocError>
        requires { has_label part.name self ≡ false }
        ensures { IfOk result (λ table. table ≡ self ++ part ∷ []) }
    {
        let PartTable {
            mut items,
            mut names,
        } = self;
        if let Some(name) = &part.name {
            names.add(Bytes::copy_of(alloc, name.bytes())?)?;
        }
        items.push(part)?;
        Ok(PartTable { items, names })
    }

    pub fn into_items(self) -> Items<Part>
        ensures { result ≡ self }
    {
        self.items
    }
}

impl AttributeTable {
    pub fn new(alloc: Global) -> AttributeTable
        ensures { result ≡ [] }
    {
        AttributeTable {
            items: Items::new(alloc),
            names: NameSet::new(alloc),
        }
    }

    /// Whether an attribute has this name.
    pub fn has(&self, name: &Bytes) -> bool
        ensures { result ≡ has_attribute name.now self.now }
    {
        self.names.has(name)
    }

    /// A further attribute joins, whose name no other has.
    #[tactic(auto, using(crate::proofs::NameLaws::attribute_names_push))]
    pub fn with(self, alloc: Global, attribute: Attribute) -> Result<AttributeTable, AllocError>
        requires { has_attribute attribute.name self ≡ false }
        ensures { IfOk result (λ table. table ≡ self ++ attribute ∷ []) }
    {
        let AttributeTable {
            mut items,
            mut names,
        } = self;
        names.add(Bytes::copy_of(alloc, attribute.name.bytes())?)?;
        items.push(attribute)?;
        Ok(AttributeTable { items, names })
    }

    pub fn into_items(self) -> Items<Attribute>
        ensures { result ≡ self }
    {
        self.items
    }
}
