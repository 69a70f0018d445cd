//! Values that are told of terms, in the order of their coming.

use dx_ast::Const;
use dx_base::Shared;
use dx_consts::object_of;
use dx_demand::Given;
use dx_objects::{Object, Value};
use dx_tags::ValueTag;
use indexmap::IndexMap;
use std::alloc::{AllocError, Global};

/// A value that a test tells.
#[derive(Clone, Copy)]
pub enum Tell {
    Null,
    Number(i32),
    Text(&'static str),
}

/// The values told so far.
#[derive(Drop)]
pub struct Told {
    values: IndexMap<ValueTag, Value>,
}

fn value_of(alloc: Global, tell: Tell) -> Result<Value, AllocError> {
    match tell {
        Tell::Null => Ok(None),
        Tell::Number(n) => object_of(alloc, &Const::Int(n)),
        Tell::Text(text) => {
            if text.len() > 255 {
                return Ok(None);
            }
            let bytes = Vec::from_slice(alloc, text.as_bytes())?;
            object_of(alloc, &Const::Text(Shared::from_vec(alloc, bytes)?))
        }
    }
}

impl Told {
    pub fn new(alloc: Global) -> Told {
        Told {
            values: IndexMap::new(alloc),
        }
    }

    /// How many were told.
    pub fn count(&self) -> usize {
        self.values.len()
    }

    pub fn tell(&mut self, alloc: Global, tag: ValueTag, tell: Tell) -> Result<(), AllocError> {
        self.values.insert(tag, value_of(alloc, tell)?)?;
        Ok(())
    }
}

impl Given for Told {
    ghost use Rattle.std.specs.Prelude.{option_map};
    ghost use Rattle.std.specs.Map.{lookup};
    ghost use Rattle.dx_objects.specs.Values.{value_of};
    ghost use Rattle.dx_tags.specs.contracts.term.ValueTagPartialEq.TheImpl as tags;

    ghost told = { λ w t. option_map value_of (lookup (tags.ghosts.eq t) w.values.entries) };

    fn value(&self, t: ValueTag) -> Option<Option<&Object>> {
        match self.values.get(&t) {
            None => None,
            Some(None) => Some(None),
            Some(Some(object)) => Some(Some(object)),
        }
    }
}
