//! Objects, their parts, and lists of parts whose names differ.
ghost use Rattle.std.specs.Prelude.{◌≡◌, IsTrue};
ghost use Rattle.dx_base.specs.ObjectLimits.{differ};
ghost use Rattle.dx_objects.specs.Shown.{parts_of};

use dx_arrays::Array;
use dx_base::Bytes;
use std::marker::Model;
use std::rc::Rc;

/// A component, a member or an attribute. Components and attributes have a name and position 0, members of a group a
/// name or none and position 0, members of a series no name.
#[cycle(object)]
#[derive(Drop)]
pub struct Part {
    pub name: Option<Bytes>,
    pub position: i32,
    pub object: Rc<Object>,
}

/// Parts whose names differ. Beside them stand their places in the order of the names, so that a name is looked up by a
/// binary search.
#[cycle(object)]
#[derive(Drop)]
pub(crate) struct NamedParts {
    pub(crate) items: Vec<Part>,
    pub(crate) order: Vec<usize>,
}

impl Model for NamedParts {
    ghost use Rattle.dx_base.specs.Object.{PartList};
    ghost use Rattle.dx_base.specs.ObjectCode.{coded_parts};
    ghost use Rattle.dx_objects.specs.Nodes.{all_nodes};

    ghost Value = { PartList };

    ghost coded = { coded_parts };

    ghost use Rattle.dx_objects.specs.Shown.{parts_of};
    ghost use Rattle.dx_object_laws.specs.Order.{AreOrdered};

    ghost view = { λ a. parts_of a.items.items };

    ghost invariant = { λ a. AreOrdered (parts_of a.items.items) a.order.items };

    ghost size = { all_nodes };

    ghost use Rattle.dx_objects.specs.PartsFall.{most-le-all_nodes};

    ghost size_decreases = { λ a h. most-le-all_nodes a.items.items };
}

#[cycle(object)]
#[derive(Drop)]
pub(crate) enum Body {
    Array(Array),
    Text(Bytes),
    Field(NamedParts),
    Group(NamedParts),
    Composite(NamedParts),
    Series(NamedParts),
}

/// An object with its attributes. It keeps its stated size, how many objects it is, each counted every time it occurs,
/// and its levels.
#[cycle(object)]
#[derive(Drop)]
pub struct Object {
    pub(crate) body: Body,
    pub(crate) attributes: NamedParts,
    pub(crate) size: u64,
    pub(crate) count: u64,
    pub(crate) levels: u64,
}

impl Model for Object {
    ghost use Rattle.dx_base.specs.Object.{Tree};
    ghost use Rattle.dx_base.specs.ObjectCode.{coded_tree};

    ghost Value = { Tree };

    ghost coded = { coded_tree };

    ghost use Rattle.dx_objects.specs.View.{tree_of, IsKept};
    ghost use Rattle.dx_objects.specs.Nodes.{nodes};

    ghost view = { λ a. tree_of a.body a.attributes };

    ghost invariant = { λ a. IsKept (tree_of a.body a.attributes) a.size a.count a.levels };

    ghost size = { nodes };

    ghost use Rattle.dx_objects.specs.Falls.{deep-le-nodes};

    ghost size_decreases = { λ a h. deep-le-nodes a.body a.attributes };
}

impl NamedParts {
    pub(crate) fn as_slice(&self) -> &[Part]
        ensures parts { parts_of result.now ≡ self.now }
        ensures differ { IsTrue (differ self.now) }
    {
        self.items.as_slice()
    }
}
