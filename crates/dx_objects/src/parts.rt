//! Lists of parts, of which objects are made.
ghost use Rattle.std.specs.Prelude.{◌≡◌, ◌==◌, length, OnOk, OnErr, IfOk};
ghost use Rattle.std.specs.List.{range_with_len};
ghost use Rattle.dx_base.specs.Object as spec;
ghost use Rattle.dx_base.specs.Object.{append, no_parts, part as one_part};
ghost use Rattle.dx_base.specs.ObjectLimits.{unplaced};
ghost use Rattle.dx_objects.specs.Shown.{parts_of};

use crate::object::Part;
use std::alloc::{AllocError, Global};
use std::marker::Model;

/// A list of parts in their order. It keeps the room in which its names are ordered when an object is made of it.
pub struct Parts {
    pub(crate) items: Vec<Part>,
    // The places of the parts, ascending.
    pub(crate) order: Vec<usize>,
}

// A function of its own, so that whoever drops a list doesn't prove again how its two vectors are dropped.
impl Drop for Parts {
    fn drop(self) {
        let Parts { items: _, order: _ } = self;
    }
}

impl Model for Parts {
    ghost use Rattle.std.specs.Prelude.{◌≡◌, length};
    ghost use Rattle.std.specs.List.{range_with_len};
    ghost use Rattle.dx_base.specs.Object.{PartList};
    ghost use Rattle.dx_base.specs.ObjectCode.{coded_parts};
    ghost use Rattle.dx_objects.specs.Shown.{parts_of};

    ghost Value = { PartList };

    ghost coded = { coded_parts };

    ghost view = { λ a. parts_of a.items.items };

    ghost invariant = { λ a. a.order.items ≡ range_with_len 0 (length a.items.items) };
}

impl Parts {
    /// No parts, which takes no memory.
    pub fn new(alloc: Global) -> Parts
        ensures { result ≡ no_parts }
    {
        Parts {
            items: Vec::new(alloc),
            order: Vec::new(alloc),
        }
    }

    /// These parts, which are moved in.
    pub fn from_vec(alloc: Global, items: Vec<Part>) -> Result<Parts, AllocError>
        ensures { IfOk result (λ parts. parts ≡ parts_of items.items) }
    {
        let order = places(alloc, items.len())?;
        Ok(Parts { items, order })
    }

    /// The parts, moved out.
    pub fn into_vec(self) -> Vec<Part>
        ensures { parts_of result.items ≡ self }
    {
        let Parts { items, order: _ } = self;
        items
    }

    /// The parts and their places, moved out.
    pub(crate) fn into_lists(self) -> (Vec<Part>, Vec<usize>)
        ensures parts { parts_of result.0.items ≡ self }
        ensures places { result.1.items ≡ range_with_len 0 (length result.0.items) }
    {
        let Parts { items, order } = self;
        (items, order)
    }

    pub fn as_slice(&self) -> &[Part]
        ensures { parts_of result.now ≡ self.now }
    {
        self.items.as_slice()
    }

    pub fn len(&self) -> usize
        ensures { result ≡ spec.part_count self.now }
    {
        self.items.len()
    }

    pub fn is_empty(&self) -> bool
        ensures { result ≡ (spec.part_count self.now == 0) }
    {
        self.items.is_empty()
    }

    /// Puts a part at the end. Where memory runs out the list stays as it was.
    #[tactic(auto, using(crate::proofs::PartsLaws::pushing))]
    pub fn push(&mut self, part: Part) -> Result<(), AllocError>
        ensures ok { OnOk result (self.new ≡ append self.old (one_part part.name part.position part.object.value no_parts)) }
        ensures err { OnErr result (self.new ≡ self.old) }
    {
        self.order.push(self.items.len())?;
        let Ok(_) = self.items.push(part) else {
            self.order.pop();
            return Err(AllocError);
        };
        Ok(())
    }

    /// The same parts with no position, for which 0 stands.
    pub(crate) fn unplaced(self) -> Parts
        ensures parts { result ≡ unplaced self }
        ensures done { unplaced result ≡ result }
    {
        let Parts { mut items, order } = self;
        clear_positions(&mut items);
        Parts { items, order }
    }
}

// The places of so many parts.
#[tactic(auto, using(crate::proofs::PartsLaws::range_more))]
fn places(alloc: Global, len: usize) -> Result<Vec<usize>, AllocError>
    ensures { IfOk result (λ places. places.items ≡ range_with_len 0 len) }
{
    let mut places = Vec::with_capacity(alloc, len)?;
    for place in 0..len {
        places.push(place)?;
    }
    Ok(places)
}

fn clear_positions(parts: &mut [Part])
    ensures parts { parts_of parts.new ≡ unplaced (parts_of parts.old) }
    ensures len { length parts.new ≡ length parts.old }
{
    for part in parts.iter_mut() {
        part.position = 0;
    }
}
