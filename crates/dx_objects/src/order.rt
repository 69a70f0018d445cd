//! Parts in the order of their names, and the look-up in it.
ghost use Rattle.std.specs.Prelude.{◌≡◌, ◌<◌, length, None, Some, true, false, IfSome, MatchOption, MatchResult};
ghost use Rattle.std.specs.List.{range_with_len};
ghost use Rattle.dx_base.specs.ObjectNames as spec_names;
ghost use Rattle.dx_base.specs.ObjectLimits.{differ};
ghost use Rattle.dx_object_laws.specs.Order.{name_at as spec_name_at, rank_cmp, share_name, IsOrder, AreOrdered};
ghost use Rattle.dx_objects.specs.Shown.{parts_of};
ghost use Rattle.dx_objects.specs.declared.makers.ObjectError.TheVariants.{BadNames};

use crate::makers::ObjectError;
use crate::object::{NamedParts, Object, Part};
use crate::parts::Parts;
use std::cmp::Ordering;
use std::rc::Rc;

fn name_at(parts: &[Part], place: usize) -> Option<&[u8]>
    ensures { MatchOption result (spec_name_at (parts_of parts.now) place ≡ None) (λ name. spec_name_at (parts_of parts.now) place ≡ Some name.now) }
{
    match parts.get(place) {
        None => None,
        Some(part) => match &part.name {
            None => None,
            Some(name) => Some(name.bytes()),
        },
    }
}

fn compare_with(parts: &[Part], place: usize, name: &[u8]) -> Ordering
    ensures { result ≡ rank_cmp (spec_name_at (parts_of parts.now) place) (Some name.now) }
{
    match name_at(parts, place) {
        None => Ordering::Less,
        Some(own) => own.cmp(name),
    }
}

fn compare(parts: &[Part], a: usize, b: usize) -> Ordering
    ensures { result ≡ rank_cmp (spec_name_at (parts_of parts.now) a) (spec_name_at (parts_of parts.now) b) }
{
    match name_at(parts, b) {
        Some(name) => compare_with(parts, a, name),
        None => match name_at(parts, a) {
            Some(_) => Ordering::Greater,
            None => Ordering::Equal,
        },
    }
}

fn have_one_name(parts: &[Part], a: usize, b: usize) -> bool
    ensures { result ≡ share_name (spec_name_at (parts_of parts.now) a) (spec_name_at (parts_of parts.now) b) }
{
    match (name_at(parts, a), name_at(parts, b)) {
        (Some(m), Some(n)) => m == n,
        _ => false,
    }
}

// The places of all parts, in the order of the names.
fn in_order(parts: &[Part], places: Vec<usize>) -> Vec<usize>
    requires { places.items ≡ range_with_len 0 (length parts.now) }
    ensures { IsOrder (parts_of parts.now) result.items }
{
    let mut order = places;
    order.sort_unstable_by(
        |a: &usize, b: &usize| -> Ordering
            ensures { result ≡ rank_cmp (spec_name_at (parts_of parts.entry.now) a.now) (spec_name_at (parts_of parts.entry.now) b.now) }
        { compare(parts, *a, *b) },
    );
    order
}

// Whether the names that stand differ: equal ones are neighbours in the order.
#[tactic(auto, using(dx_object_laws::proofs::OrderLaws::not_differ_in_order, dx_object_laws::proofs::OrderLaws::all_differ_in_order))]
fn do_differ(parts: &[Part], order: &[usize]) -> bool
    requires { IsOrder (parts_of parts.now) order.now }
    ensures { result ≡ differ (parts_of parts.now) }
{
    for i in 1..order.len() {
        if have_one_name(parts, order[i - 1], order[i]) {
            return false;
        }
    }
    true
}

impl Parts {
    /// The parts with the order of their names, or that a name stands twice.
    pub(crate) fn named(self) -> Result<NamedParts, ObjectError>
        ensures { MatchResult result (λ parts. (parts ≡ self) × (differ self ≡ true)) (λ error. (error ≡ BadNames) × (differ self ≡ false)) }
    {
        let (items, places) = self.into_lists();
        let order = in_order(&items, places);
        if !do_differ(&items, &order) {
            return Err(ObjectError::BadNames);
        }
        Ok(NamedParts { items, order })
    }
}

impl NamedParts {
    /// The object of the part of this name. Each look-up by name goes through here.
    pub(crate) fn find(&self, name: &[u8]) -> Option<&Rc<Object>>
        ensures { MatchOption result (spec_names.find name.now self.now ≡ None) (λ o. spec_names.find name.now self.now ≡ Some o.now.value) }
    {
        find_object(&self.items, &self.order, name)
    }
}

#[tactic(auto, using(crate::proofs::OrderLaws::finds_at))]
fn find_object<'a>(parts: &'a [Part], order: &[usize], name: &[u8]) -> Option<&'a Rc<Object>>
    requires { AreOrdered (parts_of parts.now) order.now }
    ensures { MatchOption result (spec_names.find name.now (parts_of parts.now) ≡ None) (λ o. spec_names.find name.now (parts_of parts.now) ≡ Some o.now.value) }
{
    let i = find_place(parts, order, name)?;
    Some(&parts[i].object)
}

// The place of the part of this name.
fn find_place(parts: &[Part], order: &[usize], name: &[u8]) -> Option<usize>
    requires { IsOrder (parts_of parts.now) order.now }
    ensures none { result ≡ None → spec_names.find name.now (parts_of parts.now) ≡ None }
    ensures some { IfSome result (λ i. spec_name_at (parts_of parts.now) i ≡ Some name.now) }
    ensures below { IfSome result (λ i. i < length parts.now) }
{
    let found = order.binary_search_by(
        |place: &usize| -> Ordering
            ensures { result ≡ rank_cmp (spec_name_at (parts_of parts.entry.now) place.now) (Some name.entry.now) }
        { compare_with(parts, *place, name) },
    );
    match found {
        Ok(i) => Some(order[i]),
        Err(_) => None,
    }
}
