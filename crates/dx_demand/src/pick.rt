//! What the value of a selector picks, as the code has it.
ghost use Rattle.std.specs.Prelude.{◌≡◌, ◌<◌, ℕ, List, Option, Some, None, length, IfOk};
ghost use Rattle.dx_graph.specs.Graph.{node_at};
ghost use Rattle.dx_graph.specs.GraphView.{graph_of};
ghost use Rattle.dx_tags.specs.declared.term.ValueTag.{ValueTag};
ghost use Rattle.dx_tags.specs.declared.term.Term.{Term};
ghost use Rattle.dx_tags.specs.Closed.{ValueTerm};
ghost use Rattle.dx_demand.specs.Given.{value_behind};
ghost use Rattle.dx_meaning.specs.Picking as plain;
ghost use Rattle.dx_demand.specs.Picked.{shelf_with, shown_pick, to_key, LinksFit, PickFits};
ghost use Rattle.dx_links.specs.LinkMap.{LinkMap};
ghost use Rattle.dx_demand.specs.Found.{PickFound};
ghost use Rattle.dx_meaning.specs.Scan.{null_term};
ghost use Rattle.dx_meaning.specs.Forming.{null_forms};
ghost use Rattle.dx_demand.specs.Forming.{pick_forms, forms_with};

use dx_base::{Bytes, Function};
use dx_graph::Graph;
use dx_links::{Key, Links};
use dx_objects::Object;
use dx_tags::ValueTag;
use std::alloc::{AllocError, Global};

/// What the value of a selector picks.
#[derive(Drop)]
pub(crate) enum Pick {
    Null,
    Text(Bytes),
    /// What a link holds.
    Held(ValueTag),
    Input(usize),
    Off,
    Fault,
}

fn switch_pick(v: Option<&Object>) -> Pick
    ensures right { (term : ValueTag → ValueTerm) → shown_pick term result ≡ plain.switch_pick null_term (value_behind v.entry) }
    ensures fits { (terms : List Term) → PickFits terms result }
    ensures linked { (l : LinkMap) → PickFound l result }
    ensures forms { pick_forms result ≡ plain.switch_pick null_forms (value_behind v.entry) }
{
    match v {
        None => Pick::Null,
        Some(o) => match o.as_number() {
            None => Pick::Fault,
            Some(n) => {
                if n > 0 {
                    Pick::Input(n as usize)
                } else {
                    Pick::Null
                }
            }
        },
    }
}

fn route_pick(result_number: u32, v: Option<&Object>) -> Pick
    ensures right { (term : ValueTag → ValueTerm) → shown_pick term result ≡ plain.route_pick result_number (value_behind v.entry) }
    ensures fits { (terms : List Term) → PickFits terms result }
    ensures linked { (l : LinkMap) → PickFound l result }
    ensures forms { pick_forms result ≡ plain.route_pick result_number (value_behind v.entry) }
{
    match v {
        None => Pick::Off,
        Some(o) => match o.as_number() {
            None => Pick::Fault,
            Some(n) => {
                if n == result_number as i64 + 1 {
                    Pick::Input(1)
                } else {
                    Pick::Off
                }
            }
        },
    }
}

/// The name of the link that a Get looks at; None where the value is neither a text nor NULL.
fn link_name(
    alloc: Global,
    g: &Graph,
    n: u32,
    v: Option<&Object>,
) -> Result<Option<Bytes>, AllocError>
    requires { n < length (graph_of g.now).nodes }
    ensures { IfOk result (λ name. name ≡ plain.link_name (node_at (graph_of g.now).nodes n).place (value_behind v.entry)) }
{
    match v {
        None => {
            let site = g.site(alloc, n)?;
            let mut name = Vec::new(alloc);
            name.push(b'#')?;
            name.extend_from_slice(site.bytes())?;
            Ok(Some(Bytes::from_vec(name)))
        }
        Some(o) => match o.as_text() {
            None => Ok(None),
            Some(text) => Ok(Some(Bytes::copy_of(alloc, text)?)),
        },
    }
}

/// What a link holds, or else `initial`.
fn held_or(links: &Links, k: &Key) -> Pick
    ensures right { (term : ValueTag → ValueTerm) → shown_pick term result ≡ plain.held_or ((shelf_with term links.now.links).held k.now) }
    ensures fits { (terms : List Term) → LinksFit terms links.now.links → PickFits terms result }
    ensures linked { PickFound links.now.links result }
    ensures forms { pick_forms result ≡ plain.held_or ((forms_with links.now.links).held k.now) }
{
    match links.get(k) {
        Some(held) => Pick::Held(held.tag),
        None => Pick::Input(0),
    }
}

fn get_pick(
    alloc: Global,
    g: &Graph,
    n: u32,
    is_local: bool,
    result_number: u32,
    v: Option<&Object>,
    links: &Links,
) -> Result<Pick, AllocError>
    requires { n < length (graph_of g.now).nodes }
    ensures right { (term : ValueTag → ValueTerm) → IfOk result (λ p. shown_pick term p ≡ plain.get_pick (shelf_with term links.now.links) (to_key is_local (node_at (graph_of g.now).nodes n).place) result_number (plain.link_name (node_at (graph_of g.now).nodes n).place (value_behind v.entry))) }
    ensures fits { (terms : List Term) → LinksFit terms links.now.links → IfOk result (λ p. PickFits terms p) }
    ensures linked { IfOk result (λ p. PickFound links.now.links p) }
    ensures forms { IfOk result (λ p. pick_forms p ≡ plain.get_pick (forms_with links.now.links) (to_key is_local (node_at (graph_of g.now).nodes n).place) result_number (plain.link_name (node_at (graph_of g.now).nodes n).place (value_behind v.entry))) }
{
    match link_name(alloc, g, n, v)? {
        None => Ok(Pick::Fault),
        Some(name) => {
            if result_number > 0 {
                Ok(Pick::Text(name))
            } else if is_local {
                Ok(held_or(links, &Key::Local(g.path(alloc, n)?, name)))
            } else {
                Ok(held_or(links, &Key::Global(name)))
            }
        }
    }
}

/// What the value of its selector picks for a result of node number n.
pub(crate) fn pick_of(
    alloc: Global,
    g: &Graph,
    n: u32,
    result_number: u32,
    v: Option<&Object>,
    links: &Links,
) -> Result<Pick, AllocError>
    requires { n < length (graph_of g.now).nodes }
    ensures right { (term : ValueTag → ValueTerm) → IfOk result (λ p. shown_pick term p ≡ plain.pick (shelf_with term links.now.links) (node_at (graph_of g.now).nodes n).what (node_at (graph_of g.now).nodes n).place result_number (value_behind v.entry)) }
    ensures fits { (terms : List Term) → LinksFit terms links.now.links → IfOk result (λ p. PickFits terms p) }
    ensures linked { IfOk result (λ p. PickFound links.now.links p) }
    ensures forms { IfOk result (λ p. pick_forms p ≡ plain.pick (forms_with links.now.links) (node_at (graph_of g.now).nodes n).what (node_at (graph_of g.now).nodes n).place result_number (value_behind v.entry)) }
{
    match g.node(n).what {
        Function::Switch => Ok(switch_pick(v)),
        Function::Route => Ok(route_pick(result_number, v)),
        Function::GetLocal => get_pick(alloc, g, n, true, result_number, v, links),
        Function::GetGlobal => get_pick(alloc, g, n, false, result_number, v, links),
        Function::Module(_) | Function::Effect(_) => Ok(Pick::Fault),
    }
}
