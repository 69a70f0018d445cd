//! A text that is expanded, and what its names mean.
ghost use Rattle.std.specs.Prelude.{◌≡◌, List};
ghost use Rattle.dx_base.specs.NameTable.{under_name};
ghost use Rattle.dx_graph.specs.Graph.{Node};
ghost use Rattle.dx_graph.specs.Operands.{Means, OwnFits};
ghost use Rattle.dx_texts.specs.Expanding.{Remembers, top_scope, scope_of, last_target};
ghost use Rattle.dx_texts.specs.Marks.{IsWalked, NameWalked, top_reader};

use crate::own::Own;
use dx_ast::Frames;
use dx_base::{Bytes, Sparse};
use dx_graph::{Operand, Results};
use dx_macros::Dictionary;
use std::alloc::Global;

/// What an expansion stands on, and what it came to so far.
pub struct World<'a> {
    pub alloc: Global,
    pub dictionary: &'a Dictionary,
    pub frames: Frames,
    /// The results of each definition that was expanded, by its position.
    pub memo: Sparse<Results<'a>>,
}

/// A text that is expanded: a macro's body, or a text of the top level.
pub struct Text<'a> {
    /// The trail of the graph that leads to it.
    pub trail: Option<usize>,
    /// How many macro steps are left.
    pub left: u8,
    /// The position of its top-level text.
    pub position: usize,
    /// What its parameters and targets mean.
    pub own: Own<'a>,
}

// Functions of their own, so that whoever drops a world or a text doesn't prove again how each of its parts is dropped.
impl Drop for World<'_> {
    fn drop(self) {
        let World {
            alloc: _,
            dictionary: _,
            frames: _,
            memo: _,
        } = self;
    }
}

impl Drop for Text<'_> {
    fn drop(self) {
        let Text {
            trail: _,
            left: _,
            position: _,
            own: _,
        } = self;
    }
}

/// The position of the last target with this name; 0 where no target has it.
fn last_target(targets: &[Bytes], name: &[u8]) -> usize
    ensures { result ≡ last_target targets.now 0 0 name.now }
{
    let mut found = 0;
    for (i, t) in targets.iter().enumerate() {
        if t.bytes() == name {
            found = i;
        }
    }
    found
}

/// What a name means at a position of the top level.
pub fn top_meaning<'a>(w: &World<'a>, position: usize, name: &[u8]) -> Operand<'a>
    requires walked { IsWalked w.now.memo position (top_reader w.now position name.now) }
    ensures { (nodes : List Node) → Remembers nodes w.now → Means nodes result (top_scope w.now position name.now) }
{
    match w.dictionary.last_before(position, name) {
        None => Operand::Null,
        Some(i) => match w.memo.get(i) {
            None => unreachable!(),
            Some(r) => {
                let targets = w.dictionary.definition(i).targets.as_slice();
                r.at(last_target(targets, name))
            }
        },
    }
}

/// What a name means in a text that was walked.
pub fn meaning<'a>(w: &World<'a>, t: &Text<'a>, name: &[u8]) -> Operand<'a>
    requires walked { NameWalked w.now t.now name.now }
    ensures { (nodes : List Node) → Remembers nodes w.now → OwnFits nodes (under_name t.now.own) → Means nodes result (scope_of w.now t.now nodes name.now) }
{
    match t.own.get(name) {
        Some(o) => *o,
        None => top_meaning(w, t.position, name),
    }
}
