//! What one execution resolved, and the way to what it goes on with.
ghost use Rattle.std.specs.Prelude.{◌≡◌, ◌<◌, ◌⊎◌, ◌++◌, ◌∷◌, [], Some, length, slice_set, IfOk, OnOk, MatchOption};
ghost use Rattle.dx_graph.specs.GraphView.{graph_of};
ghost use Rattle.dx_demand.specs.Memo.{answers_of, selector_of, formed_of, with_answer, with_formed, EmptyMemo};
ghost use Rattle.dx_demand.specs.Stack.{fresh, Opens};
ghost use Rattle.dx_demand.specs.Forming.{with_entry};

use crate::settled::{Answer, Port};
use dx_tags::{Tag, ValueTag, ValueTags};
use indexmap::IndexMap;
use std::alloc::{AllocError, Global};

/// A port under way; of a call of a module the tags of the first arguments.
#[derive(Drop)]
pub(crate) struct Frame {
    pub port: Port,
    pub arguments: ValueTags,
}

/// What is settled: ports, by node the term of the value of its selector, and by the tag of a call term the first node
/// that formed it.
#[derive(Drop)]
pub(crate) struct Memo {
    pub answers: IndexMap<Port, Answer>,
    pub selectors: Vec<Option<ValueTag>>,
    pub formed: IndexMap<Tag, u32>,
}

/// What one execution resolved of a graph. The frames are the way from the port that was asked for to the one whose
/// selector is needed.
#[derive(Drop)]
pub struct Seen {
    pub(crate) memo: Memo,
    pub(crate) stack: Vec<Frame>,
}

impl Memo {
    /// What a port comes to; None where that isn't settled.
    pub(crate) fn answer(&self, p: Port) -> Option<Answer>
        ensures { result ≡ answers_of self.now p }
    {
        self.answers.get(&p).copied()
    }

    pub(crate) fn settle(&mut self, p: Port, a: Answer) -> Result<(), AllocError>
        ensures ok { OnOk result (answers_of self.new ≡ with_answer (answers_of self.old) p a) }
        ensures selectors { self.new.selectors ≡ self.old.selectors }
        ensures formed { self.new.formed ≡ self.old.formed }
    {
        self.answers.insert(p, a)?;
        Ok(())
    }

    /// The term of the value of the selector of node number n.
    pub(crate) fn selector(&self, n: u32) -> Option<ValueTag>
        requires { n < length self.now.selectors.items }
        ensures { result ≡ selector_of self.now n }
    {
        self.selectors[n as usize]
    }

    pub(crate) fn select(&mut self, n: u32, t: ValueTag)
        requires { n < length self.old.selectors.items }
        ensures selectors { self.new.selectors.items ≡ slice_set self.old.selectors.items n (Some t) }
        ensures answers { self.new.answers ≡ self.old.answers }
        ensures formed { self.new.formed ≡ self.old.formed }
    {
        self.selectors[n as usize] = Some(t);
    }

    /// Node number n forms the call term of a tag, if it is the first.
    pub(crate) fn form(&mut self, t: Tag, n: u32) -> Result<(), AllocError>
        ensures ok { OnOk result (formed_of self.new ≡ with_formed (formed_of self.old) t n) }
        ensures entries { OnOk result (self.new.formed.entries ≡ with_entry self.old.formed.entries t n) }
        ensures answers { self.new.answers ≡ self.old.answers }
        ensures selectors { self.new.selectors ≡ self.old.selectors }
    {
        if !self.formed.contains_key(&t) {
            self.formed.insert(t, n)?;
        }
        Ok(())
    }
}

impl Seen {
    /// The first call of this execution that formed the term of a tag; None exactly where none did.
    pub fn node_of(&self, t: Tag) -> Option<u32>
        ensures { result ≡ formed_of self.now.memo t }
    {
        self.memo.formed.get(&t).copied()
    }
}

/// The top of the frames that lead from a port, which go on where they were left.
pub(crate) fn top_of(alloc: Global, stack: &mut Vec<Frame>, root: Port) -> Frame
    ensures { Opens root stack.old.items stack.new.items result }
{
    let resumes = match stack.first() {
        Some(bottom) => bottom.port == root,
        None => false,
    };
    if resumes {
        if let Some(top) = stack.pop() {
            return top;
        }
    }
    stack.clear();
    Frame {
        port: root,
        arguments: ValueTags::new(alloc),
    }
}

/// Takes the top off.
pub(crate) fn pop_frame(stack: &mut Vec<Frame>) -> Option<Frame>
    ensures { MatchOption result ((stack.new.items ≡ []) × (stack.old.items ≡ [])) (λ f. stack.old.items ≡ stack.new.items ++ f ∷ []) }
{
    stack.pop()
}

/// Puts a frame on top.
pub(crate) fn push_frame(stack: &mut Vec<Frame>, f: Frame) -> Result<(), AllocError>
    ensures { OnOk result (stack.new.items ≡ stack.old.items ++ f ∷ []) }
{
    stack.push(f)?;
    Ok(())
}
