//! The ways to the texts of a graph, from which sites and paths are made.
ghost use Rattle.std.specs.Prelude.{◌≡◌, ◌++◌, ◌∷◌, [], length, reverse, IfOk, OnOk, OnErr};
ghost use Rattle.dx_macros.specs.Steps.{plain_steps};
ghost use Rattle.dx_graph.specs.Trails.{spots_of, spot_under, parent, IsTrail};
ghost use Rattle.dx_graph.specs.Walked.{target_step};

use crate::trail::Trail;
use dx_macros::SiteStep;
use std::alloc::{AllocError, Global};
use std::marker::Model;

/// The trails of the texts of a graph, which contracts see as a list. A macro is called in an earlier text.
#[derive(Drop)]
pub struct Trails {
    list: Vec<Trail>,
}

impl Model for Trails {
    ghost use Rattle.std.specs.Prelude.{List};
    ghost use Rattle.std.specs.Coded.{coded_list};
    ghost use Rattle.dx_graph.specs.declared.trail.Trail.{Trail};
    ghost use Rattle.dx_graph.specs.contracts.trail.Trail as trail;

    ghost Value = { List Trail };

    ghost coded = { coded_list trail.the_row.coded };

    ghost use Rattle.dx_graph.specs.Trails.{AreOrdered};

    ghost view = { λ t. t.list.items };

    ghost invariant = { λ t. AreOrdered t.list.items };
}

/// The way back from a text.
#[derive(Drop)]
struct Way<'a> {
    /// The calls of macros that lead to the text, the last one first.
    steps: Vec<SiteStep<'a>>,
    /// The first target of the assignment at the top level where the way begins, if it begins at one.
    target: Option<&'a [u8]>,
}

impl Trails {
    /// No trails, which take no memory.
    pub fn new(alloc: Global) -> Trails
        ensures { result ≡ [] }
    {
        Trails {
            list: Vec::new(alloc),
        }
    }

    /// One more trail at the end, and its number. Where memory runs out the trails stay as they were.
    pub fn push(&mut self, trail: Trail) -> Result<usize, AllocError>
        requires { IsTrail (length self.old) (parent trail) }
        ensures number { IfOk result (λ t. t ≡ length self.old) }
        ensures ok { OnOk result (self.new ≡ self.old ++ trail ∷ []) }
        ensures err { OnErr result (self.new ≡ self.old) }
    {
        let number = self.list.len();
        self.list.push(trail)?;
        Ok(number)
    }

    /// The way back from the text of a trail.
    fn way<'a>(&'a self, alloc: Global, trail: Option<usize>) -> Result<Way<'a>, AllocError>
        requires { IsTrail (length self.now) trail }
        ensures base { IfOk result (λ way. target_step way.target ++ reverse (plain_steps way.steps.items) ≡ (spot_under (spots_of self.now) trail).base) }
        ensures path { IfOk result (λ way. reverse (plain_steps way.steps.items) ≡ (spot_under (spots_of self.now) trail).path) }
    {
        let mut steps = Vec::new(alloc);
        let mut at = trail;
        while let Some(t) = at {
            match &self.list[t] {
                Trail::Target(name) => {
                    return Ok(Way {
                        steps,
                        target: Some(name.bytes()),
                    });
                }
                Trail::Macro(parent, name, k) => {
                    steps.push(SiteStep::Nth(name.bytes(), *k))?;
                    at = *parent;
                }
            }
        }
        Ok(Way {
            steps,
            target: None,
        })
    }

    /// The steps that lead to the text of a trail, in order.
    pub fn base<'a>(
        &'a self,
        alloc: Global,
        trail: Option<usize>,
    ) -> Result<Vec<SiteStep<'a>>, AllocError>
        requires { IsTrail (length self.now) trail }
        ensures { IfOk result (λ steps. plain_steps steps.items ≡ (spot_under (spots_of self.now) trail).base) }
    {
        let way = self.way(alloc, trail)?;
        let mut steps = way.steps;
        match way.target {
            None => {
                steps.reverse();
                Ok(steps)
            }
            Some(target) => {
                steps.push(SiteStep::Target(target))?;
                steps.reverse();
                Ok(steps)
            }
        }
    }

    /// Those of the steps that are calls of macros.
    pub fn path<'a>(
        &'a self,
        alloc: Global,
        trail: Option<usize>,
    ) -> Result<Vec<SiteStep<'a>>, AllocError>
        requires { IsTrail (length self.now) trail }
        ensures { IfOk result (λ steps. plain_steps steps.items ≡ (spot_under (spots_of self.now) trail).path) }
    {
        let way = self.way(alloc, trail)?;
        let mut steps = way.steps;
        steps.reverse();
        Ok(steps)
    }
}
