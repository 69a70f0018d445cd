//! The dictionary with what is known of its definitions.
ghost use Rattle.std.specs.Prelude.{◌≡◌, ◌<◌, IfOk, OnOk, OnErr, IsOk, None, true};
ghost use Rattle.dx_ast.specs.Lawful.{IsLawful, IsLawfulMacro, IsLawfulAssign};
ghost use Rattle.dx_ast.specs.Plain.{plain_macro, plain_expr, plain_stmt};
ghost use Rattle.dx_definitions.specs.Index.{text_of};
ghost use Rattle.dx_graph.specs.GraphView.{graph_of};
ghost use Rattle.dx_graph.specs.Unfolding.{unfolded};
ghost use Rattle.dx_macros.specs.Checking.{Checks};
ghost use Rattle.dx_macros.specs.Dictionary.{empty, defining, with_definition};
ghost use Rattle.dx_macros.specs.DictionaryView.{dictionary_of, room_of};
ghost use Rattle.dx_macros.specs.Expansion.{effects};
ghost use Rattle.dx_macros.specs.Walk.{first_fault};

use crate::known::{Known, NOTHING, more_known};
use crate::own::definition_calls;
use dx_ast::{Assign, Frames, MacroDef, Stmt};
use dx_expansion::{check_and_expand, expand_silent};
use dx_flat::expand_flat;
use dx_graph::Graph;
use dx_macros::{CheckFail, Dictionary};
use std::alloc::{AllocError, Global};
use std::marker::Model;

/// How many looks at definitions, calls and statements there may be for each definition that there is, and for each call that a
/// walk may have.
const MOST_LOOKS: u64 = 16;

/// How many calls a walk may have.
const MOST_CALLS: u64 = 65_536;

/// A dictionary, which contracts see as that. It keeps beside it of how many definitions it knows that their own calls have no
/// fault under the macros that there are. An assignment whose own calls have none, over definitions all of which are known, has no
/// fault itself, as long as all these calls together are no more than a walk may have: so a script of many definitions that each
/// use the one before isn't walked from the start at each of them. Definitions are looked at before an assignment that is executed,
/// as long as looks are left: so many for each definition, since each macro that is defined makes all of them unknown.
#[derive(Drop)]
pub struct CheckedDictionary {
    alloc: Global,
    dictionary: Dictionary,
    known: Known,
    looked: u64,
}

impl Model for CheckedDictionary {
    ghost use Rattle.dx_macros.specs.DictionaryView.{dictionary_of};
    ghost use Rattle.dx_macros.specs.contracts.dictionary.Dictionary as row;
    ghost use Rattle.dx_macros.specs.declared.dictionary.Dictionary.{Dictionary as Plain};
    ghost use Rattle.dx_checked.specs.Known.{IsKnown};

    ghost Value = { Plain };

    ghost coded = { row.the_row.coded };

    ghost view = { λ c. c.dictionary };

    ghost invariant = { λ c. IsKnown (dictionary_of c.dictionary) c.known };
}

impl CheckedDictionary {
    /// The dictionary without macros and definitions, which takes no memory.
    pub fn new(alloc: Global) -> CheckedDictionary
        ensures { dictionary_of result ≡ empty }
    {
        CheckedDictionary {
            alloc,
            dictionary: Dictionary::new(alloc),
            known: NOTHING,
            looked: 0,
        }
    }

    /// The macro joins and replaces an earlier one of its name. Where memory runs out the dictionary stays as it was.
    pub fn define(&mut self, m: MacroDef) -> Result<(), AllocError>
        requires { IsLawfulMacro (plain_macro m) }
        ensures ok { OnOk result (dictionary_of self.new ≡ defining (plain_macro m) (dictionary_of self.old)) }
        ensures err { OnErr result (dictionary_of self.new ≡ dictionary_of self.old) }
        ensures room { room_of self.new ≡ room_of self.old }
    {
        self.known = NOTHING;
        self.dictionary.define(m)
    }

    /// Makes room for one more definition, and looks at those that aren't known. It changes nothing else.
    pub fn reserve(&mut self) -> Result<(), AllocError>
        ensures same { dictionary_of self.new ≡ dictionary_of self.old }
        ensures room { OnOk result (0 < room_of self.new) }
    {
        self.dictionary.reserve()?;
        self.know_more();
        Ok(())
    }

    // Looks at the definitions that aren't known yet, as far as looks are left.
    fn know_more(&mut self)
        ensures same { dictionary_of self.new ≡ dictionary_of self.old }
        ensures room { room_of self.new ≡ room_of self.old }
    {
        let most = (self.dictionary.len() as u64)
            .saturating_add(MOST_CALLS)
            .saturating_mul(MOST_LOOKS);
        let mut left = most.saturating_sub(self.looked);
        self.known = more_known(self.alloc, &self.dictionary, self.known, &mut left);
        self.looked = most.saturating_sub(left);
    }

    /// The definition joins behind the others. Where memory runs out the dictionary stays as it was; where there is room it
    /// doesn't.
    pub fn add(&mut self, s: Assign) -> Result<(), AllocError>
        requires { IsLawfulAssign s.targets (plain_expr s.value) }
        ensures ok { OnOk result (dictionary_of self.new ≡ with_definition (text_of s) (dictionary_of self.old)) }
        ensures err { OnErr result (dictionary_of self.new ≡ dictionary_of self.old) }
        ensures room { 0 < room_of self.old → IsOk result }
    {
        self.dictionary.add(s)
    }

    // Whether this is an assignment over definitions that are known, and none of its own calls has a fault.
    fn has_no_fault(&self, s: &Stmt) -> bool
        ensures { result ≡ true → first_fault (dictionary_of self.now) (plain_stmt s.now) ≡ None }
    {
        let Stmt::Assign(a) = s else {
            return false;
        };
        if self.known.definitions != self.dictionary.len() {
            return false;
        }
        // (a walk looks at as much)
        let mut looks = u64::MAX;
        definition_calls(
            self.alloc,
            &self.dictionary,
            a,
            self.known.calls,
            &mut looks,
        )
        .is_some()
    }

    /// The first static fault of a statement; where there is none its expansion: the graph whose effects are those of the
    /// statement, in order, which is empty where the statement isn't executed.
    pub fn expansion(&self, alloc: Global, s: &Stmt, f: &Frames) -> Result<Graph, CheckFail>
        requires lawful { IsLawful (plain_stmt s.now) }
        ensures fault { Checks (first_fault (dictionary_of self.now) (plain_stmt s.now)) result }
        ensures means { IfOk result (λ g. unfolded (graph_of g) ≡ effects (dictionary_of self.now) f.now (plain_stmt s.now)) }
    {
        if let Some(graph) = expand_flat(alloc, &self.dictionary, s, f) {
            return Ok(graph);
        }
        if self.has_no_fault(s) {
            if let Some(graph) = expand_silent(alloc, &self.dictionary, s, f) {
                return Ok(graph);
            }
        }
        check_and_expand(alloc, &self.dictionary, s, f)
    }
}
