//! A line as far as it was read.
ghost use Rattle.std.specs.Prelude.{◌≡◌, ◌∷◌, [], None, Some, Option, List, ℕ, IfOk, OnOk, OnErr, IsErrOf, length};
ghost use Rattle.dx_words.specs.declared.line.Line.{Line as Lines};
ghost use Rattle.dx_words.specs.declared.line.Reading.{Reading};
ghost use Rattle.dx_words.specs.Command.{with_named};
ghost use Rattle.dx_words.specs.Line.{is_session as names_session, joined, line_from, nothing, text, with_budget, with_job, with_links, with_trace, with_workload};

use crate::command::{Named, option_of, text_of};
use crate::value::{budget, executions};
use crate::words::{Job, WordsFail};
use dx_base::Bytes;
use std::alloc::Global;

/// What was said so far.
#[derive(Debug, Drop)]
pub(crate) struct Line {
    pub budget: Option<u64>,
    pub trace: bool,
    pub links: bool,
    pub job: Option<Job>,
}

/// What the next word is.
#[derive(Clone, Copy, Debug, PartialEq, Eq, Drop)]
pub(crate) enum Reading {
    /// An option, a session's name or `--`.
    Options,
    /// The value of `--memory`.
    Budget,
    /// The value of `--workload`.
    Executions,
    /// A session's name, behind `--`.
    Sessions,
}

impl Line {
    /// Nothing was said.
    pub(crate) fn empty() -> Line
        ensures { result ≡ nothing }
    {
        Line {
            budget: None,
            trace: false,
            links: false,
            job: None,
        }
    }

    /// Reads a word, and says what the one behind it is.
    pub(crate) fn read(
        &mut self,
        alloc: Global,
        reading: Reading,
        word: &[String],
    ) -> Result<Reading, WordsFail>
        requires one { length word.now ≡ 1 }
        ensures ok { IfOk result (λ next. (rest : List (List ℕ)) →
            joined self.new (line_from next rest) ≡ joined self.old (line_from reading (text word.now ∷ rest))) }
        ensures refused { IsErrOf result WordsFail.Refused → (rest : List (List ℕ)) →
            joined self.old (line_from reading (text word.now ∷ rest)) ≡ None }
    {
        match reading {
            Reading::Options => self.read_option(alloc, word),
            Reading::Budget => {
                self.set_budget(budget(text_of(word)))?;
                Ok(Reading::Options)
            }
            Reading::Executions => {
                self.set_workload(executions(text_of(word)))?;
                Ok(Reading::Options)
            }
            Reading::Sessions => {
                self.set_session(alloc, text_of(word))?;
                Ok(Reading::Sessions)
            }
        }
    }

    // Reads a word where options may stand.
    fn read_option(&mut self, alloc: Global, word: &[String]) -> Result<Reading, WordsFail>
        requires one { length word.now ≡ 1 }
        ensures ok { IfOk result (λ next. (rest : List (List ℕ)) →
            joined self.new (line_from next rest) ≡ joined self.old (line_from Reading.Options (text word.now ∷ rest))) }
        ensures refused { IsErrOf result WordsFail.Refused → (rest : List (List ℕ)) →
            joined self.old (line_from Reading.Options (text word.now ∷ rest)) ≡ None }
    {
        let text = text_of(word);
        if text == b"--".as_slice() {
            return Ok(Reading::Sessions);
        }
        if is_session(text) {
            self.set_session(alloc, text)?;
            return Ok(Reading::Options);
        }
        let option = option_of(alloc, word)?;
        self.take(option)
    }

    // Takes an option, and says what the word behind it is.
    fn take(&mut self, option: Named) -> Result<Reading, WordsFail>
        ensures ok { IfOk result (λ next. (rest : Reading → Option Lines) → joined self.new (rest next) ≡ joined self.old (with_named option rest)) }
        ensures refused { OnErr result ((rest : Reading → Option Lines) → joined self.old (with_named option rest) ≡ None) }
    {
        match option {
            Named::Trace => self.set_trace()?,
            Named::Links => self.set_links()?,
            Named::Budget(None) => return Ok(Reading::Budget),
            Named::Budget(Some(n)) => self.set_budget(Some(n))?,
            Named::Executions(None) => return Ok(Reading::Executions),
            Named::Executions(Some(n)) => self.set_workload(Some(n))?,
        }
        Ok(Reading::Options)
    }

    /// The line, where the words end here.
    pub(crate) fn end(self, reading: Reading) -> Result<Line, WordsFail>
        ensures ok { IfOk result (λ line. joined self (line_from reading []) ≡ Some line) }
        ensures refused { OnErr result (joined self (line_from reading []) ≡ None) }
    {
        match reading {
            Reading::Options | Reading::Sessions => Ok(self),
            Reading::Budget | Reading::Executions => Err(WordsFail::Refused),
        }
    }

    fn set_trace(&mut self) -> Result<(), WordsFail>
        ensures ok { OnOk result ((rest : Option Lines) → joined self.new rest ≡ joined self.old (with_trace rest)) }
        ensures refused { OnErr result ((rest : Option Lines) → joined self.old (with_trace rest) ≡ None) }
    {
        if self.trace {
            return Err(WordsFail::Refused);
        }
        self.trace = true;
        Ok(())
    }

    fn set_links(&mut self) -> Result<(), WordsFail>
        ensures ok { OnOk result ((rest : Option Lines) → joined self.new rest ≡ joined self.old (with_links rest)) }
        ensures refused { OnErr result ((rest : Option Lines) → joined self.old (with_links rest) ≡ None) }
    {
        if self.links {
            return Err(WordsFail::Refused);
        }
        self.links = true;
        Ok(())
    }

    fn set_budget(&mut self, n: Option<u64>) -> Result<(), WordsFail>
        ensures ok { OnOk result ((rest : Option Lines) → joined self.new rest ≡ joined self.old (with_budget n rest)) }
        ensures refused { OnErr result ((rest : Option Lines) → joined self.old (with_budget n rest) ≡ None) }
    {
        if self.budget.is_some() || n.is_none() {
            return Err(WordsFail::Refused);
        }
        self.budget = n;
        Ok(())
    }

    fn set_workload(&mut self, n: Option<u32>) -> Result<(), WordsFail>
        ensures ok { OnOk result ((rest : Option Lines) → joined self.new rest ≡ joined self.old (with_workload n rest)) }
        ensures refused { OnErr result ((rest : Option Lines) → joined self.old (with_workload n rest) ≡ None) }
    {
        match n {
            None => Err(WordsFail::Refused),
            Some(n) => self.set_job(Job::Workload(n)),
        }
    }

    fn set_session(&mut self, alloc: Global, name: &[u8]) -> Result<(), WordsFail>
        ensures ok { OnOk result ((rest : Option Lines) → joined self.new rest ≡ joined self.old (with_job (Job.Session name.now) rest)) }
        ensures refused { IsErrOf result WordsFail.Refused → (rest : Option Lines) → joined self.old (with_job (Job.Session name.now) rest) ≡ None }
    {
        let name = Bytes::copy_of(alloc, name)?;
        self.set_job(Job::Session(name))
    }

    fn set_job(&mut self, job: Job) -> Result<(), WordsFail>
        ensures ok { OnOk result ((rest : Option Lines) → joined self.new rest ≡ joined self.old (with_job job rest)) }
        ensures refused { OnErr result ((rest : Option Lines) → joined self.old (with_job job rest) ≡ None) }
    {
        if self.job.is_some() {
            return Err(WordsFail::Refused);
        }
        self.job = Some(job);
        Ok(())
    }
}

// A word that names a session.
fn is_session(word: &[u8]) -> bool
    ensures { result ≡ names_session word.now }
{
    !word.starts_with(b"-") || word == b"-".as_slice()
}
