//! What a list of words says to the program.
ghost use Rattle.std.specs.Prelude.{◌≡◌, None, Some, IfOk, IsErrOf};
ghost use Rattle.dx_words.specs.Line.{line_from, texts, words_of};
ghost use Rattle.dx_words.specs.Range.{IsInRange};

use crate::line::{Line, Reading};
use dx_base::Bytes;
use std::alloc::{AllocError, Global};

/// What a line of `dxi` says.
#[derive(Debug, Drop)]
pub struct Words {
    /// The budget of the cache, in bytes of stated sizes.
    pub budget: u64,
    /// A line for each event of an execution.
    pub trace: bool,
    /// The links after each execution.
    pub links: bool,
    pub job: Job,
}

/// What runs.
#[derive(Debug, Drop)]
pub enum Job {
    /// The session in the file of this name.
    Session(Bytes),
    /// The built-in workload of so many executions.
    Workload(u32),
}

/// Why no line was read.
#[derive(Clone, Copy, Debug, PartialEq, Eq, Drop)]
pub enum WordsFail {
    /// The words are no line.
    Refused,
    /// Memory ran out.
    Memory,
}

impl From<AllocError> for WordsFail {
    ghost use Rattle.std.specs.Prelude.{◌≡◌};
    ghost use Rattle.dx_words.specs.declared.words.WordsFail.TheVariants.{Memory};

    ghost from_gives = { λ _ e. e ≡ Memory };

    fn from(_: AllocError) -> Self {
        WordsFail::Memory
    }
}

/// The budget where the line names none.
const USUAL_BUDGET: u64 = 67_108_864;

/// What the words after the program's name say. Up to a word `--` each is an option, which takes its value behind `=` or
/// as the next word, or it is the session's name; after it each is the session's name. Refused exactly where the words
/// are no line: an option or a session twice, no session and no workload, both, an option that there isn't, a value that
/// isn't digits or out of its range.
pub fn read_words(alloc: Global, words: &Vec<String>) -> Result<Words, WordsFail>
    ensures ok { IfOk result (λ said. words_of (texts words.now.items) ≡ Some said) }
    ensures refused { IsErrOf result WordsFail.Refused → words_of (texts words.now.items) ≡ None }

    // A workload has 1 to 100,000 executions.
    ensures range { IfOk result (λ said. IsInRange said.job) }
{
    let line = read_line(alloc, words)?;
    let Line {
        budget,
        trace,
        links,
        job,
    } = line;
    match job {
        None => Err(WordsFail::Refused),
        Some(job) => Ok(Words {
            budget: budget.unwrap_or(USUAL_BUDGET),
            trace,
            links,
            job,
        }),
    }
}

// The line, word by word.
fn read_line(alloc: Global, words: &[String]) -> Result<Line, WordsFail>
    ensures ok { IfOk result (λ line. line_from Reading.Options (texts words.now) ≡ Some line) }
    ensures refused { IsErrOf result WordsFail.Refused → line_from Reading.Options (texts words.now) ≡ None }
{
    let mut line = Line::empty();
    let mut reading = Reading::Options;
    let mut rest = words;
    while let [_, after @ ..] = rest {
        let (word, _) = rest.split_at(1);
        reading = line.read(alloc, reading, word)?;
        rest = after;
    }
    line.end(reading)
}
