//! An option, as the parser of command lines reads it.
ghost use Rattle.std.specs.Prelude.{◌≡◌, [], length, None, Some, IfOk, OnErr, IsErrOf, option_map, false, true};
ghost use Rattle.clap.specs.Words.{app_of, fault_of, found_of, matches_of, rows_of, rule_of};
ghost use Rattle.dx_words.specs.Command.{flag_rule, is_long, named_of, options, value_rule};
ghost use Rattle.dx_words.specs.Line.{memory, said, text, texts, workload};

use crate::value::{budget, executions};
use crate::words::WordsFail;
use clap::error::ErrorKind;
use clap::{Arg, ArgAction, ArgMatches, Command};
use std::alloc::{AllocError, Global};

/// An option, with the number that its word says behind `=`.
#[derive(Clone, Copy, Debug, PartialEq, Eq, Drop)]
pub(crate) enum Named {
    Trace,
    Links,
    Budget(Option<u64>),
    Executions(Option<u32>),
}

/// The one word as bytes.
pub(crate) fn text_of(word: &[String]) -> &[u8]
    requires one { length word.now ≡ 1 }
    ensures { result.now ≡ text word.now }
{
    word[0].as_bytes()
}

/// The option that one word is.
pub(crate) fn option_of(alloc: Global, word: &[String]) -> Result<Named, WordsFail>
    requires one { length word.now ≡ 1 }
    ensures ok { IfOk result (λ n. named_of (said (text word.now)) ≡ Some n) }
    ensures refused { IsErrOf result WordsFail.Refused → named_of (said (text word.now)) ≡ None }
{
    if has_two_dashes(text_of(word)) {
        option_found(alloc, word)
    } else {
        Err(WordsFail::Refused)
    }
}

// Two dashes and something behind them.
fn has_two_dashes(word: &[u8]) -> bool
    ensures { result ≡ is_long word.now }
{
    match word {
        [first, second, _, ..] => *first == b'-' && *second == b'-',
        _ => false,
    }
}

// The option that the parser finds.
fn option_found(alloc: Global, word: &[String]) -> Result<Named, WordsFail>
    requires one { length word.now ≡ 1 }
    requires dashes { is_long (text word.now) ≡ true }
    ensures ok { IfOk result (λ n. named_of (said (text word.now)) ≡ Some n) }
    ensures refused { IsErrOf result WordsFail.Refused → named_of (said (text word.now)) ≡ None }
{
    let found = parsed(alloc, word)?;
    if found.get_flag("trace") {
        return Ok(Named::Trace);
    }
    if found.get_flag("links") {
        return Ok(Named::Links);
    }
    if found.contains_id("memory") {
        return budget_named(found.get_str("memory"));
    }
    executions_named(found.get_str("workload"))
}

fn budget_named(value: Option<&str>) -> Result<Named, WordsFail>
    ensures ok { IfOk result (λ n. named_of (Some (memory (option_map (λ v. v.now) value.entry))) ≡ Some n) }
    ensures refused { OnErr result (named_of (Some (memory (option_map (λ v. v.now) value.entry))) ≡ None) }
{
    match value {
        None => Ok(Named::Budget(None)),
        Some(value) => match budget(value.as_bytes()) {
            None => Err(WordsFail::Refused),
            Some(n) => Ok(Named::Budget(Some(n))),
        },
    }
}

fn executions_named(value: Option<&str>) -> Result<Named, WordsFail>
    ensures ok { IfOk result (λ n. named_of (Some (workload (option_map (λ v. v.now) value.entry))) ≡ Some n) }
    ensures refused { OnErr result (named_of (Some (workload (option_map (λ v. v.now) value.entry))) ≡ None) }
{
    match value {
        None => Ok(Named::Executions(None)),
        Some(value) => match executions(value.as_bytes()) {
            None => Err(WordsFail::Refused),
            Some(n) => Ok(Named::Executions(Some(n))),
        },
    }
}

// What the parser finds in a word.
fn parsed<'a>(alloc: Global, word: &'a [String]) -> Result<ArgMatches<'a>, WordsFail>
    ensures ok { IfOk result (λ m. (fault_of options (texts word.entry.now) ≡ []) × (rows_of (found_of m) ≡ matches_of options (texts word.entry.now))) }
    ensures refused { IsErrOf result WordsFail.Refused → fault_of options (texts word.entry.now) ≡ [] → ⊥ }
{
    match command(alloc)?.try_get_matches_from(word) {
        Ok(found) => Ok(found),
        Err(e) => match e.kind() {
            ErrorKind::OutOfMemory => Err(WordsFail::Memory),
            _ => Err(WordsFail::Refused),
        },
    }
}

// The options. There is no word for help or a version.
fn command<'a>(alloc: Global) -> Result<Command<'a>, AllocError>
    ensures { IfOk result (λ c. app_of c ≡ options) }
{
    Command::new(alloc, "dxi")
        .no_binary_name(true)
        .disable_help_flag(true)
        .disable_version_flag(true)
        .arg(flag(alloc, "trace"))?
        .arg(flag(alloc, "links"))?
        .arg(valued(alloc, "memory"))?
        .arg(valued(alloc, "workload"))
}

fn flag<'a>(alloc: Global, name: &'a str) -> Arg<'a>
    ensures rule { rule_of result ≡ flag_rule name.entry.now }
    ensures local { result.global ≡ false }
{
    Arg::new(alloc, name).long(name).action(ArgAction::SetTrue)
}

fn valued<'a>(alloc: Global, name: &'a str) -> Arg<'a>
    ensures rule { rule_of result ≡ value_rule name.entry.now }
    ensures local { result.global ≡ false }
{
    Arg::new(alloc, name)
        .long(name)
        .action(ArgAction::Set)
        .num_args(0..=1)
}
