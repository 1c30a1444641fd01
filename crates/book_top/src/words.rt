//! The words of the command line.
ghost use Rattle.std.specs.Prelude.{◌≡◌, ℕ, All, IfOk, IfErr, MatchOption, IsUtf8};
ghost use Rattle.clap.specs.Simple.{app_of};
ghost use Rattle.book_top.specs.Words.{texts, listed, HasBudget};
ghost use Rattle.book_top.specs.Command.{IsDecided};
ghost use Rattle.book_top.specs.CommandLine.{positionals, line, Finds, Exceeds, IsGiven, AreInOrder, AreAsked, AskFor};

use crate::command::{Check, Command};
use clap::error::ErrorKind;
use clap::{Arg, ArgMatches};
use fb_base::NoMemory;
use std::alloc::{AllocError, Global};

// The budget where the words give none.
const DEFAULT_BUDGET: u64 = 1_000_000;

// The greatest budget.
const MOST_BUDGET: u64 = 1_000_000_000;

// How many digits a budget has at most.
const MOST_DIGITS: usize = 10;

// The texts of the positionals, in their order, and that of the budget. The file is the one that is fetched.
#[derive(Clone, Copy)]
struct Given<'a> {
    command: Option<&'a str>,
    file: Option<&'a str>,
    out: Option<&'a str>,
    budget: Option<&'a str>,
}

/// What the words ask for, if it is known.
pub fn read_words<'a>(alloc: Global, words: &'a [&'a str]) -> Result<Option<Command<'a>>, NoMemory>
    ensures asked { IfOk result (AreAsked (texts words.now)) }
    ensures either { IfErr result (λ _. IsDecided (texts words.now)) }
{
    are_texts(words);
    match read_given(alloc, words)? {
        Some(given) => Ok(read_command(given)),
        None => Ok(None),
    }
}

// The command that the texts ask for, if they do.
fn read_command<'a>(given: Given<'a>) -> Option<Command<'a>>
    requires { AreInOrder given }
    ensures { AskFor (positionals given.entry) (listed given.entry.budget) result }
{
    let Some(budget) = read_budget(given.budget) else {
        return None;
    };
    match (given.command, given.file, given.out) {
        (Some(command), Some(book), Some(out)) if command == "check" => {
            Some(Command::Check(Check { book, out, budget }))
        }
        (Some(command), Some(deriv), None) if command == "verify" => Some(Command::Verify(deriv)),
        _ => None,
    }
}

// The budget that the text of the option gives, if it is one.
fn read_budget(text: Option<&str>) -> Option<u64>
    ensures { MatchOption result ((budget : ℕ) → HasBudget (listed text.entry) budget → ⊥) (λ budget. HasBudget (listed text.entry) budget) }
{
    let Some(text) = text else {
        return Some(DEFAULT_BUDGET);
    };
    // `parse` takes a leading `+`, which is no digit.
    if text.len() > MOST_DIGITS || text.starts_with('+') {
        return None;
    }
    match text.parse::<u64>() {
        Ok(budget) if budget <= MOST_BUDGET => Some(budget),
        _ => None,
    }
}

// The texts of the words, if these are at most three positionals and one budget.
fn read_given<'a>(alloc: Global, words: &'a [&'a str]) -> Result<Option<Given<'a>>, NoMemory>
    requires { All (λ w. IsUtf8 w.now) words.now }
    ensures { IfOk result (λ found. MatchOption found (Exceeds (texts words.now)) (IsGiven (texts words.now))) }
{
    let Some(matches) = found(alloc, words)? else {
        return Ok(None);
    };
    Ok(Some(Given {
        command: matches.get_str("command"),
        file: matches.get_str("file"),
        out: matches.get_str("out"),
        budget: matches.get_str("budget"),
    }))
}

// What `clap` finds in the words.
fn found<'a>(alloc: Global, words: &'a [&'a str]) -> Result<Option<ArgMatches<'a>>, NoMemory>
    ensures { IfOk result (Finds (texts words.now)) }
{
    let Ok(line) = command_line(alloc) else {
        return Err(NoMemory);
    };
    match line.try_get_matches_from(words) {
        Ok(matches) => Ok(Some(matches)),
        Err(error) if error.kind() == ErrorKind::OutOfMemory => Err(NoMemory),
        Err(_) => Ok(None),
    }
}

// The command line as `clap` reads it.
fn command_line<'a>(alloc: Global) -> Result<clap::Command<'a>, AllocError>
    ensures { IfOk result (λ c. app_of c ≡ line) }
{
    let budget = Arg::new(alloc, "budget").long("budget");
    clap::Command::new(alloc, "flagbook")
        .no_binary_name(true)
        .disable_help_flag(true)
        .disable_version_flag(true)
        .arg(Arg::new(alloc, "command"))?
        .arg(Arg::new(alloc, "file"))?
        .arg(Arg::new(alloc, "out"))?
        .arg(budget)
}

// Says, for proofs, that each word is text, and does nothing.
fn are_texts(words: &[&str])
    ensures { All (λ w. IsUtf8 w.now) words.now }
{
    for word in words {
        is_text(*word);
    }
}

fn is_text(word: &str)
    ensures { IsUtf8 word.now }
{}
