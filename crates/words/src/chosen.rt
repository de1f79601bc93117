//! What the arguments of the command line ask for.

ghost use Rattle.std.specs.Prelude.{Contains, IsTrue, IfOk, IfSome, map};
ghost use Rattle.relay_args.specs.Ranges.{IsInRange};
ghost use Rattle.words.specs.Ranges.{AreInRange, IsAskedFor, IsRelay};

use crate::command_line::{command_line, relay};
use clap::error::ErrorKind;
use clap::{ArgMatches, Command};
use relay_args::{Kind, MAX_FILES, MAX_RING_CAPACITY, RelayArgs};
use std::alloc::{AllocError, AllocFailed, Global};
use thiserror::Error;

/// What the program is to do.
#[derive(Debug, Drop, PartialEq, Eq)]
pub enum Chosen {
    /// Replay the script in this file, or the one on standard input.
    Replay(Option<String>),
    /// Replay the script in this file, and write its atomic steps on standard error.
    Traced(String),
    /// Relay these files.
    Relay(RelayArgs, Vec<String>),
    /// Relay these files, and write how it went on standard error.
    Measured(RelayArgs, Vec<String>),
}

/// Why the arguments ask for nothing that the program does.
#[derive(Debug, Drop, Error)]
pub enum WordsRefused {
    /// They ask for help or for the version, which is this error's text.
    #[error("{0}")]
    Help(clap::Error),
    /// They are not understood, a value is out of its range, or memory ran out. This error's text
    /// says which.
    #[error("bad command line")]
    Bad(clap::Error),
}

impl WordsRefused {
    /// An argument is not UTF-8.
    pub fn not_text(alloc: Global) -> WordsRefused {
        mistake(
            command_line(alloc),
            "invalid UTF-8 was detected in one or more arguments",
        )
    }
}

impl From<AllocError> for WordsRefused {
    fn from(error: AllocError) -> WordsRefused {
        WordsRefused::Bad(clap::Error::from(error))
    }
}

impl<T: Drop> From<AllocFailed<T>> for WordsRefused {
    fn from(_: AllocFailed<T>) -> WordsRefused {
        WordsRefused::from(AllocError)
    }
}

impl From<clap::Error> for WordsRefused {
    ghost use Rattle.words.specs.Ranges.{IsRefusalOf};

    ghost from_gives = { IsRefusalOf };

    fn from(error: clap::Error) -> WordsRefused {
        match error.kind() {
            ErrorKind::DisplayHelp | ErrorKind::DisplayVersion => WordsRefused::Help(error),
            _ => WordsRefused::Bad(error),
        }
    }
}

// The error for a mistake that this crate finds and the parser does not, in the parser's own form,
// with the usage of this command.
fn mistake(command: Result<Command<'_>, AllocError>, message: &str) -> WordsRefused {
    let error = match command {
        Ok(mut command) => command.error(ErrorKind::InvalidValue, message),
        Err(error) => Err(error),
    };
    match error {
        Ok(error) => WordsRefused::Bad(error),
        Err(error) => WordsRefused::from(error),
    }
}

// The error for values that the parser lets through and `RelayArgs` does not. The parser has one
// range for each option, so the only such value is a capacity that is too great for a ring.
fn out_of_range(alloc: Global, found: &ArgMatches<'_>) -> WordsRefused {
    let capacity = found.get_one::<u32>("capacity").unwrap_or_default();
    let message = format!(in alloc;
        "invalid value '{capacity}' for '--capacity <N>': a ring has 1 to {MAX_RING_CAPACITY}"
    );
    match message {
        Ok(message) => mistake(relay(alloc), message.as_str()),
        Err(error) => WordsRefused::from(error),
    }
}

/// Reads the arguments of the command line, the program's name first.
///
/// - `Help`: they ask for the help or for the version.
/// - `Bad`: they are not understood, a value is not in its range, or memory ran out.
pub fn read_words<'a>(alloc: Global, words: &'a [&'a str]) -> Result<Chosen, WordsRefused>
    // Every value lies in its range, and a relay has 1 to 16 files.
    ensures ranges { IfOk result AreInRange }
    // A relay is measured, and a script traced, only if the arguments ask for it.
    ensures asked { IfOk result (IsAskedFor (map (λ word. word.now) words.now)) }
{
    let matches = command_line(alloc)?.try_get_matches_from(words)?;
    match matches.subcommand() {
        None => Ok(Chosen::Replay(None)),
        Some(("replay", found)) => {
            let Some(file) = found.get_str("file") else {
                return Err(mistake(command_line(alloc), "the script is missing"));
            };
            let file = String::from_str(alloc, file)?;
            if found.get_flag("trace") && has_word(words, "--trace") {
                return Ok(Chosen::Traced(file));
            }
            Ok(Chosen::Replay(Some(file)))
        }
        Some((_, found)) => {
            let is_measured = found.get_flag("stats") && has_word(words, "--stats");
            relay_of(alloc, found, is_measured)
        }
    }
}

// Whether one of the arguments is this one.
fn has_word(words: &[&str], wanted: &str) -> bool
    ensures { IsTrue result → Contains (map (λ word. word.now) words.now) wanted.now }
{
    for word in words {
        if *word == wanted {
            return true;
        }
    }
    false
}

// The relay that these arguments ask for, and whether it is measured.
fn relay_of(
    alloc: Global,
    found: &ArgMatches<'_>,
    is_measured: bool,
) -> Result<Chosen, WordsRefused>
    ensures ranges { IfOk result AreInRange }
    ensures relay { IfOk result (IsRelay is_measured) }
{
    let Some(args) = args_of(found) else {
        return Err(out_of_range(alloc, found));
    };
    let mut files = Vec::new(alloc);
    for name in found.get_strs("files").unwrap_or_default() {
        files.push(String::from_str(alloc, name)?)?;
    }
    if files.is_empty() || files.len() > MAX_FILES {
        return Err(mistake(relay(alloc), "a relay has 1 to 16 files"));
    }
    if is_measured {
        return Ok(Chosen::Measured(args, files));
    }
    Ok(Chosen::Relay(args, files))
}

// How a relay is to be run.
fn args_of(found: &ArgMatches<'_>) -> Option<RelayArgs>
    ensures { IfSome result IsInRange }
{
    let kind = match found.get_str("kind")? {
        "queue" => Kind::Queue,
        "ring" => Kind::Ring,
        _ => Kind::Stack,
    };
    let args = RelayArgs {
        kind,
        capacity: found.get_one("capacity")?,
        consumers: found.get_one("consumers")?,
        take: found.get_one("take"),
        close_after: found.get_one("close_after"),
        shut_after: found.get_one("shut_after"),
        list: found.get_flag("list"),
    };
    args.is_in_range().then_some(args)
}
